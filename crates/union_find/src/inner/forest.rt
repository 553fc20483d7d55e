// The forest: finding the root of a position, and joining two sets.
ghost use Rattle.std.specs.Prelude.{◌≡◌, ℕ, suc, ◌<◌};
ghost use Rattle.union_find.specs.Forest.{root, Forest, SameRoots, Joinable, Joined};
ghost use Rattle.neighbours.specs.Limits.{max_pixels};

use neighbours::Position;

// The root of a position's set: its first pixel, so far. On the way each second entry is moved up (path
// halving), so that no chain of entries is climbed at full length twice.
pub fn root(queue: &mut [Position], at: usize) -> usize
    requires at_lt_max_pixels { at < max_pixels }
    requires forest { Forest (suc at) queue.old }
    ensures found { result ≡ root queue.old at }
    ensures same { ((n : ℕ) → at < n → Forest n queue.old →
        SameRoots n queue.old queue.new) }
{
    let mut top = at;
    let mut above = neighbours::inner::queued(queue, top);
    while above != top {
        let beyond = neighbours::inner::queued(queue, above);
        neighbours::inner::put_queued(queue, top, beyond);
        top = beyond;
        above = neighbours::inner::queued(queue, top);
    }
    top
}

// Makes the sets of two positions one. Its root is the lower of the two.
pub fn join(queue: &mut [Position], a: usize, b: usize)
    requires { Joinable a b queue.old }
    ensures { ((n : ℕ) → a < n → b < n → Forest n queue.old →
        Joined n queue.old a b queue.new) }
{
    let one = root(queue, a);
    let other = root(queue, b);
    if one < other {
        neighbours::inner::put_queued(queue, other, one);
        return;
    }
    neighbours::inner::put_queued(queue, one, other);
}
