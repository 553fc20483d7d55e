// The queue engine: from the positions in a stretch of the queue, neighbours that hold the old value get
// the new one and are queued behind. Each pixel is queued at most once, since it no longer holds the old
// value; so a queue with an entry for each pixel has room.
ghost use Rattle.std.specs.Prelude.{◌≡◌, cond, ℕ, ◌<◌, eqb, length};
ghost use mathlib.Core.List.{flat_map};
ghost use Rattle.std.proofs.Math.Seq.{slice};
ghost use Rattle.lists.specs.Lists.{bit};
ghost use Rattle.neighbours.specs.Crop.{inside, neighbours};
ghost use Rattle.std.specs.Prelude.{Some};
ghost use Rattle.engine.specs.Spread.{Room, Surrounded, Visited, Stretch, Grown};

use crate::{Growth, Rule};
use neighbours::Position;

// Changes the pixel at a place and queues it at `end`, unless it is outside, holds another value than
// the old one, or is outside the mask. Returns the queue's new end. It writes every position and moves on
// where the pixel changes: a data-dependent branch would be mispredicted.
pub fn visit(
    rule: Rule,
    mask: &[u8],
    image: &mut [u8],
    queue: &mut [Position],
    end: usize,
    place: Option<usize>,
) -> usize
    requires room { Room rule mask.now image.old queue.old end }
    requires by_index { (j : ℕ) → place ≡ Some j → j < length image.old }
    ensures { Visited rule mask.now image.old queue.old end (inside place)
        image.new queue.new result }
{
    let Some(at) = place else {
        return end;
    };
    if !mask.is_empty() && mask[at] != rule.allowed {
        return end;
    }
    // A full queue holds all that could still be changed.
    if queue.len() <= end {
        return end;
    }
    let pixel = image[at];
    // Written before the pixel is tested: the other order was measured, and is slower.
    neighbours::inner::put_queued(queue, end, at);
    let changes = pixel == rule.old;
    image[at] = if changes { rule.new } else { pixel };
    end + usize::from(changes)
}

// Visits the neighbours of a position, some of which may be outside.
fn visit_around(
    rule: Rule,
    mask: &[u8],
    image: &mut [u8],
    queue: &mut [Position],
    end: usize,
    at: usize,
) -> usize
    requires room { Room rule mask.now image.old queue.old end }
    requires at_in_bounds { at < length image.old }
    ensures { Visited rule mask.now image.old queue.old end
        (neighbours rule.width rule.height rule.connectivity at)
        image.new queue.new result }
{
    let x = at % rule.width;
    let y = at / rule.width;
    let mut tail = end;
    for k in 0..usize::from(rule.connectivity) {
        let d = neighbours::inner::direction(rule.connectivity, k);
        let place = neighbours::inner::neighbour_at(rule.width, rule.height, x, y, d);
        tail = visit(rule, mask, image, queue, tail, place);
    }
    tail
}

// Visits the neighbours of a position that is not on the border, all of which are inside. The connectivity is
// the rule's; a caller that hands it in as a constant has the loop unrolled. One loop for this and `visit_around`, over
// a closure that finds the place, would be no plainer: its contract would have to speak of the closure.
fn visit_inside(
    rule: Rule,
    mask: &[u8],
    image: &mut [u8],
    queue: &mut [Position],
    end: usize,
    at: usize,
    connectivity: u8,
) -> usize
    requires { Surrounded rule mask.now image.old queue.old end at connectivity }
    ensures { Visited rule mask.now image.old queue.old end
        (neighbours rule.width rule.height rule.connectivity at)
        image.new queue.new result }
{
    let mut tail = end;
    for k in 0..usize::from(connectivity) {
        let d = neighbours::inner::direction(connectivity, k);
        let beside = neighbours::inner::neighbour_inside(rule.width, rule.height, at, d);
        tail = visit(rule, mask, image, queue, tail, Some(beside));
    }
    tail
}

// Visits the neighbours of a position.
pub fn visit_neighbours(
    rule: Rule,
    mask: &[u8],
    image: &mut [u8],
    queue: &mut [Position],
    end: usize,
    at: usize,
) -> usize
    requires room { Room rule mask.now image.old queue.old end }
    requires at_in_bounds { at < length image.old }
    ensures { Visited rule mask.now image.old queue.old end
        (neighbours rule.width rule.height rule.connectivity at)
        image.new queue.new result }
{
    if neighbours::inner::on_border(rule.width, rule.height, at % rule.width, at / rule.width) {
        return visit_around(rule, mask, image, queue, end, at);
    }
    if rule.connectivity == 4 {
        return visit_inside(rule, mask, image, queue, end, at, 4);
    }
    visit_inside(rule, mask, image, queue, end, at, 8)
}

// One layer: visits the neighbours of the positions that stand in the queue from `from` up to `to`, and
// queues from `to` on what it changes. Returns the queue's new end.
pub fn spread(
    rule: Rule,
    mask: &[u8],
    image: &mut [u8],
    queue: &mut [Position],
    from: usize,
    to: usize,
) -> usize
    requires { Stretch rule mask.now image.old queue.old from to }
    ensures { Visited rule mask.now image.old queue.old to
        (flat_map (neighbours rule.width rule.height rule.connectivity) (slice from to queue.old))
        image.new queue.new result }
{
    let mut tail = to;
    for slot in from..to {
        let at = neighbours::inner::queued(queue, slot);
        tail = visit_neighbours(rule, mask, image, queue, tail, at);
    }
    tail
}

// Layer after layer, from the positions that stand in the queue from `from` up to `to`: as many as
// asked, or until one is empty, since no later one would change anything.
pub fn layers(
    rule: Rule,
    mask: &[u8],
    image: &mut [u8],
    queue: &mut [Position],
    from: usize,
    to: usize,
    iterations: usize,
) -> Growth
    requires { Stretch rule mask.now image.old queue.old from to }
    ensures { Grown rule mask.now image.old queue.old from to iterations
        image.new queue.new result }
{
    let mut head = from;
    let mut tail = to;
    for used in 0..iterations {
        let end = spread(rule, mask, image, queue, head, tail);
        if end == tail {
            return Growth {
                from: end,
                to: end,
                used,
            };
        }
        head = tail;
        tail = end;
    }
    Growth {
        from: head,
        to: tail,
        used: iterations,
    }
}
