// Stretches of the queue moved to its front, and zeros behind.
ghost use Rattle.std.specs.Prelude.{◌≡◌, ◌++◌, ◌-◌, ◌*◌, ◌≤◌, length, take, replicate};
ghost use Rattle.std.proofs.Math.Seq.{slice};
ghost use Rattle.lists.specs.Lists.{select};
ghost use Rattle.neighbours.specs.Crop.{Sized, Appended};
ghost use Rattle.neighbours.specs.Contour.{on_contour};
ghost use Rattle.engine.specs.Leaves.{Positions};

use neighbours::Position;

// Moves the stretch from `from` up to `to` to the front. Returns its length.
pub fn move_front(queue: &mut [Position], from: usize, to: usize) -> usize
    requires from_le_to { from ≤ to }
    requires to_in_bounds { to ≤ length queue.old }
    ensures { Appended queue.old 0 (slice from to queue.old) queue.new result }
{
    queue.copy_within(from..to, 0);
    to - from
}

// Moves those positions of the stretch from `from` up to `to` that are on the contour to the front.
// Returns how many there are.
pub fn keep_contour(
    width: usize,
    height: usize,
    image: &[u8],
    queue: &mut [Position],
    from: usize,
    to: usize,
) -> usize
    requires sized { Sized width height image.now }
    requires positions { Positions queue.old from to (width * height) }
    ensures { Appended queue.old 0
        (select (on_contour width height image.now) (slice from to queue.old))
        queue.new result }
{
    let mut len: usize = 0;
    for slot in from..to {
        let at = neighbours::inner::queued(queue, slot);
        if neighbours::inner::on_contour(width, height, image, at % width, at / width) {
            neighbours::inner::put_queued(queue, len, at);
            len += 1;
        }
    }
    len
}

// Writes zeros behind the first `len` entries, to the queue's end.
pub fn clear_behind(queue: &mut [Position], len: usize)
    requires { len ≤ length queue.old }
    ensures { queue.new ≡ take len queue.old ++ replicate (length queue.old - len) 0 }
{
    queue[len..].fill(0);
}
