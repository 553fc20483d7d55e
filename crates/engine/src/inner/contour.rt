// The contour that a caller hands in, held against the image: accepted only if it is exactly the image's,
// in some order. Positions that were seen are marked in the image, and put back.
ghost use Rattle.std.specs.Prelude.{◌≡◌, ◌≤◌, length};
ghost use Rattle.neighbours.specs.Crop.{ValidSize, Sized, Binary};
ghost use Rattle.model.specs.Refusals.{is_contour};
ghost use Rattle.engine.specs.Leaves.{Marked};

use crate::inner::image;
use neighbours::inner::pairs;
use neighbours::{MARK, Position};

// Marks the positions at the queue's front, at most `n`, as long as each is on the contour and not seen
// before. Returns how many it marked.
pub fn mark_contour(
    width: usize,
    height: usize,
    image: &mut [u8],
    queue: &[Position],
    n: usize,
) -> usize
    requires sized { Sized width height image.old }
    requires n_in_bounds { n ≤ length queue.now }
    ensures { Marked width height image.old queue.now n image.new result }
{
    for count in 0..n {
        let at = neighbours::inner::queued(queue, count);
        if width * height <= at {
            return count;
        }
        if !neighbours::inner::on_contour(width, height, image, at % width, at / width) {
            return count;
        }
        image[at] = MARK;
    }
    n
}

// Whether the `n` positions at the queue's front are exactly the contour, in some order: all are marked,
// and no position of the contour is left without a mark.
pub fn is_contour(
    width: usize,
    height: usize,
    image: &mut [u8],
    queue: &[Position],
    n: usize,
) -> bool
    requires valid_size { ValidSize width height }
    requires binary { Binary width height image.old }
    ensures answer { result ≡ is_contour width height image.old queue.now n }
    ensures kept { image.new ≡ image.old }
{
    if queue.len() < n {
        return false;
    }
    let count = mark_contour(width, height, image, queue, n);
    if count < n {
        image::paint(image, queue, 0, count, 1);
        return false;
    }
    let left = pairs::has_contour(width, height, image);
    image::paint(image, queue, 0, count, 1);
    !left
}
