// Functions that require what the entry points have tested: the operations by the queue engine, from a contour in hand.
ghost use Rattle.std.specs.Prelude.{◌≡◌, true, cond, [], ◌++◌, ◌+◌, ◌-◌, ◌≤◌, eqb, length, take, replicate};
ghost use Rattle.std.proofs.Math.Seq.{slice};
ghost use Rattle.neighbours.specs.Limits.{max_pixels};
ghost use Rattle.neighbours.specs.Crop.{Ready};
ghost use Rattle.neighbours.specs.Grid.{is_connectivity};
ghost use Rattle.model.specs.Operations.{apply, changed};
ghost use Rattle.model.specs.declared.Step.TheVariants.{Dilate, FloodFill, ClearBorder, ErodeBySides};
ghost use Rattle.operations.specs.Inner.{contour_step, Prepared, Operated};
ghost use Rattle.operations.specs.Inner.{Gatherable, Gathered, Peelable, Peeled};

use crate::{FromContour, Layer};
use engine::Rule;
use engine::inner::{image, queue, spread};
use model::Report;
use neighbours::{MARK, NO_SIDE, Position};

// ---- what the operations are made of

// The 4-neighbours of the positions in the queue from `from` up to `to` that hold a value, each once, at
// the queue's front: they are marked in the image while they are gathered, and put back. Returns how many.
fn gather(
    width: usize,
    height: usize,
    image: &mut [u8],
    queue: &mut [Position],
    from: usize,
    to: usize,
    value: u8,
) -> usize
    requires { Gatherable width height image.old queue.old from to value }
    ensures gathered { Gathered width height image.old (slice from to queue.old) value queue.old
        queue.new result }
    ensures kept { image.new ≡ image.old }
{
    let rule = Rule::changing(width, height, 4, value, MARK);
    let end = spread::spread(rule, b"", image, queue, from, to);
    image::paint(image, queue, to, end, value);
    queue::move_front(queue, to, end)
}

// The first layer of an erosion, from the contour in hand. By 4 it is the contour itself, by 8 the object
// pixels next to the background next to the contour; and the object pixels along the sides that are not
// named too.
fn first_layer(rule: Rule, image: &mut [u8], queue: &mut [Position], len: usize, sides: u8) -> Layer
    requires { Peelable rule image.old queue.old len }
    ensures { Peeled rule sides image.old queue.old image.new queue.new result }
{
    if rule.connectivity == 4 {
        image::paint(image, queue, 0, len, 0);
        let end = image::visit_exposed(rule, image, queue, len, sides);
        return Layer { from: 0, to: end };
    }
    let start = gather(rule.width, rule.height, image, queue, 0, len, 0);
    let beside = spread::spread(rule, b"", image, queue, 0, start);
    let end = image::visit_exposed(rule, image, queue, beside, sides);
    Layer {
        from: start,
        to: end,
    }
}

// Iterations used: none where the first changed nothing, and else that one and the further ones.
pub fn count_used(first: usize, further: usize) -> u32
    requires { further ≤ max_pixels }
    ensures { result ≡ cond (eqb first 0) 0 (further + 1) }
{
    if first == 0 {
        return 0;
    }
    (further + 1) as u32
}

// The report of an operation that changes nothing; the contour in hand stays.
pub fn unchanged(queue: &mut [Position], len: usize) -> Report
    requires len_in_bounds { len ≤ length queue.old }
    requires len_le_max_pixels { len ≤ max_pixels }
    ensures report { result ≡ record { changed = 0; used = 0; contour_len = len } }
    ensures zeros { queue.new ≡ take len queue.old ++ replicate (length queue.old - len) 0 }
{
    queue::clear_behind(queue, len);
    Report {
        changed: 0,
        used: 0,
        contour_len: len as u32,
    }
}

// ---- the operations

// Dilation from the contour, layer by layer. The new contour is what of the last layer still has a
// background neighbour.
fn dilate(
    width: usize,
    height: usize,
    image: &mut [u8],
    queue: &mut [Position],
    len: usize,
    connectivity: u8,
    iterations: u16,
) -> Report
    requires { Prepared width height (Dilate connectivity iterations) image.old queue.old len }
    ensures { Operated width height (Dilate connectivity iterations) [] image.old queue.old result
        image.new queue.new }
{
    let rule = Rule::changing(width, height, connectivity, 0, 1);
    let grown = spread::layers(rule, b"", image, queue, 0, len, usize::from(iterations));
    let kept = queue::keep_contour(width, height, image, queue, grown.from, grown.to);
    queue::clear_behind(queue, kept);
    Report {
        changed: (grown.to - len) as u32,
        used: grown.used as u32,
        contour_len: kept as u32,
    }
}

// Erosion from the contour, layer by layer. The sides matter in the first layer alone: the others spread from
// it inside the crop. The new contour is the object pixels next to the last layer.
fn erode(
    width: usize,
    height: usize,
    image: &mut [u8],
    queue: &mut [Position],
    len: usize,
    connectivity: u8,
    sides: u8,
    iterations: u16,
) -> Report
    requires { Prepared width height (ErodeBySides connectivity sides iterations) image.old queue.old len }
    ensures { Operated width height (ErodeBySides connectivity sides iterations) []
        image.old queue.old result image.new queue.new }
{
    if iterations == 0 {
        return unchanged(queue, len);
    }
    let rule = Rule::changing(width, height, connectivity, 1, 0);
    let first = first_layer(rule, image, queue, len, sides);
    let grown = spread::layers(
        rule,
        b"",
        image,
        queue,
        first.from,
        first.to,
        usize::from(iterations) - 1,
    );
    let kept = gather(width, height, image, queue, grown.from, grown.to, 1);
    queue::clear_behind(queue, kept);
    Report {
        changed: (grown.to - first.from) as u32,
        used: count_used(first.to - first.from, grown.used),
        contour_len: kept as u32,
    }
}

// Flood fill from the pixel in column `x` and row `y`, behind the contour in the queue. Filled pixels have
// no background neighbour then, so the new contour is what is left of the old one.
fn flood_fill(
    width: usize,
    height: usize,
    image: &mut [u8],
    queue: &mut [Position],
    len: usize,
    connectivity: u8,
    x: u16,
    y: u16,
) -> Report
    requires { Prepared width height (FloodFill connectivity x y) image.old queue.old len }
    ensures { Operated width height (FloodFill connectivity x y) [] image.old queue.old result
        image.new queue.new }
{
    let rule = Rule::changing(width, height, connectivity, 0, 1);
    let at = usize::from(y) * width + usize::from(x);
    let end = spread::visit(rule, b"", image, queue, len, Some(at));
    let grown = spread::layers(rule, b"", image, queue, len, end, width * height);
    let kept = queue::keep_contour(width, height, image, queue, 0, len);
    queue::clear_behind(queue, kept);
    Report {
        changed: (grown.to - len) as u32,
        used: count_used(grown.to - len, 0),
        contour_len: kept as u32,
    }
}

// Clear border: the object pixels on the border go, and then what is connected to them. With no side named, all of the
// border is visited. No contour needs to be in hand, and none is handed on. Returns how many pixels went.
pub fn clear_border(
    width: usize,
    height: usize,
    image: &mut [u8],
    queue: &mut [Position],
    connectivity: u8,
) -> usize
    requires ready { Ready width height image.old queue.old }
    requires connectivity_value { is_connectivity connectivity ≡ true }
    ensures pictured { image.new ≡ apply width height (ClearBorder connectivity) [] image.old }
    ensures counted { result ≡ changed width height image.old image.new }
{
    let rule = Rule::changing(width, height, connectivity, 1, 0);
    let end = image::visit_exposed(rule, image, queue, 0, NO_SIDE);
    let grown = spread::layers(rule, b"", image, queue, 0, end, width * height);
    grown.to
}

// ---- any that goes from a contour

// What goes from the contour in hand.
pub fn run_from_contour(
    width: usize,
    height: usize,
    what: FromContour,
    image: &mut [u8],
    queue: &mut [Position],
    len: usize,
) -> Report
    requires { Prepared width height (contour_step what) image.old queue.old len }
    ensures { Operated width height (contour_step what) [] image.old queue.old result
        image.new queue.new }
{
    match what {
        FromContour::Erode {
            connectivity: c,
            sides,
            iterations: n,
        } => erode(width, height, image, queue, len, c, sides, n),
        FromContour::Dilate {
            connectivity: c,
            iterations: n,
        } => dilate(width, height, image, queue, len, c, n),
        FromContour::FloodFill {
            connectivity: c,
            x,
            y,
        } => flood_fill(width, height, image, queue, len, c, x, y),
    }
}
