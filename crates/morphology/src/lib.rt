// The five operations of document 01, and erosion by sides. Erosions, dilations and propagations go on words of 64
// pixels; where few pixels change, and for the others, by the contour queue of van Vliet and Verwer (1988), whose time
// goes with the pixels that change.
//
// Every entry point may be called with anything. It answers a refusal and leaves the image and the queue
// as they were, or does the operation and leaves the contour of the image at the queue's front, each
// position once in a free order, with zeros behind. `contour` hands that stretch on. `Meets`, of the crate
// `model`, says all of this of one call, and `Demand3` of a list of calls. There is a function for each operation since
// there is one for C.
#![tactic(auto)]

ghost use Rattle.std.specs.Prelude.{◌≡◌, []};
ghost use Rattle.model.specs.Queue.{front};
ghost use Rattle.model.specs.Calls.{operate, scan, operation_reply, scan_reply, Meets};
ghost use Rattle.model.specs.declared.Step.TheVariants.{Erode, Dilate, Propagate, FloodFill, ClearBorder};
ghost use Rattle.model.specs.declared.Step.TheVariants.{ErodeBySides};

use judging::refuse_if;
use model::{Refusal, Report, ScanReport, Start, Step};
use neighbours::Position;
use packing::inner::band::band_of;
use performing::inner::on_words;
use performing::{Engine, inner};
use words::inner::room;
use words::{ROOM, SMALL_ROOM};

// The first `len` positions of the queue, lent back with no copy, or none where `len` is beyond its end.
// For the length that an operation reports, they are the contour.
pub fn contour(queue: &[Position], len: usize) -> &[Position]
    ensures { result.now ≡ front len queue.now }
{
    if queue.len() < len {
        return &queue[..0];
    }
    &queue[..len]
}

// Scan (01: sweep): the contour of the image, with no operation, and how many rows have no object pixel (02, Point 3).
pub fn scan_image(
    width: usize,
    height: usize,
    image: &[u8],
    queue: &mut [Position],
) -> Result<ScanReport, Refusal>
    ensures { Meets width height image.now queue.old scan (scan_reply result) image.now
        queue.new }
{
    let len = image.len();
    judging::judge_lengths(width, height, len, len, len, queue.len())?;
    // A pixel outside the band is background, so only those of the band are judged.
    let band = band_of(width, height, image);
    refuse_if(
        judging::has_bad_pixel(&image[band.top * width..band.end * width]),
        Refusal::BadPixel,
    )?;
    let report = if room::is_small(width, height) {
        on_words::scan_with::<SMALL_ROOM>(width, height, image, band, queue)
    } else {
        on_words::scan_with::<ROOM>(width, height, image, band, queue)
    };
    Ok(report)
}

// One operation of any kind. The mask is read by those that have one (01: propagation), and is not looked at
// otherwise.
pub fn operate(
    width: usize,
    height: usize,
    step: Step,
    image: &mut [u8],
    mask: &[u8],
    queue: &mut [Position],
    start: Start,
) -> Result<Report, Refusal>
    ensures { Meets width height image.old queue.old
        (operate step mask.now start)
        (operation_reply result) image.new queue.new }
{
    judging::judge_operation(width, height, step, image, mask, queue)?;
    let way = inner::way_of(step);
    let engine = inner::choose_engine(width, height, way, start);
    if let Engine::Queue { what, len } = engine {
        return inner::perform_by_queue(width, height, what, image, queue, len);
    }
    if room::is_small(width, height) {
        return inner::perform_with::<SMALL_ROOM>(width, height, way, image, mask, queue, start);
    }
    inner::perform_with::<ROOM>(width, height, way, image, mask, queue, start)
}

// Erosion: in each iteration object pixels with a background neighbour go; outside has the border value.
pub fn erode(
    width: usize,
    height: usize,
    image: &mut [u8],
    queue: &mut [Position],
    start: Start,
    connectivity: u8,
    border_value: u8,
    iterations: u16,
) -> Result<Report, Refusal>
    ensures { Meets width height image.old queue.old
        (operate (Erode connectivity border_value iterations) [] start)
        (operation_reply result) image.new queue.new }
{
    let step = Step::Erode {
        connectivity,
        border_value,
        iterations,
    };
    operate(width, height, step, image, b"", queue, start)
}

// Erosion by sides (02, Point 6), for a crop that the frame cuts: outside is object beyond the sides that are named,
// and beyond two sides only where both are. A border value of 0 is no side, one of 1 all four.
pub fn erode_by_sides(
    width: usize,
    height: usize,
    image: &mut [u8],
    queue: &mut [Position],
    start: Start,
    connectivity: u8,
    sides: u8,
    iterations: u16,
) -> Result<Report, Refusal>
    ensures { Meets width height image.old queue.old
        (operate (ErodeBySides connectivity sides iterations) [] start)
        (operation_reply result) image.new queue.new }
{
    let step = Step::ErodeBySides {
        connectivity,
        sides,
        iterations,
    };
    operate(width, height, step, image, b"", queue, start)
}

// Dilation: in each iteration background pixels with an object neighbour become object.
pub fn dilate(
    width: usize,
    height: usize,
    image: &mut [u8],
    queue: &mut [Position],
    start: Start,
    connectivity: u8,
    iterations: u16,
) -> Result<Report, Refusal>
    ensures { Meets width height image.old queue.old
        (operate (Dilate connectivity iterations) [] start)
        (operation_reply result) image.new queue.new }
{
    let step = Step::Dilate {
        connectivity,
        iterations,
    };
    operate(width, height, step, image, b"", queue, start)
}

// Propagation: each iteration is a dilation and then an AND with the mask, so a seed outside the mask
// still spreads in the first one.
pub fn propagate(
    width: usize,
    height: usize,
    image: &mut [u8],
    queue: &mut [Position],
    start: Start,
    connectivity: u8,
    iterations: u16,
    mask: &[u8],
) -> Result<Report, Refusal>
    ensures { Meets width height image.old queue.old
        (operate (Propagate connectivity iterations) mask.now start)
        (operation_reply result) image.new queue.new }
{
    let step = Step::Propagate {
        connectivity,
        iterations,
    };
    operate(width, height, step, image, mask, queue, start)
}

// Flood fill (01: fill): if the pixel in column `x` and row `y` is background, every background pixel
// connected to it becomes object.
pub fn flood_fill(
    width: usize,
    height: usize,
    image: &mut [u8],
    queue: &mut [Position],
    start: Start,
    connectivity: u8,
    x: u16,
    y: u16,
) -> Result<Report, Refusal>
    ensures { Meets width height image.old queue.old
        (operate (FloodFill connectivity x y) [] start)
        (operation_reply result) image.new queue.new }
{
    let step = Step::FloodFill { connectivity, x, y };
    operate(width, height, step, image, b"", queue, start)
}

// Clear border (01: drop): every component with a pixel in the first or last row or column goes.
pub fn clear_border(
    width: usize,
    height: usize,
    image: &mut [u8],
    queue: &mut [Position],
    start: Start,
    connectivity: u8,
) -> Result<Report, Refusal>
    ensures { Meets width height image.old queue.old
        (operate (ClearBorder connectivity) [] start)
        (operation_reply result) image.new queue.new }
{
    let step = Step::ClearBorder { connectivity };
    operate(width, height, step, image, b"", queue, start)
}
