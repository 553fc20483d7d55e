// Functions that require what the entry points have tested: how a step goes and which engine does it; one call, and one
// step of a list.
pub mod on_words;

ghost use Rattle.std.specs.Prelude.{◌≡◌, ◌↔◌, true, [], ◌≤◌, length};
ghost use Rattle.std.proofs.Math.Option.{none};
ghost use Rattle.neighbours.specs.Crop.{ValidSize};
ghost use Rattle.neighbours.specs.Grid.{is_connectivity};
ghost use Rattle.packing.specs.Rows.{Packable};
ghost use Rattle.model.specs.Refusals.{first_refusal, start_checks, is_contour};
ghost use Rattle.model.specs.Words.{row_words, words_length, packed_words, unpacked_words};
ghost use Rattle.model.specs.declared.Start.TheVariants.{Contour};
ghost use Rattle.model.specs.declared.Step.TheVariants as step;
ghost use Rattle.words.specs.Frame as frame;
ghost use Rattle.words.specs.Frame.{frame_room, max_entries};
ghost use Rattle.words.specs.Room.{front_rows};
ghost use Rattle.operations.specs.Inner.{InHand, contour_step, Operated};
ghost use Rattle.performing.specs.declared.Way.TheVariants as way;
ghost use Rattle.performing.specs.Inner.{Workable, Unchanged, words_step, way_step, way_of, idle, Chosen};
ghost use Rattle.performing.specs.Inner.{PackedFor};
ghost use Rattle.performing.specs.Inner.{Accepted, Performable, Runnable, Performed, StepReady, RowsStepped};

use crate::{Engine, OnWords, Way};
use engine::inner::contour;
use model::{Refusal, Report, Start, Step, WordsReport};
use neighbours::Position;
use operations::FromContour;
use operations::inner::{clear_border, count_used, run_from_contour, unchanged};
use packing::inner::band::band_of;
use words::inner::room;
use words::inner::run::Run;

// ---- how a step goes

// Erosions, dilations and propagations go on words. An erosion by a border value is one by the sides that it names.
#[tactic(auto, unfolding(crate::specs::Inner::way_of))]
pub fn way_of(step: Step) -> Way
    ensures { result ≡ way_of step }
{
    match step {
        Step::Erode {
            connectivity,
            border_value,
            iterations,
        } => Way::Words(OnWords::Erode {
            connectivity,
            sides: model::border_sides(border_value),
            iterations,
        }),
        Step::Dilate {
            connectivity,
            iterations,
        } => Way::Words(OnWords::Dilate {
            connectivity,
            iterations,
        }),
        Step::Propagate {
            connectivity,
            iterations,
        } => Way::Words(OnWords::Propagate {
            connectivity,
            iterations,
        }),
        Step::FloodFill { connectivity, x, y } => Way::FloodFill { connectivity, x, y },
        Step::ClearBorder { connectivity } => Way::ClearBorder { connectivity },
        Step::ErodeBySides {
            connectivity,
            sides,
            iterations,
        } => Way::Words(OnWords::Erode {
            connectivity,
            sides,
            iterations,
        }),
    }
}

// ---- which engine does it

// A contour has few positions where the crop has more pixels than this for each of them. At 128x64 an erosion by 8
// takes 3.5 microseconds on words, and by the queue engine 22 nanoseconds a position and iteration
// (docs/BENCHMARKS.md): at 64 positions, 1.4 microseconds.
const PIXELS_A_POSITION: usize = 128;

// Whether a contour has so few positions that an operation from it is faster by the queue engine, whose time goes with
// the pixels that change, than on words, whose time goes with the crop.
fn few_positions(width: usize, height: usize, len: usize) -> bool
    requires { ValidSize width height }
{
    len < width * height / PIXELS_A_POSITION
}

// What the queue engine does of what goes on words. A propagation goes on words first.
fn words_from_contour(how: OnWords, len: usize) -> Engine
    ensures { Chosen (way.Words how) (Contour len) result }
{
    match how {
        OnWords::Erode {
            connectivity,
            sides,
            iterations,
        } => Engine::Queue {
            what: FromContour::Erode {
                connectivity,
                sides,
                iterations,
            },
            len,
        },
        OnWords::Dilate {
            connectivity,
            iterations,
        } => Engine::Queue {
            what: FromContour::Dilate {
                connectivity,
                iterations,
            },
            len,
        },
        OnWords::Propagate { .. } => Engine::Words,
    }
}

// What the queue engine does from a contour alone. Clear border ends with a scan, which goes on words.
fn from_contour(way: Way, len: usize) -> Engine
    ensures { Chosen way (Contour len) result }
{
    match way {
        Way::Words(how) => words_from_contour(how, len),
        Way::FloodFill { connectivity, x, y } => Engine::Queue {
            what: FromContour::FloodFill { connectivity, x, y },
            len,
        },
        Way::ClearBorder { .. } => Engine::Words,
    }
}

// The engine that is faster for an operation with this start. Both give the same. A scan goes on words, so that its
// contour does.
#[tactic(auto, unfolding(crate::specs::Inner::Chosen))]
pub fn choose_engine(width: usize, height: usize, way: Way, start: Start) -> Engine
    requires { ValidSize width height }
    ensures { Chosen way start result }
{
    match start {
        Start::Contour(len) if few_positions(width, height, len) => from_contour(way, len),
        _ => Engine::Words,
    }
}

// ---- the start

// Whether the `len` positions at the queue's front are exactly the contour, in some order. One that stands row by row,
// as operations on words leave it, is compared; any other is marked in the image. Where it is right, the image is
// packed at the front of `rows`.
fn is_contour(
    width: usize,
    height: usize,
    image: &mut [u8],
    queue: &[Position],
    len: usize,
    rows: &mut [u64],
    entries: &mut [u64],
) -> bool
    requires { Workable width height image.old queue.now rows.old entries.old }
    ensures answer { result ≡ is_contour width height image.old queue.now len }
    ensures kept { image.new ≡ image.old }
    ensures packed { (result ≡ true →
        front_rows width height rows.new ≡ packed_words width height image.old) }
{
    if queue.len() < len {
        return false;
    }
    if on_words::is_scanned(width, height, image, queue, len, rows, entries) {
        return true;
    }
    contour::is_contour(width, height, image, queue, len)
}

// Whether an operation may start so: by a scan, or from a contour that is exactly the image's.
fn right_start(
    width: usize,
    height: usize,
    image: &mut [u8],
    queue: &[Position],
    start: Start,
    rows: &mut [u64],
    entries: &mut [u64],
) -> bool
    requires { Workable width height image.old queue.now rows.old entries.old }
    ensures answer { ((result ≡ true)
        ↔ (first_refusal (start_checks width height image.old queue.now start) ≡ none)) }
    ensures kept { image.new ≡ image.old }
    ensures packed { (result ≡ true → PackedFor width height image.old start rows.new) }
{
    match start {
        Start::Scan => true,
        Start::Contour(len) => is_contour(width, height, image, queue, len, rows, entries),
    }
}

// Packs the image, unless the check of a contour handed in has.
fn hold_rows(width: usize, height: usize, image: &[u8], start: Start, rows: &mut [u64])
    requires packable { Packable width height image.now }
    requires height_in_bounds { words_length width height ≤ length rows.old }
    requires packed_for { PackedFor width height image.now start rows.old }
    ensures { front_rows width height rows.new ≡ packed_words width height image.now }
{
    if let Start::Scan = start {
        room::pack(width, height, image, rows);
    }
}

// Takes the contour in hand: finds it by a scan, or takes the one handed in, which is right. Returns how many positions
// it has.
fn take_contour(
    width: usize,
    height: usize,
    image: &[u8],
    queue: &mut [Position],
    start: Start,
    rows: &mut [u64],
    entries: &mut [u64],
) -> usize
    requires workable { Workable width height image.now queue.old rows.old entries.old }
    requires start_value { first_refusal (start_checks width height image.now queue.old start) ≡ none }
    ensures size { length queue.new ≡ length queue.old }
    ensures hand { InHand width height image.now queue.new result }
{
    match start {
        Start::Scan => on_words::scan(width, height, image, queue, rows, entries).len,
        Start::Contour(len) => len,
    }
}

// ---- on packed rows

// What goes on words, from the rows of an image to those of the image after it. Image and queue are room for the queue
// engine.
fn operate_rows(
    width: usize,
    height: usize,
    how: OnWords,
    image: &mut [u8],
    mask: &[u8],
    queue: &mut [Position],
    rows: &mut [u64],
    entries: &mut [u64],
) -> WordsReport
    requires { StepReady width height (words_step how) image.old mask.now queue.old rows.old entries.old }
    ensures { frame.Operated width height (words_step how) mask.now (front_rows width height rows.old)
        (front_rows width height rows.new) result }
{
    let w = width;
    let h = height;
    match how {
        OnWords::Erode {
            connectivity: c,
            sides,
            iterations: n,
        } => {
            let run = Run::erosion(c, sides, n);
            room::operate(w, h, rows, entries, run)
        }
        OnWords::Dilate {
            connectivity: c,
            iterations: n,
        } => {
            let run = Run::dilation(c, n);
            room::operate(w, h, rows, entries, run)
        }
        OnWords::Propagate {
            connectivity: c,
            iterations: n,
        } => propagation::inner::propagate(w, h, image, mask, queue, rows, entries, c, n),
    }
}

// The numbers of what went on words, with the length of the contour.
fn report(done: WordsReport, contour_len: u32) -> Report
    ensures { result ≡ record { changed = done.changed; used = done.used; contour_len = contour_len } }
{
    Report {
        changed: done.changed,
        used: done.used,
        contour_len,
    }
}

// ---- one call

// Whether no iteration is asked for, so that nothing changes.
#[tactic(auto, unfolding(crate::specs::Inner::idle))]
fn is_idle(how: OnWords) -> bool
    ensures { result ≡ idle how }
{
    match how {
        OnWords::Erode { iterations, .. }
        | OnWords::Dilate { iterations, .. }
        | OnWords::Propagate { iterations, .. } => iterations == 0,
    }
}

// An operation that changes nothing: it hands on the contour that it finds, or the one handed in, which is right.
fn run_idle(
    width: usize,
    height: usize,
    image: &[u8],
    queue: &mut [Position],
    start: Start,
    rows: &mut [u64],
    entries: &mut [u64],
) -> Report
    requires workable { Workable width height image.now queue.old rows.old entries.old }
    requires start_value { first_refusal (start_checks width height image.now queue.old start) ≡ none }
    ensures { Unchanged width height image.now queue.old result queue.new }
{
    let len = take_contour(width, height, image, queue, start, rows, entries);
    unchanged(queue, len)
}

// An operation on words.
fn run_words(
    width: usize,
    height: usize,
    how: OnWords,
    image: &mut [u8],
    mask: &[u8],
    queue: &mut [Position],
    start: Start,
    rows: &mut [u64],
    entries: &mut [u64],
) -> Report
    requires { Runnable width height (words_step how) image.old mask.now queue.old start rows.old entries.old }
    ensures { Operated width height (words_step how) mask.now image.old queue.old result
        image.new queue.new }
{
    if is_idle(how) {
        return run_idle(width, height, image, queue, start, rows, entries);
    }
    hold_rows(width, height, image, start, rows);
    let done = operate_rows(width, height, how, image, mask, queue, rows, entries);
    let contour_len = on_words::hand_on(width, height, image, queue, rows, entries);
    report(done, contour_len)
}

// A flood fill, from the contour.
fn run_fill(
    width: usize,
    height: usize,
    image: &mut [u8],
    queue: &mut [Position],
    start: Start,
    rows: &mut [u64],
    entries: &mut [u64],
    connectivity: u8,
    x: u16,
    y: u16,
) -> Report
    requires { Runnable width height (step.FloodFill connectivity x y) image.old [] queue.old start rows.old
        entries.old }
    ensures { Operated width height (step.FloodFill connectivity x y) [] image.old queue.old result
        image.new queue.new }
{
    let len = take_contour(width, height, image, queue, start, rows, entries);
    let what = FromContour::FloodFill { connectivity, x, y };
    run_from_contour(width, height, what, image, queue, len)
}

// Clear border, and the scan that its end is.
fn run_border(
    width: usize,
    height: usize,
    image: &mut [u8],
    queue: &mut [Position],
    rows: &mut [u64],
    entries: &mut [u64],
    connectivity: u8,
) -> Report
    requires workable { Workable width height image.old queue.old rows.old entries.old }
    requires connectivity_value { is_connectivity connectivity ≡ true }
    ensures { Operated width height (step.ClearBorder connectivity) [] image.old queue.old result
        image.new queue.new }
{
    let cleared = clear_border(width, height, image, queue, connectivity);
    let band = band_of(width, height, image);
    let scan = on_words::scan_only(width, height, image, band, queue, rows, entries);
    Report {
        changed: cleared as u32,
        used: count_used(cleared, 0),
        contour_len: scan.contour_len,
    }
}

// One operation, on words where it can go so.
fn run(
    width: usize,
    height: usize,
    way: Way,
    image: &mut [u8],
    mask: &[u8],
    queue: &mut [Position],
    start: Start,
    rows: &mut [u64],
    entries: &mut [u64],
) -> Report
    requires { Runnable width height (way_step way) image.old mask.now queue.old start rows.old entries.old }
    ensures { Operated width height (way_step way) mask.now image.old queue.old result
        image.new queue.new }
{
    match way {
        Way::Words(how) => run_words(width, height, how, image, mask, queue, start, rows, entries),
        Way::FloodFill { connectivity, x, y } => {
            run_fill(
                width,
                height,
                image,
                queue,
                start,
                rows,
                entries,
                connectivity,
                x,
                y,
            )
        }
        Way::ClearBorder { connectivity } => {
            run_border(width, height, image, queue, rows, entries, connectivity)
        }
    }
}

// Does what the queue engine does from a contour of `len` positions, unless that is not the image's. It needs no room
// for words.
pub fn perform_by_queue(
    width: usize,
    height: usize,
    what: FromContour,
    image: &mut [u8],
    queue: &mut [Position],
    len: usize,
) -> Result<Report, Refusal>
    requires { Accepted width height (contour_step what) image.old [] queue.old }
    ensures { Performed width height (contour_step what) [] image.old queue.old (Contour len) result
        image.new queue.new }
{
    if !contour::is_contour(width, height, image, queue, len) {
        return Err(Refusal::WrongContour);
    }
    Ok(run_from_contour(width, height, what, image, queue, len))
}

// Does an operation, unless the contour handed in is not the image's.
pub fn perform(
    width: usize,
    height: usize,
    way: Way,
    image: &mut [u8],
    mask: &[u8],
    queue: &mut [Position],
    start: Start,
    rows: &mut [u64],
    entries: &mut [u64],
) -> Result<Report, Refusal>
    requires { Performable width height (way_step way) image.old mask.now queue.old rows.old entries.old }
    ensures { Performed width height (way_step way) mask.now image.old queue.old start result
        image.new queue.new }
{
    if !right_start(width, height, image, queue, start, rows, entries) {
        return Err(Refusal::WrongContour);
    }
    Ok(run(width, height, way, image, mask, queue, start, rows, entries))
}

// The same in a room of `N` entries for the words and as many for their frame. Not inlined: a caller would hold
// the rooms of both sizes in one stack frame, the arrays of the small one far apart.
#[inline(never)]
pub fn perform_with<const N: usize>(
    width: usize,
    height: usize,
    way: Way,
    image: &mut [u8],
    mask: &[u8],
    queue: &mut [Position],
    start: Start,
) -> Result<Report, Refusal>
    requires accepted { Accepted width height (way_step way) image.old mask.now queue.old }
    requires room { frame_room (row_words width) height ≤ N }
    requires few { N ≤ max_entries }
    ensures { Performed width height (way_step way) mask.now image.old queue.old start result
        image.new queue.new }
{
    let mut rows = [0u64; N];
    let mut entries = [0u64; N];
    perform(
        width,
        height,
        way,
        image,
        mask,
        queue,
        start,
        &mut rows,
        &mut entries,
    )
}

// ---- one step of a list

// A step on words. The contour is only counted.
fn words_step(
    width: usize,
    height: usize,
    how: OnWords,
    image: &mut [u8],
    mask: &[u8],
    queue: &mut [Position],
    rows: &mut [u64],
    entries: &mut [u64],
) -> Report
    requires { StepReady width height (words_step how) image.old mask.now queue.old rows.old entries.old }
    ensures { RowsStepped width height (words_step how) mask.now
        (unpacked_words width height (front_rows width height rows.old)) result rows.new }
{
    let done = operate_rows(width, height, how, image, mask, queue, rows, entries);
    let len = room::count_contour(width, height, rows, entries);
    report(done, len as u32)
}

// A flood fill by the queue engine, on the image and the queue.
fn fill_step(
    width: usize,
    height: usize,
    image: &mut [u8],
    queue: &mut [Position],
    rows: &mut [u64],
    entries: &mut [u64],
    connectivity: u8,
    x: u16,
    y: u16,
) -> Report
    requires { StepReady width height (step.FloodFill connectivity x y) image.old [] queue.old rows.old
        entries.old }
    ensures { RowsStepped width height (step.FloodFill connectivity x y) []
        (unpacked_words width height (front_rows width height rows.old)) result rows.new }
{
    room::unpack(width, height, rows, image);
    let found = room::list_contour(width, height, rows, entries, 0, queue);
    let what = FromContour::FloodFill { connectivity, x, y };
    let report = run_from_contour(width, height, what, image, queue, found.len);
    room::pack(width, height, image, rows);
    report
}

// Clear border by the queue engine, on the image and the queue. The contour is only counted.
fn border_step(
    width: usize,
    height: usize,
    image: &mut [u8],
    queue: &mut [Position],
    rows: &mut [u64],
    entries: &mut [u64],
    connectivity: u8,
) -> Report
    requires { StepReady width height (step.ClearBorder connectivity) image.old [] queue.old rows.old
        entries.old }
    ensures { RowsStepped width height (step.ClearBorder connectivity) []
        (unpacked_words width height (front_rows width height rows.old)) result rows.new }
{
    room::unpack(width, height, rows, image);
    let cleared = clear_border(width, height, image, queue, connectivity);
    room::pack(width, height, image, rows);
    let contour_len = room::count_contour(width, height, rows, entries);
    Report {
        changed: cleared as u32,
        used: count_used(cleared, 0),
        contour_len: contour_len as u32,
    }
}

// One step of a list, from the packed rows of an image to those of the image after it. Image and queue are room for the
// queue engine.
pub fn step_rows(
    width: usize,
    height: usize,
    step: Step,
    image: &mut [u8],
    mask: &[u8],
    queue: &mut [Position],
    rows: &mut [u64],
    entries: &mut [u64],
) -> Report
    requires { StepReady width height step image.old mask.now queue.old rows.old entries.old }
    ensures { RowsStepped width height step mask.now
        (unpacked_words width height (front_rows width height rows.old)) result rows.new }
{
    match way_of(step) {
        Way::Words(how) => words_step(width, height, how, image, mask, queue, rows, entries),
        Way::FloodFill { connectivity, x, y } => {
            fill_step(
                width,
                height,
                image,
                queue,
                rows,
                entries,
                connectivity,
                x,
                y,
            )
        }
        Way::ClearBorder { connectivity } => {
            border_step(width, height, image, queue, rows, entries, connectivity)
        }
    }
}
