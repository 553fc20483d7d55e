// The entry points for C: `include/duhzarek.h` declares them and says what each does. A slice is a pointer and
// a length there, an array a pointer.
//
// Every function may be called with any numbers and any contents of the buffers. It promises what the entry
// point beneath promises, with 01's refusal number as the result, 0 for none, and the counts in a lent array;
// `specs/Numbers.antt` says how these numbers are read.
#![tactic(auto)]

ghost use Rattle.std.specs.Prelude.{◌≡◌, [], ◌≤◌, length};
ghost use Rattle.neighbours.specs.Crop.{Appended};
ghost use Rattle.neighbours.specs.Limits.{max_pixels};
ghost use Rattle.model.specs.Queue.{front};
ghost use Rattle.model.specs.Depth.{depth};
ghost use Rattle.model.specs.Calls.{operate, scan, label, scanned, Meets};
ghost use Rattle.model.specs.Widening.{widen_map};
ghost use Rattle.model.specs.Words.{operate_words, pack_words, unpack_words};
ghost use Rattle.model.specs.Codec.{read_job, unpack_job};
ghost use Rattle.model.specs.Run.{run_job};
ghost use Rattle.model.specs.Listing.{lane_listing};
ghost use Rattle.model.specs.declared.Step.TheVariants.{Erode, Dilate, Propagate, FloodFill, ClearBorder};
ghost use Rattle.model.specs.declared.Step.TheVariants.{ErodeBySides};
ghost use Rattle.exports.specs.Numbers.{start_of, counts_reply, label_counts_reply, counts_answer, job_number};
ghost use Rattle.exports.specs.Numbers.{head_numbers};
ghost use Rattle.exports.specs.Numbers.{records_read, write_records, run_records, MeetsNumbers};

use listing::LISTING_ROOM;
use model::{Label, MAX_STEPS, Step};
use neighbours::Position;

pub mod inner;

// The number that asks for a scan where an operation starts: it is the length of no queue.
pub const SCAN: usize = 18446744073709551615;

// The numbers of a run's reports: three for each step that a job can have.
pub const REPORT_NUMBERS: usize = 3 * MAX_STEPS;

// ---- operations

// Erosion.
#[unsafe(no_mangle)]
pub extern "C" fn duhzarek_erode(
    width: usize,
    height: usize,
    image: &mut [u8],
    queue: &mut [Position],
    start: usize,
    connectivity: u8,
    border_value: u8,
    iterations: u16,
    counts: &mut [u32; 3],
) -> u8
    ensures { Meets width height image.old queue.old
        (operate (Erode connectivity border_value iterations) [] (start_of start))
        (counts_reply result counts.new) image.new queue.new }
{
    let step = Step::Erode {
        connectivity,
        border_value,
        iterations,
    };
    inner::operate(width, height, step, image, b"", queue, start, counts)
}

// Erosion by sides (02, Point 6).
#[unsafe(no_mangle)]
pub extern "C" fn duhzarek_erode_by_sides(
    width: usize,
    height: usize,
    image: &mut [u8],
    queue: &mut [Position],
    start: usize,
    connectivity: u8,
    sides: u8,
    iterations: u16,
    counts: &mut [u32; 3],
) -> u8
    ensures { Meets width height image.old queue.old
        (operate (ErodeBySides connectivity sides iterations) [] (start_of start))
        (counts_reply result counts.new) image.new queue.new }
{
    let step = Step::ErodeBySides {
        connectivity,
        sides,
        iterations,
    };
    inner::operate(width, height, step, image, b"", queue, start, counts)
}

// Dilation.
#[unsafe(no_mangle)]
pub extern "C" fn duhzarek_dilate(
    width: usize,
    height: usize,
    image: &mut [u8],
    queue: &mut [Position],
    start: usize,
    connectivity: u8,
    iterations: u16,
    counts: &mut [u32; 3],
) -> u8
    ensures { Meets width height image.old queue.old
        (operate (Dilate connectivity iterations) [] (start_of start))
        (counts_reply result counts.new) image.new queue.new }
{
    let step = Step::Dilate {
        connectivity,
        iterations,
    };
    inner::operate(width, height, step, image, b"", queue, start, counts)
}

// Propagation.
#[unsafe(no_mangle)]
pub extern "C" fn duhzarek_propagate(
    width: usize,
    height: usize,
    image: &mut [u8],
    queue: &mut [Position],
    start: usize,
    connectivity: u8,
    iterations: u16,
    mask: &[u8],
    counts: &mut [u32; 3],
) -> u8
    ensures { Meets width height image.old queue.old
        (operate (Propagate connectivity iterations) mask.now (start_of start))
        (counts_reply result counts.new) image.new queue.new }
{
    let step = Step::Propagate {
        connectivity,
        iterations,
    };
    inner::operate(width, height, step, image, mask, queue, start, counts)
}

// Flood fill (01: fill).
#[unsafe(no_mangle)]
pub extern "C" fn duhzarek_flood_fill(
    width: usize,
    height: usize,
    image: &mut [u8],
    queue: &mut [Position],
    start: usize,
    connectivity: u8,
    x: u16,
    y: u16,
    counts: &mut [u32; 3],
) -> u8
    ensures { Meets width height image.old queue.old
        (operate (FloodFill connectivity x y) [] (start_of start))
        (counts_reply result counts.new) image.new queue.new }
{
    let step = Step::FloodFill { connectivity, x, y };
    inner::operate(width, height, step, image, b"", queue, start, counts)
}

// Clear border (01: drop).
#[unsafe(no_mangle)]
pub extern "C" fn duhzarek_clear_border(
    width: usize,
    height: usize,
    image: &mut [u8],
    queue: &mut [Position],
    start: usize,
    connectivity: u8,
    counts: &mut [u32; 3],
) -> u8
    ensures { Meets width height image.old queue.old
        (operate (ClearBorder connectivity) [] (start_of start))
        (counts_reply result counts.new) image.new queue.new }
{
    let step = Step::ClearBorder { connectivity };
    inner::operate(width, height, step, image, b"", queue, start, counts)
}

// Scan (01: sweep), which tells its two numbers each by itself (02, Point 3).
#[unsafe(no_mangle)]
pub extern "C" fn duhzarek_scan_image(
    width: usize,
    height: usize,
    image: &[u8],
    queue: &mut [Position],
    contour_len: &mut u32,
    blank_rows: &mut u32,
) -> u8
    ensures { Meets width height image.now queue.old scan
        (scanned result contour_len.new blank_rows.new)
        image.now queue.new }
{
    let reply = morphology::scan_image(width, height, image, queue);
    inner::put_scan_reply(reply, contour_len, blank_rows)
}

// How long the stretch at the queue's front is that `morphology::contour` hands on; it begins where the queue
// does.
#[unsafe(no_mangle)]
pub extern "C" fn duhzarek_contour(queue: &[Position], len: usize) -> usize
    ensures { result ≡ length (front len queue.now) }
{
    let positions = morphology::contour(queue, len);
    positions.len()
}

// ---- labelling

// Labelling (01: numbering).
#[unsafe(no_mangle)]
pub extern "C" fn duhzarek_label_image(
    width: usize,
    height: usize,
    image: &[u8],
    queue: &mut [Position],
    connectivity: u8,
    components: &mut [Label],
    holes: &mut [Label],
    records: &mut [u32],
    counts: &mut [u32; 2],
) -> u8
    ensures { Meets width height image.now queue.old
        (label connectivity components.old holes.old records.old)
        (label_counts_reply result counts.new components.new holes.new records.new)
        image.now queue.new }
{
    let reply = labelling::label_image(
        width,
        height,
        image,
        queue,
        connectivity,
        components,
        holes,
        records,
    );
    inner::put_counts(reply, counts)
}

// Carries a map of byte labels over.
#[unsafe(no_mangle)]
pub extern "C" fn duhzarek_widen_map(
    width: usize,
    height: usize,
    bytes: &[u8],
    labels: &mut [Label],
) -> u8
    ensures { record { number = result; bytes = bytes.now; labels = labels.new } ≡ widen_map width height
        bytes.now labels.old }
{
    let verdict = labelling::widen_map(width, height, bytes, labels);
    inner::verdict_number(verdict)
}

// The depth of component `p`.
#[unsafe(no_mangle)]
pub extern "C" fn duhzarek_depth(records: &[u32], p: u32) -> u32
    ensures { result ≡ depth records.now p }
{
    nesting::depth(records, p)
}

// ---- packed rows

// Erosion of packed rows (02, Point 2).
#[unsafe(no_mangle)]
pub extern "C" fn duhzarek_erode_words(
    width: usize,
    height: usize,
    rows: &mut [u64],
    connectivity: u8,
    border_value: u8,
    iterations: u16,
    counts: &mut [u32; 3],
) -> u8
    ensures { counts_answer result counts.new rows.new
        ≡ operate_words width height (Erode connectivity border_value iterations) rows.old }
{
    let reply = words::erode_words(width, height, rows, connectivity, border_value, iterations);
    inner::put_counts(reply, counts)
}

// Erosion of packed rows by sides.
#[unsafe(no_mangle)]
pub extern "C" fn duhzarek_erode_words_by_sides(
    width: usize,
    height: usize,
    rows: &mut [u64],
    connectivity: u8,
    sides: u8,
    iterations: u16,
    counts: &mut [u32; 3],
) -> u8
    ensures { counts_answer result counts.new rows.new
        ≡ operate_words width height (ErodeBySides connectivity sides iterations) rows.old }
{
    let reply = words::erode_words_by_sides(width, height, rows, connectivity, sides, iterations);
    inner::put_counts(reply, counts)
}

// Dilation of packed rows.
#[unsafe(no_mangle)]
pub extern "C" fn duhzarek_dilate_words(
    width: usize,
    height: usize,
    rows: &mut [u64],
    connectivity: u8,
    iterations: u16,
    counts: &mut [u32; 3],
) -> u8
    ensures { counts_answer result counts.new rows.new
        ≡ operate_words width height (Dilate connectivity iterations) rows.old }
{
    let reply = words::dilate_words(width, height, rows, connectivity, iterations);
    inner::put_counts(reply, counts)
}

// Packs an image into rows of words.
#[unsafe(no_mangle)]
pub extern "C" fn duhzarek_pack_words(
    width: usize,
    height: usize,
    image: &[u8],
    rows: &mut [u64],
) -> u8
    ensures { record { number = result; image = image.now; words = rows.new } ≡ pack_words width height
        image.now rows.old }
{
    let verdict = words::pack_words(width, height, image, rows);
    inner::verdict_number(verdict)
}

// Unpacks rows of words into an image.
#[unsafe(no_mangle)]
pub extern "C" fn duhzarek_unpack_words(
    width: usize,
    height: usize,
    rows: &[u64],
    image: &mut [u8],
) -> u8
    ensures { record { number = result; image = image.new; words = rows.now } ≡ unpack_words width height
        image.old rows.now }
{
    let verdict = words::unpack_words(width, height, rows, image);
    inner::verdict_number(verdict)
}

// ---- jobs

// Judges a job and tells its size, its number of steps and where its packed images begin.
#[unsafe(no_mangle)]
pub extern "C" fn duhzarek_read_job(job: &[u8], head: &mut [u32; 4]) -> u8
    ensures number { result ≡ job_number (read_job max_pixels job.now) }
    ensures head { head.new ≡ head_numbers (length job.now) (read_job max_pixels job.now) }
{
    match job::read_job(job) {
        Ok(read) => {
            *head = inner::head_numbers(&read);
            0
        }
        Err(refusal) => {
            *head = [0; 4];
            u8::from(refusal)
        }
    }
}

// Judges a job and unpacks its image and its mask.
#[unsafe(no_mangle)]
pub extern "C" fn duhzarek_unpack_job(job: &[u8], image: &mut [u8], mask: &mut [u8]) -> u8
    ensures { record { number = result; image = image.new; mask = mask.new } ≡ unpack_job max_pixels
        job.now image.old mask.old }
{
    let verdict = job::unpack_job(job, image, mask);
    inner::verdict_number(verdict)
}

// Writes a job whose steps are given as step records.
#[unsafe(no_mangle)]
pub extern "C" fn duhzarek_write_job(
    width: usize,
    height: usize,
    step_count: usize,
    steps: &[u8],
    image: &[u8],
    mask: &[u8],
    job: &mut [u8],
) -> u8
    ensures { record { number = result; buffer = job.new } ≡ write_records
        (records_read width height step_count steps.now) width height image.now
        mask.now job.old }
{
    let written = inner::write_records(width, height, step_count, steps, image, mask, job);
    inner::verdict_number(written)
}

// Runs steps given as step records on an image with a mask.
#[unsafe(no_mangle)]
pub extern "C" fn duhzarek_run_steps(
    width: usize,
    height: usize,
    step_count: usize,
    steps: &[u8],
    image: &mut [u8],
    mask: &[u8],
    queue: &mut [Position],
    counts: &mut [u32; 2],
    reports: &mut [u32; REPORT_NUMBERS],
) -> u8
    ensures { MeetsNumbers
        (run_records (records_read width height step_count steps.now) width height image.old
        mask.now queue.old) result counts.new reports.new image.new
        mask.now queue.new }
{
    let reply = inner::run_records(width, height, step_count, steps, image, mask, queue);
    inner::put_run(reply, counts, reports)
}

// Runs a job.
#[unsafe(no_mangle)]
pub extern "C" fn duhzarek_run_job(
    job: &[u8],
    image: &mut [u8],
    mask: &mut [u8],
    queue: &mut [Position],
    counts: &mut [u32; 2],
    reports: &mut [u32; REPORT_NUMBERS],
) -> u8
    ensures { MeetsNumbers (run_job max_pixels job.now image.old mask.old queue.old)
        result counts.new reports.new image.new mask.new queue.new }
{
    let reply = job::run_job(job, image, mask, queue);
    inner::put_run(reply, counts, reports)
}

// What the lane program prints for a job.
#[unsafe(no_mangle)]
pub extern "C" fn duhzarek_lane_listing(job: &[u8], listing: &mut [u8; LISTING_ROOM]) -> usize
    ensures within { result ≤ length listing.new }
    ensures listing { Appended listing.old 0 (lane_listing job.now) listing.new result }
{
    listing::lane_listing(job, listing)
}
