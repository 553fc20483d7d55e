// Packed rows at the front of a lent buffer that has room for their frame, beside another with room for it. While a
// run goes on, its levels stand where the rows stood, so that no third buffer is needed.
ghost use Rattle.std.specs.Prelude.{◌≡◌, true, ◌↔◌, List, [], ℕ, ◌*◌, ◌≤◌, eqb, length, get_or, take};
ghost use Rattle.lists.specs.Lists.{select, bit, occurrences};
ghost use Rattle.neighbours.specs.Limits.{max_pixels};
ghost use Rattle.neighbours.specs.Crop.{ValidSize, Extended, moved, Sized, Binary};
ghost use Rattle.neighbours.specs.Grid.{all_sides, positions};
ghost use Rattle.neighbours.specs.Contour.{on_contour, contour};
ghost use Rattle.neighbours.specs.BlankRows.{blank_row_count};
ghost use Rattle.packing.specs.Rows.{Packable};
ghost use Rattle.model.specs.Words.{row_words, words_length, packed_words, unpacked_words};
ghost use Rattle.words.specs.Frame.{frame_room, small_room, FrameOf, Clean, Framed, Ran, step_of, Operated};
ghost use Rattle.words.specs.Positions.{WordsOf};
ghost use Rattle.words.specs.Room.{front_rows, InRoom, HeldRows};
ghost use Rattle.words.specs.Scan.{Placeable};

use crate::inner::run::Run;
use crate::inner::{area, contour, positions, scan};
use crate::{Found, Frame, SMALL_ROOM};
use model::WordsReport;
use neighbours::{ALL_SIDES, NO_SIDE, Position};

// Whether the frame of a crop fits in a small room.
pub fn is_small(width: usize, height: usize) -> bool
    requires { ValidSize width height }
    ensures { result ≡ true → frame_room (row_words width) height ≤ small_room }
{
    (packing::inner::words::row_words(width) + 2) * (height + 2) <= SMALL_ROOM
}

// The words of a crop's packed rows.
pub fn words_length(width: usize, height: usize) -> usize
    requires { ValidSize width height }
    ensures { result ≡ words_length width height }
{
    packing::inner::words::row_words(width) * height
}

// Packs an image into the front of a buffer.
pub fn pack(width: usize, height: usize, image: &[u8], rows: &mut [u64])
    requires packable { Packable width height image.now }
    requires height_in_bounds { words_length width height ≤ length rows.old }
    ensures { front_rows width height rows.new ≡ packed_words width height image.now }
{
    let n = words_length(width, height);
    packing::inner::words::pack_words(width, height, image, &mut rows[..n]);
}

// Unpacks the rows at the front of a buffer into an image.
pub fn unpack(width: usize, height: usize, rows: &[u64], image: &mut [u8])
    requires sized { Sized width height image.old }
    requires height_in_bounds { words_length width height ≤ length rows.now }
    ensures { image.new ≡ unpacked_words width height (front_rows width height rows.now) }
{
    let n = words_length(width, height);
    packing::inner::words::unpack_words(width, height, &rows[..n], image);
}

// The object pixels of the rows at the front of a buffer.
pub fn area(width: usize, height: usize, rows: &[u64]) -> usize
    requires clean { Clean width height (front_rows width height rows.now) }
    requires height_in_bounds { words_length width height ≤ length rows.now }
    ensures { result ≡ occurrences 1 (unpacked_words width height (front_rows width height rows.now)) }
{
    let n = words_length(width, height);
    area::area(width, height, &rows[..n])
}

// A run over the rows. How many iterations changed anything.
fn run_rows(width: usize, height: usize, rows: &mut [u64], entries: &mut [u64], run: Run) -> usize
    requires { InRoom width height rows.old entries.old }
    ensures { Ran width height run.connectivity run.sides (bit run.turn) run.iterations
        (front_rows width height rows.old) (front_rows width height rows.new) result }
{
    let frame = super::frame_of(width, height, run.connectivity, run.sides, run.turn);
    let n = words_length(width, height);
    super::load(frame, &rows[..n], entries);
    let used = super::iterate(frame, entries, rows, usize::from(run.iterations));
    super::store(frame, entries, &mut rows[..n]);
    used
}

// An erosion of the rows by sides, or a dilation: the function `operate` on rows that stand here.
pub fn operate(
    width: usize,
    height: usize,
    rows: &mut [u64],
    entries: &mut [u64],
    run: Run,
) -> WordsReport
    requires { HeldRows width height rows.old entries.old }
    ensures { Operated width height (step_of run.connectivity run.sides run.turn run.iterations) []
        (front_rows width height rows.old) (front_rows width height rows.new) result }
{
    let before = area(width, height, rows);
    let used = run_rows(width, height, rows, entries, run);
    let after = area(width, height, rows);
    super::report(before, used, after)
}

// The numbers of the frame that a contour is taken from: by 4, with object beyond every side.
fn contour_frame(width: usize, height: usize) -> Frame
    requires { ValidSize width height }
    ensures { FrameOf width height 4 all_sides 0 result }
{
    super::frame_of(width, height, 4, ALL_SIDES, false)
}

// Makes the words of the contour of the rows, where the rows stood. The frame of the rows stays.
fn make_contour(width: usize, height: usize, rows: &mut [u64], entries: &mut [u64])
    requires { HeldRows width height rows.old entries.old }
    ensures contour { WordsOf width height
        (on_contour width height (unpacked_words width height (front_rows width height rows.old)))
        rows.new }
    ensures framed { Framed width height all_sides (unpacked_words width height (front_rows width height rows.old))
        entries.new }
{
    let frame = contour_frame(width, height);
    let n = words_length(width, height);
    super::load(frame, &rows[..n], entries);
    contour::contour_words(frame, entries, rows);
}

// Writes the contour of the rows, moved on by `base`, row by row to the queue's front. What stands behind may be
// anything. The rows are gone then. Tells how many positions there are, and how many rows have no object pixel.
pub fn list_contour(
    width: usize,
    height: usize,
    rows: &mut [u64],
    entries: &mut [u64],
    base: usize,
    queue: &mut [Position],
) -> Found
    requires held_rows { HeldRows width height rows.old entries.old }
    requires placeable { Placeable width height base queue.old }
    ensures listed { Extended queue.old 0
        (moved base (contour width height
        (unpacked_words width height (front_rows width height rows.old))))
        queue.new result.len }
    ensures counted { result.blank
        ≡ blank_row_count width height (unpacked_words width height (front_rows width height rows.old)) }
{
    make_contour(width, height, rows, entries);
    let frame = contour_frame(width, height);
    scan::scan_rows(width, height, frame, entries, rows, base, queue)
}

// Writes the rows of a frame with object beyond every side to the front of a buffer.
fn put_rows(width: usize, height: usize, rows: &mut [u64], entries: &[u64])
    requires { InRoom width height rows.old entries.now }
    ensures { ((image : List ℕ) → Binary width height image →
        Framed width height all_sides image entries.now →
        front_rows width height rows.new ≡ packed_words width height image) }
{
    let frame = contour_frame(width, height);
    let len = words_length(width, height);
    super::store(frame, entries, &mut rows[..len]);
}

// Whether the `n` entries at the queue's front are the contour of the rows, row by row. The rows stay.
pub fn is_contour_listed(
    width: usize,
    height: usize,
    rows: &mut [u64],
    entries: &mut [u64],
    queue: &[Position],
    n: usize,
) -> bool
    requires held_rows { HeldRows width height rows.old entries.old }
    requires n_in_bounds { n ≤ length queue.now }
    ensures answer { ((result ≡ true)
        ↔ (take n queue.now
        ≡ contour width height (unpacked_words width height (front_rows width height rows.old)))) }
    ensures kept { front_rows width height rows.new
        ≡ packed_words width height (unpacked_words width height (front_rows width height rows.old)) }
{
    make_contour(width, height, rows, entries);
    let is_listed = positions::is_listed(width, height, rows, queue, n);
    put_rows(width, height, rows, entries);
    is_listed
}

// The length of the contour of the rows, which stay.
pub fn count_contour(width: usize, height: usize, rows: &mut [u64], entries: &mut [u64]) -> usize
    requires { HeldRows width height rows.old entries.old }
    ensures count { result ≡ length (contour width height
        (unpacked_words width height (front_rows width height rows.old))) }
    ensures most { result ≤ max_pixels }
    ensures kept { front_rows width height rows.new
        ≡ packed_words width height (unpacked_words width height (front_rows width height rows.old)) }
{
    make_contour(width, height, rows, entries);
    let len = positions::count_positions(width, height, rows);
    put_rows(width, height, rows, entries);
    len
}

// Writes the positions of the object pixels of the rows, row by row, to the queue's front. What stands behind may be
// anything. Returns how many positions there are.
pub fn list_pixels(
    width: usize,
    height: usize,
    rows: &[u64],
    entries: &mut [u64],
    queue: &mut [Position],
) -> usize
    requires held_rows { HeldRows width height rows.now entries.old }
    requires height_in_bounds { width * height ≤ length queue.old }
    ensures { Extended queue.old 0
        (select (λ i. eqb (get_or (unpacked_words width height (front_rows width height rows.now)) i 0) 1)
        (positions width height))
        queue.new result }
{
    // Background beyond the right side leaves the bits behind a row's end 0.
    let frame = super::frame_of(width, height, 4, NO_SIDE, false);
    let n = words_length(width, height);
    super::load(frame, &rows[..n], entries);
    positions::list_positions(width, height, entries, queue)
}
