// Functions that require what the entry points have tested.
//
// On words the rows are turned: object and background are exchanged, and the unused bits are set, as what lies beyond
// the sides. An iteration keeps the object pixels without a background neighbour, and sets what is not in the mask. It
// goes from the last row to the first, in place, and keeps the row below as it was. Rows that are not next to one that
// the iteration before changed stay as they are, so that it leaves them out.
pub mod begin;
pub mod hand_over;
pub mod row_set;

ghost use Rattle.std.specs.Prelude.{◌≡◌, ◌↔◌, ◌+◌, ◌-◌, ◌*◌, ◌≤◌, ◌<◌, length, get_or};
ghost use Rattle.std.specs.Int.Bits.{bit_xor};
ghost use Rattle.lists.specs.Lists.{iterate};
ghost use Rattle.neighbours.specs.Limits.{max_pixels};
ghost use Rattle.neighbours.specs.Words.{full_word, max_words};
ghost use Rattle.model.specs.Steps.{propagate_once};
ghost use Rattle.model.specs.Operations.{least_iterations};
ghost use Rattle.model.specs.Words.{packed_words, unpacked_words};
ghost use Rattle.model.specs.declared.Step.TheVariants.{Propagate};
ghost use Rattle.words.specs.Frame.{Written, Same, Operated};
ghost use Rattle.words.specs.Room.{front_rows};
ghost use Rattle.propagation.specs.RowSet.{set_words};
ghost use Rattle.propagation.specs.Propagation.{above_at, here_at, LevelAt, GrownWord, GrownAt, RowsGrown};
ghost use Rattle.propagation.specs.Propagation.{SameRows, Noted, Propagated};
ghost use Rattle.propagation.specs.Propagation.{RowIn, GrowableRow, LoadableRow, Growable, Propagatable};
ghost use Rattle.propagation.specs.Propagation.{Spreadable, Reportable};
ghost use Rattle.propagation.specs.HandOver.{Handing, RowsIterated};

use crate::inner::begin::{begin, shared_area};
use crate::inner::hand_over::hand_over;
use crate::inner::row_set::{SET_WORDS, add_round, last_row};
use model::WordsReport;
use neighbours::inner::words::{Neighbourhood, upright, without_background};
use neighbours::{ALL_SIDES, MAX_ROW_WORDS, Position};
use words::Frame;
use words::inner::{frame_of, room};

// ---- one word

// Word `k` of the row above row `y`.
#[tactic(auto, unfolding(crate::specs::Propagation::above_at))]
fn word_above(words: &[u64], columns: usize, y: usize, k: usize) -> u64
    requires row_in { RowIn columns y words.now }
    requires k_lt_columns { k < columns }
    ensures { result ≡ above_at columns words.now y k }
{
    if y == 0 {
        return u64::MAX;
    }
    words[(y - 1) * columns + k]
}

// What word `k` of row `y` counts for the words beside it; all bits are set behind the row. `below` is the row below.
fn level_at(words: &[u64], below: &[u64], columns: usize, y: usize, k: usize, four: u64) -> u64
    requires row_in { RowIn columns y words.now }
    requires columns_in_bounds { columns ≤ length below.now }
    requires k_le_columns { k ≤ columns }
    ensures { LevelAt columns (above_at columns words.now y) (here_at columns words.now y)
        (λ i. get_or below.now i 0) four (k + 1) result }
{
    if k == columns {
        return u64::MAX;
    }
    let above = word_above(words, columns, y, k);
    upright(above, words[y * columns + k], below[k], four)
}

// What an iteration makes of a word.
fn grown_word(around: Neighbourhood, eight: u64, mask: u64) -> u64
    ensures { GrownWord around.left around.above around.here around.below around.right eight mask result }
{
    without_background(around, eight) | !mask
}

// ---- one row

// One iteration over row `y`. `below` is the row below it as it was, and then row `y` as it was. 0 exactly if no word
// changed.
fn grow_row(
    words: &mut [u64],
    mask: &[u64],
    below: &mut [u64],
    columns: usize,
    y: usize,
    four: u64,
    eight: u64,
) -> u64
    requires { GrowableRow columns y words.old mask.now below.old }
    ensures grown { Written (GrownAt columns (above_at columns words.old y) (here_at columns words.old y)
        (λ i. get_or below.old i 0) (here_at columns mask.now y) four eight)
        (y * columns) 1 columns words.old words.new }
    ensures kept { Written (λ k w. w ≡ here_at columns words.old y k) 0 1 columns
        below.old below.new }
    ensures moved { (result ≡ 0) ↔ Same (y * columns) columns words.old words.new }
{
    let from = y * columns;
    let mut moved: u64 = 0;
    let mut left = u64::MAX;
    let mut level = level_at(words, below, columns, y, 0, four);
    for k in 0..columns {
        let right = level_at(words, below, columns, y, k + 1, four);
        let above = word_above(words, columns, y, k);
        let here = words[from + k];
        let around = Neighbourhood {
            left,
            above,
            here: level,
            below: below[k],
            right,
        };
        let word = grown_word(around, eight, mask[from + k]);
        moved |= here ^ word;
        below[k] = here;
        words[from + k] = word;
        left = level;
        level = right;
    }
    moved
}

// Makes `below`, which is row `last`, row `y`.
fn keep_row(words: &[u64], below: &mut [u64], columns: usize, y: usize, last: usize)
    requires { LoadableRow columns y last words.now below.old }
    ensures last_row { y ≡ last → below.new ≡ below.old }
    ensures row_above { ((y ≡ last → ⊥) →
        Written (λ k w. w ≡ here_at columns words.now y k) 0 1 columns
        below.old below.new) }
{
    if y == last {
        return;
    }
    let from = y * columns;
    below[..columns].copy_from_slice(&words[from..from + columns]);
}

// ---- all rows

// One iteration over the rows of a set; the others stay. Adds each row that changed and the rows next to it to the next
// set. 0 exactly if no word changed.
fn grow_rows(frame: Frame, words: &mut [u64], mask: &[u64], set: &[u64], next: &mut [u64]) -> u64
    requires growable { Growable frame words.old mask.now }
    requires set_len { length set.now ≡ set_words }
    requires next_len { length next.old ≡ set_words }
    ensures grown { RowsGrown set.now frame.columns frame.rows words.old mask.now
        frame.four frame.eight words.new }
    ensures moved { ((result ≡ 0) ↔ SameRows frame.columns frame.rows words.old words.new) }
    ensures noted { Noted frame.columns frame.rows words.old words.new next.new }
{
    let columns = frame.columns;
    let mut below = [u64::MAX; MAX_ROW_WORDS];
    let mut moved: u64 = 0;
    let mut y = frame.rows;
    let mut end = last_row(set, y);
    while end != 0 {
        keep_row(words, &mut below, columns, end, y);
        y = end - 1;
        let changed = grow_row(words, mask, &mut below, columns, y, frame.four, frame.eight);
        add_round(next, y, changed);
        moved |= changed;
        end = last_row(set, y);
    }
    moved
}

// Grows until nothing changes, at most `iterations` times. How many iterations changed anything. The first goes over
// all rows, any other over those next to a row that the one before changed.
fn iterate(frame: Frame, words: &mut [u64], mask: &[u64], iterations: usize) -> usize
    requires { Growable frame words.old mask.now }
    ensures { Propagated frame iterations mask.now words.old words.new result }
{
    let mut set = [u64::MAX; SET_WORDS];
    for used in 0..iterations {
        let mut next = [0u64; SET_WORDS];
        if grow_rows(frame, words, mask, &set, &mut next) == 0 {
            return used;
        }
        set = next;
    }
    iterations
}

// Exchanges object and background, the unused bits too.
fn turn(words: &mut [u64])
    requires { length words.old ≤ max_words }
    ensures { Written (λ i w. w ≡ bit_xor (get_or words.old i 0) full_word) 0 1 (length words.old)
        words.old words.new }
{
    for word in words.iter_mut() {
        *word = !*word;
    }
}

// A propagation of packed rows in a mask. How many iterations changed anything.
pub fn propagate_words(
    width: usize,
    height: usize,
    words: &mut [u64],
    mask: &[u64],
    connectivity: u8,
    iterations: usize,
) -> usize
    requires { Propagatable width height words.old mask.now connectivity }
    ensures propagated { words.new
        ≡ packed_words width height
        (iterate (propagate_once width height connectivity (unpacked_words width height mask.now))
        iterations (unpacked_words width height words.old)) }
    ensures used { result
        ≡ least_iterations
        (propagate_once width height connectivity (unpacked_words width height mask.now))
        iterations (unpacked_words width height words.old) }
{
    let frame = frame_of(width, height, connectivity, ALL_SIDES, true);
    turn(words);
    let used = iterate(frame, words, mask, iterations);
    turn(words);
    used
}

// ---- on words and by the queue engine

// The iterations of a propagation, where the mask's packed rows stand at the entries' front. The image and the queue
// are room to work in. The rows and the mask share `shared` pixels; any number leaves the same rows. How many
// iterations changed anything.
fn spread_rows(
    width: usize,
    height: usize,
    image: &mut [u8],
    mask: &[u8],
    queue: &mut [Position],
    rows: &mut [u64],
    entries: &mut [u64],
    connectivity: u8,
    iterations: usize,
    shared: usize,
) -> usize
    requires handing { Handing width height connectivity mask.now image.old queue.old rows.old entries.old }
    requires shared_le_max_pixels { shared ≤ max_pixels }
    ensures { RowsIterated width height connectivity iterations mask.now rows.old rows.new
        result }
{
    let n = room::words_length(width, height);
    let begun = begin(
        width,
        height,
        &mut rows[..n],
        &entries[..n],
        connectivity,
        iterations,
        shared,
    );
    if begun.ended {
        return begun.used;
    }
    let further = hand_over(
        width,
        height,
        image,
        mask,
        queue,
        rows,
        entries,
        connectivity,
        iterations - begun.used,
    );
    begun.used + further
}

// The report of a propagation, from the areas before and after it and the number of pixels that are object both times:
// any other object pixel of the two areas changed.
fn report(before: usize, kept: usize, used: usize, after: usize) -> WordsReport
    requires { Reportable before kept used after }
    ensures { result ≡ record { changed = before + after - 2 * kept; used = used; area = after } }
{
    WordsReport {
        changed: (before + after - 2 * kept) as u32,
        used: used as u32,
        area: after as u32,
    }
}

// A propagation in the mask, from the rows of an image to those of the image after it: on words while many pixels move,
// and then by the queue engine. Image and queue are room for that.
pub fn propagate(
    width: usize,
    height: usize,
    image: &mut [u8],
    mask: &[u8],
    queue: &mut [Position],
    rows: &mut [u64],
    entries: &mut [u64],
    connectivity: u8,
    iterations: u16,
) -> WordsReport
    requires { Spreadable width height image.old mask.now queue.old rows.old entries.old connectivity }
    ensures { Operated width height (Propagate connectivity iterations) mask.now
        (front_rows width height rows.old) (front_rows width height rows.new) result }
{
    let before = room::area(width, height, rows);
    // No iteration changes nothing, not even outside the mask.
    if iterations == 0 {
        return report(before, before, 0, before);
    }
    room::pack(width, height, mask, entries);
    let n = room::words_length(width, height);
    let shared = shared_area(width, height, &rows[..n], &entries[..n]);
    let used = spread_rows(
        width,
        height,
        image,
        mask,
        queue,
        rows,
        entries,
        connectivity,
        usize::from(iterations),
        shared,
    );
    let after = room::area(width, height, rows);
    report(before, shared, used, after)
}
