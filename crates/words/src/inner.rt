// The packed engine. Functions that require what the entry points have tested.
//
// A run works on a copy of the rows, column of words by column of words, in a frame of words that hold what lies
// beyond the sides: word `k` of row `y` stands at (k + 1) * (rows + 2) + y + 1. A word's neighbours above and below are
// the entries before and behind it, those beside it a column away, no edge is a case of its own, and the passes compile
// to vector code. Behind a row's end a word holds what lies beyond the right side.
pub mod area;
pub mod contour;
pub mod positions;
pub mod room;
pub mod run;
pub mod scan;

ghost use Rattle.std.specs.Prelude.{[], ◌≡◌, true, ◌↔◌, ◌+◌, ◌-◌, ◌≤◌, ◌<◌, get_or};
ghost use Rattle.lists.specs.Lists.{bit};
ghost use Rattle.neighbours.specs.Limits.{max_pixels};
ghost use Rattle.neighbours.specs.Crop.{ValidSize};
ghost use Rattle.neighbours.specs.Grid.{is_connectivity};
ghost use Rattle.neighbours.specs.Words.{Flat, Upright};
ghost use Rattle.model.specs.Limits.{u16_limit};
ghost use Rattle.model.specs.Words.{row_words};
ghost use Rattle.words.specs.Frame.{frame_room, max_entries};
ghost use Rattle.words.specs.Frame.{stride, Written, Inside, FrameOf, Small, frame_word, keep_at, fill_at};
ghost use Rattle.words.specs.Frame.{FrameIndex, LoadableColumn, Loadable, SteppableColumn, Steppable, LevelsIn};
ghost use Rattle.words.specs.Frame.{LoadedAt, StoredAt, Loaded, Stored};
ghost use Rattle.words.specs.Frame.{Eroded, ErodedAt, Same, Stepped, Iterated, Clean};
ghost use Rattle.words.specs.Frame.{step_of, Operated};
ghost use Rattle.words.specs.Room.{Lent};

use crate::inner::run::Run;
use crate::{Frame, ROOM, SMALL_ROOM};
use model::WordsReport;
use neighbours::inner::words;
use neighbours::inner::words::Neighbourhood;
use neighbours::{BOTTOM_SIDE, LEFT_SIDE, RIGHT_SIDE, TOP_SIDE};

// ---- one word

// The bits of word `k` of a row inside the crop. One function for this and `fill_at` would be lent the field and the
// bits of the other words, and be no plainer.
fn keep_at(frame: Frame, k: usize) -> u64
    requires { k < frame.columns }
    ensures { result ≡ keep_at frame k }
{
    if k + 1 == frame.columns {
        return frame.keep;
    }
    u64::MAX
}

// What fills the other bits.
fn fill_at(frame: Frame, k: usize) -> u64
    requires { k < frame.columns }
    ensures { result ≡ fill_at frame k }
{
    if k + 1 == frame.columns {
        return frame.fill;
    }
    0
}

// What entry `y` of the frame's column of word `k` is made of: what lies beyond the top, a word, or what lies beyond
// the bottom.
fn frame_word(frame: Frame, words: &[u64], k: usize, y: usize) -> u64
    requires small { Small frame }
    requires frame_index { FrameIndex frame words.now k y }
    ensures { result ≡ frame_word frame words.now k y }
{
    if y == 0 {
        return frame.top;
    }
    if y == frame.rows + 1 {
        return frame.bottom;
    }
    words[(y - 1) * frame.columns + k] ^ frame.flip
}

// What an iteration makes of a word, filled up behind the row's end.
fn eroded_word(around: Neighbourhood, eight: u64, keep: u64, fill: u64) -> u64
    ensures { Eroded around.left around.above around.here around.below around.right eight keep fill result }
{
    let kept = words::without_background(around, eight);
    words::fill_behind(kept, keep, fill)
}

// ---- one column

// Writes a word to the `n` entries from `from` on.
fn put_side(entries: &mut [u64], from: usize, n: usize, word: u64)
    requires { Inside from n entries.old }
    ensures { Written (λ y w. w ≡ word) from 1 n entries.old entries.new }
{
    entries[from..from + n].fill(word);
}

// Writes the frame's column of word `k` to the entries from `from` on.
fn load_column(frame: Frame, words: &[u64], entries: &mut [u64], k: usize, from: usize)
    requires { LoadableColumn frame words.now entries.old k from }
    ensures { Written (LoadedAt frame words.now k) from 1 (stride frame.rows)
        entries.old entries.new }
{
    let keep = keep_at(frame, k);
    let fill = fill_at(frame, k);
    for y in 0..frame.rows + 2 {
        entries[from + y] = words::fill_behind(frame_word(frame, words, k, y), keep, fill);
    }
}

// Writes word `k` of each row back from the entries from `from` on, its unused bits 0.
fn store_column(frame: Frame, entries: &[u64], words: &mut [u64], k: usize, from: usize)
    requires { LoadableColumn frame words.old entries.now k from }
    ensures { Written (StoredAt frame entries.now k from) k frame.columns frame.rows
        words.old words.new }
{
    let keep = keep_at(frame, k);
    let flip = frame.flip;
    let columns = frame.columns;
    for y in 0..frame.rows {
        words[k + y * columns] = (entries[from + y] ^ flip) & keep;
    }
}

// One iteration over a column of `rows` words. The levels of the column before it stand from `from` on, and the
// columns are `apart` entries apart. 0 exactly if no word changed.
fn step_column(
    levels: &[u64],
    entries: &mut [u64],
    from: usize,
    apart: usize,
    rows: usize,
    eight: u64,
    keep: u64,
    fill: u64,
) -> u64
    requires { SteppableColumn levels.now entries.old from apart rows }
    ensures eroded { Written (ErodedAt levels.now from apart eight keep fill) (from + apart) 1 rows
        entries.old entries.new }
    ensures moved { (result ≡ 0) ↔ Same (from + apart) rows entries.old entries.new }
{
    let mut moved: u64 = 0;
    for y in 0..rows {
        let here = from + y + apart;
        let around = Neighbourhood {
            left: levels[from + y],
            above: levels[here - 1],
            here: levels[here],
            below: levels[here + 1],
            right: levels[here + apart],
        };
        let word = eroded_word(around, eight, keep, fill);
        moved |= entries[here] ^ word;
        entries[here] = word;
    }
    moved
}

// ---- the frame

// Puts `n` words, from the second on, together with those above and below them.
fn put_levels(entries: &[u64], levels: &mut [u64], n: usize, four: u64)
    requires { LevelsIn entries.now levels.old (n + 2) }
    ensures { Written (λ i w. Upright (get_or entries.now i 0) (get_or entries.now (i + 1) 0)
        (get_or entries.now (i + 2) 0) four w) 1 1 n
        levels.old levels.new }
{
    for i in 0..n {
        levels[i + 1] = words::upright(entries[i], entries[i + 1], entries[i + 2], four);
    }
}

// One iteration. 0 exactly if nothing changed.
fn step(frame: Frame, entries: &mut [u64], levels: &mut [u64]) -> u64
    requires { Steppable frame levels.old entries.old }
    ensures { Stepped frame entries.old entries.new result }
{
    let columns = frame.columns;
    let rows = frame.rows;
    let apart = rows + 2;
    // All but the frame's first and last word.
    put_levels(entries, levels, (columns + 2) * apart - 2, frame.four);
    let mut moved: u64 = 0;
    for k in 0..columns {
        let keep = keep_at(frame, k);
        let fill = fill_at(frame, k);
        let from = k * apart + 1;
        moved |= step_column(levels, entries, from, apart, rows, frame.eight, keep, fill);
    }
    moved
}

// Makes the frame of packed rows.
fn load(frame: Frame, words: &[u64], entries: &mut [u64])
    requires { Loadable frame words.now entries.old }
    ensures { Loaded frame words.now entries.new }
{
    let columns = frame.columns;
    let apart = frame.rows + 2;
    for k in 0..columns {
        load_column(frame, words, entries, k, (k + 1) * apart);
    }
    put_side(entries, 0, apart, frame.left);
    put_side(entries, (columns + 1) * apart, apart, frame.right);
}

// Writes the rows of a frame back.
fn store(frame: Frame, entries: &[u64], words: &mut [u64])
    requires { Loadable frame words.old entries.now }
    ensures { Stored frame entries.now words.old words.new }
{
    let apart = frame.rows + 2;
    for k in 0..frame.columns {
        store_column(frame, entries, words, k, (k + 1) * apart + 1);
    }
}

// ---- runs

// Steps until nothing changes, at most `iterations` times. How many iterations changed anything.
fn iterate(frame: Frame, entries: &mut [u64], levels: &mut [u64], iterations: usize) -> usize
    requires { Steppable frame levels.old entries.old }
    ensures { Iterated frame iterations entries.old entries.new result }
{
    for used in 0..iterations {
        if step(frame, entries, levels) == 0 {
            return used;
        }
    }
    iterations
}

// A word with all bits set, or none.
fn all_bits(set: bool) -> u64
    ensures { Flat (bit set) result }
{
    if set { u64::MAX } else { 0 }
}

// The numbers of a run. `turn` tells whether object and background are exchanged.
pub fn frame_of(width: usize, height: usize, connectivity: u8, sides: u8, turn: bool) -> Frame
    requires valid_size { ValidSize width height }
    requires connectivity_value { is_connectivity connectivity ≡ true }
    ensures { FrameOf width height connectivity sides (bit turn) result }
{
    let right = words::beyond_side(sides, RIGHT_SIDE);
    let unused = packing::inner::words::unused_mask(width);
    Frame {
        columns: packing::inner::words::row_words(width),
        rows: height,
        four: all_bits(connectivity == 4),
        eight: all_bits(connectivity == 8),
        flip: all_bits(turn),
        top: words::beyond_side(sides, TOP_SIDE),
        bottom: words::beyond_side(sides, BOTTOM_SIDE),
        left: words::beyond_side(sides, LEFT_SIDE),
        right,
        keep: unused ^ u64::MAX,
        fill: unused & right,
    }
}

// ---- operations

// The report of a run, from the areas before and after it. Every pixel that changes does so in the same way, so they
// tell how many changed.
fn report(before: usize, used: usize, after: usize) -> WordsReport
    requires before_le_max_pixels { before ≤ max_pixels }
    requires used_lt_u16limit { used < u16_limit }
    requires after_le_max_pixels { after ≤ max_pixels }
    ensures { result ≡ record { changed = (before - after) + (after - before); used = used; area = after } }
{
    WordsReport {
        changed: before.abs_diff(after) as u32,
        used: used as u32,
        area: after as u32,
    }
}

// An operation on lent packed rows, with room for their frame. The rows are copied into the room, so that one loop
// over iterations serves these calls and those on bytes: the compiler then puts it into its only caller.
fn operate_in(
    width: usize,
    height: usize,
    words: &mut [u64],
    rows: &mut [u64],
    entries: &mut [u64],
    run: Run,
) -> WordsReport
    requires lent { Lent width height words.old rows.old entries.old run.connectivity }
    ensures { Operated width height (step_of run.connectivity run.sides run.turn run.iterations) [] words.old
        words.new result }
{
    let n = words.len();
    rows[..n].copy_from_slice(words);
    let report = room::operate(width, height, rows, entries, run);
    words.copy_from_slice(&rows[..n]);
    report
}

// The operation in a room of `N` entries for the rows and as many for their frame. Not inlined: a caller would hold
// the rooms of both sizes in one stack frame, the arrays of the small one far apart.
#[inline(never)]
fn operate_with<const N: usize>(
    width: usize,
    height: usize,
    words: &mut [u64],
    run: Run,
) -> WordsReport
    requires clean { Clean width height words.old }
    requires room { frame_room (row_words width) height ≤ N }
    requires few { N ≤ max_entries }
    ensures { Operated width height (step_of run.connectivity run.sides run.turn run.iterations) [] words.old
        words.new result }
{
    let mut rows = [0u64; N];
    let mut entries = [0u64; N];
    operate_in(width, height, words, &mut rows, &mut entries, run)
}

// An erosion of packed rows by sides, or a dilation.
pub fn operate(width: usize, height: usize, words: &mut [u64], run: Run) -> WordsReport
    requires { Clean width height words.old }
    ensures { Operated width height (step_of run.connectivity run.sides run.turn run.iterations) [] words.old
        words.new result }
{
    if room::is_small(width, height) {
        return operate_with::<SMALL_ROOM>(width, height, words, run);
    }
    operate_with::<ROOM>(width, height, words, run)
}
