// Positions listed from words that have a bit for each pixel, as they stand in a frame: the queue holds them row by
// row.
ghost use Rattle.std.specs.Prelude.{◌≡◌, Bool, true, ◌↔◌, ℕ, ◌+◌, ◌-◌, ◌*◌, ◌≤◌, ◌<◌, length, get_or, take};
ghost use Rattle.lists.specs.Lists.{select};
ghost use Rattle.neighbours.specs.Limits.{max_pixels};
ghost use Rattle.neighbours.specs.Crop.{Extended};
ghost use Rattle.neighbours.specs.Grid.{positions};
ghost use Rattle.model.specs.Words.{row_words};
ghost use Rattle.words.specs.Frame.{stride};
ghost use Rattle.words.specs.Positions.{row_ones, WordsOf, Listable, ListableRow, Lists};
ghost use Rattle.words.specs.Positions.{ComparableRow};
ghost use Rattle.word_ones.specs.Ones.{Compared};

use neighbours::Position;
use word_ones::inner::{compare_word, list_ones, list_word};
use word_ones::ones_of;

// ---- one row

// Word `k` of row `y`.
pub fn word_of(height: usize, words: &[u64], k: usize, y: usize) -> u64
    requires { (k + 1) * stride height + 1 + y < length words.now }
    ensures { result ≡ get_or words.now ((k + 1) * stride height + 1 + y) 0 }
{
    words[(k + 1) * (height + 2) + 1 + y]
}

// Writes the positions of row `y`, whose first pixel has position `first`, those of each word by `list`. Each `list`
// makes a function of its own, which has one caller, into which the compiler then puts it.
fn list_row_by<F: Fn(u64, usize, &mut [Position], usize) -> usize>(
    width: usize,
    height: usize,
    words: &[u64],
    y: usize,
    first: usize,
    queue: &mut [Position],
    len: usize,
    list: F,
) -> usize
    requires listable { ListableRow width height words.now y first queue.old len }
    requires lists { Lists (F.pre list) (F.post list) }
    ensures { Extended queue.old len (row_ones height words.now y first (row_words width))
        queue.new result }
{
    let columns = packing::inner::words::row_words(width);
    let apart = height + 2;
    // Computed from `k`, as in `word_of`, it costs a multiplication a word: a scan of 256x256 was slower by 3 %.
    let mut from = apart + 1 + y;
    let mut end = len;
    for k in 0..columns {
        end = list(words[from], first + 64 * k, queue, end);
        from += apart;
    }
    end
}

// The same, each word by the fastest way.
pub fn list_row(
    width: usize,
    height: usize,
    words: &[u64],
    y: usize,
    first: usize,
    queue: &mut [Position],
    len: usize,
) -> usize
    requires { ListableRow width height words.now y first queue.old len }
    ensures { Extended queue.old len (row_ones height words.now y first (row_words width))
        queue.new result }
{
    list_row_by(width, height, words, y, first, queue, len, list_word)
}

// How many positions row `y` has.
fn count_row(width: usize, height: usize, words: &[u64], y: usize) -> usize
    requires listable { Listable width height words.now }
    requires y_lt_height { y < height }
    ensures { result ≡ length (row_ones height words.now y (y * width) (row_words width)) }
{
    let columns = packing::inner::words::row_words(width);
    let mut count = 0;
    for k in 0..columns {
        count += ones_of(word_of(height, words, k, y));
    }
    count
}

// Whether the positions of row `y` stand behind the first `len` entries of the queue, as `compare_word` tells it.
fn compare_row(
    width: usize,
    height: usize,
    words: &[u64],
    y: usize,
    queue: &[Position],
    len: usize,
    n: usize,
) -> Option<usize>
    requires { ComparableRow width height words.now y queue.now len n }
    ensures { Compared queue.now n len
        (row_ones height words.now y (y * width) (row_words width)) result }
{
    let columns = packing::inner::words::row_words(width);
    let mut end = len;
    for k in 0..columns {
        end = compare_word(
            word_of(height, words, k, y),
            y * width + 64 * k,
            queue,
            end,
            n,
        )?;
    }
    Some(end)
}

// ---- all rows

// Writes the positions to the queue's front, those of each word one by one, for words with few ones. What stands
// behind may be anything. Returns how many there are.
pub fn list_positions(width: usize, height: usize, words: &[u64], queue: &mut [Position]) -> usize
    requires listable { Listable width height words.now }
    requires height_in_bounds { width * height ≤ length queue.old }
    ensures { ((test : ℕ → Bool) → WordsOf width height test words.now →
        Extended queue.old 0 (select test (positions width height)) queue.new result) }
{
    let mut len = 0;
    for y in 0..height {
        len = list_row_by(width, height, words, y, y * width, queue, len, list_ones);
    }
    len
}

// How many positions there are.
pub fn count_positions(width: usize, height: usize, words: &[u64]) -> usize
    requires { Listable width height words.now }
    ensures counted { ((test : ℕ → Bool) → WordsOf width height test words.now →
        result ≡ length (select test (positions width height))) }
    ensures upper_bound { result ≤ max_pixels }
{
    let mut count = 0;
    for y in 0..height {
        count += count_row(width, height, words, y);
    }
    count
}

// Whether the first `n` entries of the queue are exactly these positions, in this order.
pub fn is_listed(width: usize, height: usize, words: &[u64], queue: &[Position], n: usize) -> bool
    requires listable { Listable width height words.now }
    requires n_in_bounds { n ≤ length queue.now }
    ensures { ((test : ℕ → Bool) → WordsOf width height test words.now →
        ((result ≡ true) ↔ (take n queue.now ≡ select test (positions width height)))) }
{
    let mut len = 0;
    for y in 0..height {
        let Some(end) = compare_row(width, height, words, y, queue, len, n) else {
            return false;
        };
        len = end;
    }
    len == n
}
