// Sets of rows, as words that have a bit for each row, the first in the top bit. The rows are counted from one, so that
// the rows round a row have a bit even where they are outside the crop.
ghost use Rattle.std.specs.Prelude.{◌≡◌, ◌&&◌, not, ℕ, ◌+◌, ◌≤◌, ◌<◌, eqb, leb, length};
ghost use Rattle.lists.specs.Lists.{bit};
ghost use Rattle.neighbours.specs.Limits.{max_side};
ghost use Rattle.neighbours.specs.Packed.{bit_at};
ghost use Rattle.neighbours.specs.Words.{word_bits};
ghost use Rattle.propagation.specs.RowSet.{set_words, LastRow, RowsAdded};

use neighbours::MAX_SIDE;
use word_ones::inner::last_one;

// The words of a set: a bit for each row, for the row above the first and for the row below the last.
pub const SET_WORDS: usize = (MAX_SIDE + 2) / 64 + 1;

// A word with the bits set up to bit `i`, counted from the top.
fn bits_to(i: usize) -> u64
    requires { i < word_bits }
    ensures { (j : ℕ) → j < word_bits → bit_at word_bits result j ≡ bit (leb j i) }
{
    u64::MAX << (63 - i)
}

// The last row of the set up to row `n`, or 0 if there is none: row 0 lies above the crop, and may be in the set too.
pub fn last_row(set: &[u64], n: usize) -> usize
    requires set_len { length set.now ≡ set_words }
    requires n_le_max_side { n ≤ max_side }
    ensures { LastRow set.now n result }
{
    let mut kept = bits_to(n % 64);
    for j in (0..=n / 64).rev() {
        let word = set[j] & kept;
        if word != 0 {
            return 64 * j + last_one(word);
        }
        kept = u64::MAX;
    }
    0
}

// Adds row `n` to the set.
fn add_row(set: &mut [u64], n: usize)
    requires set_len { length set.old ≡ set_words }
    requires n_bound { n ≤ max_side + 1 }
    ensures { RowsAdded (λ z. eqb z n) set.old set.new }
{
    set[n / 64] |= 1 << (63 - n % 64);
}

// Adds row `y`, counted from zero, and the rows next to it to the set, if `changed` is not 0. Most often their bits
// stand in one word.
pub fn add_round(set: &mut [u64], y: usize, changed: u64)
    requires set_len { length set.old ≡ set_words }
    requires y_lt_max_side { y < max_side }
    ensures { RowsAdded (λ z. not (eqb changed 0) && leb y z && leb z (y + 2)) set.old set.new }
{
    if changed == 0 {
        return;
    }
    if y % 64 < 62 {
        set[y / 64] |= 7 << (61 - y % 64);
        return;
    }
    add_row(set, y);
    add_row(set, y + 1);
    add_row(set, y + 2);
}
