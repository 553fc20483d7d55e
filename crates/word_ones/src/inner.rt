// A word's ones listed as positions, and compared with positions that are listed. What each function requires its
// caller has tested or proved.
ghost use Rattle.std.specs.Prelude.{◌≡◌, ◌+◌, ◌-◌, ◌<◌, ◌≤◌, true, bit_and};
ghost use Rattle.std.specs.Int.Count.{count_trailing_zeros};
ghost use Rattle.neighbours.specs.Limits.{max_pixels};
ghost use Rattle.neighbours.specs.Crop.{Extended};
ghost use Rattle.neighbours.specs.Words.{word_bits};
ghost use Rattle.word_ones.specs.Ones.{ones_from, ListableWord, Compared, ComparableWord};

use crate::ones_of;
use neighbours::inner::put_queued;
use neighbours::{MAX_PIXELS, Position};

pub mod bytes;

// A word with two ones, and up to so many, is listed one by one. With more, bytes are faster: the processor cannot
// foretell where a loop over the ones ends.
const FEW: usize = 5;

// The pixel of a word's last one.
pub fn last_one(word: u64) -> usize
    requires { 0 < word }
    ensures { result ≡ word_bits - 1 - count_trailing_zeros word_bits word }
{
    63 - word.trailing_zeros() as usize
}

// Writes the positions of a word's ones behind the `len` entries at the queue's front, where its first pixel has
// position `at`. Returns how many entries stand there now. The ones are taken from the last to the first, since the
// next one is then found while this one is written.
#[tactic(auto, using(crate::proofs::OnesLaws::taken_next))]
pub fn list_ones(word: u64, at: usize, queue: &mut [Position], len: usize) -> usize
    requires { ListableWord at word queue.old len }
    ensures { Extended queue.old len (ones_from at word) queue.new result }
{
    let end = len + ones_of(word);
    // By `for slot in (len..end).rev()`: tried, and slower in `list_word`, since the compiler unrolls it.
    let mut slot = end;
    let mut rest = word;
    while rest != 0 {
        slot -= 1;
        put_queued(queue, slot, at + last_one(rest));
        rest &= rest - 1;
    }
    end
}

// Whether a word is listed byte by byte. That needs room for 64 entries, and positions of 64 pixels that fit an entry.
// Which way a word goes is not promised: either gives the same.
fn goes_by_bytes(word: u64, at: usize, room: usize, len: usize) -> bool
    ensures { result ≡ true → (at + 64 ≤ max_pixels) × (len + 64 ≤ room) }
{
    ones_of(word) > FEW && at <= MAX_PIXELS - 64 && 64 <= room && len <= room - 64
}

// A word without its last one; 0 stays 0.
fn without_last(word: u64) -> u64
    ensures { result ≡ bit_and word (word - 1) }
{
    word & word.wrapping_sub(1)
}

// The same as `list_ones`, for a word with no ones or a single one, which need no count.
fn list_single(word: u64, at: usize, queue: &mut [Position], len: usize) -> usize
    requires listable_word { ListableWord at word queue.old len }
    requires word_value { bit_and word (word - 1) ≡ 0 }
    ensures { Extended queue.old len (ones_from at word) queue.new result }
{
    if word == 0 {
        return len;
    }
    put_queued(queue, len, at + last_one(word));
    len + 1
}

// The same as `list_ones`, by the fastest of three ways.
pub fn list_word(word: u64, at: usize, queue: &mut [Position], len: usize) -> usize
    requires { ListableWord at word queue.old len }
    ensures { Extended queue.old len (ones_from at word) queue.new result }
{
    if without_last(word) == 0 {
        return list_single(word, at, queue, len);
    }
    if goes_by_bytes(word, at, queue.len(), len) {
        return bytes::list_bytes(word, at, queue, len);
    }
    list_ones(word, at, queue, len)
}

// Whether the positions of a word's ones stand behind the first `len` entries of the queue, among its first `n`: the
// entry behind them, or none if they do not.
pub fn compare_word(word: u64, at: usize, queue: &[Position], len: usize, n: usize) -> Option<usize>
    requires { ComparableWord at word queue.now len n }
    ensures { Compared queue.now n len (ones_from at word) result }
{
    let end = len + ones_of(word);
    if n < end {
        return None;
    }
    let mut rest = word;
    for &entry in queue[len..end].iter().rev() {
        if usize::from(entry) != at + last_one(rest) {
            return None;
        }
        rest &= rest - 1;
    }
    Some(end)
}
