// The ones of a word of 64 pixels, the first pixel in the top bit: counted, and, in `inner`, listed as positions and
// compared with positions that are listed.
#![tactic(auto)]

ghost use Rattle.std.specs.Prelude.{◌≡◌, ◌≤◌, count_ones};

pub mod inner;

// How many there are.
pub fn ones_of(word: u64) -> usize
    ensures value { result ≡ count_ones word }
    ensures upper_bound { result ≤ 64 }
{
    word.count_ones() as usize
}
