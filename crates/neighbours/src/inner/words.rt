// The neighbours of a word of pixels, 64 of a row at once, the first in the top bit (02, Point 2). Each function says
// what it makes of a word pixel by pixel, for every crop and image that the words it is given are of.
ghost use Rattle.std.specs.Prelude.{◌≡◌, List, ℕ, ◌+◌, ◌*◌, ◌≤◌, ◌<◌};
ghost use Rattle.lists.specs.Lists.{bit};
ghost use Rattle.neighbours.specs.Grid.{has_side, position, all_sides};
ghost use Rattle.neighbours.specs.Contour.{on_contour};
ghost use Rattle.neighbours.specs.Packed.{bit_at};
ghost use Rattle.neighbours.specs.Words.{word_bits, Holds, Flat, LevelsRound, FilledBehind, Upright, Kept};

// A word of a row and the four words round it; `LevelsRound` says what they hold.
#[derive(Clone, Copy)]
pub struct Neighbourhood {
    pub left: u64,
    pub above: u64,
    pub here: u64,
    pub below: u64,
    pub right: u64,
}

// What lies beyond a side, as a word: all bits are set where the side is named.
pub fn beyond_side(sides: u8, side: u8) -> u64
    requires { 1 ≤ side }
    ensures { Flat (bit (has_side sides side)) result }
{
    if super::has_side(sides, side) {
        u64::MAX
    } else {
        0
    }
}

// A word of a row, filled up behind the row's end with what lies beyond the right side.
pub fn fill_behind(word: u64, keep: u64, fill: u64) -> u64
    ensures { FilledBehind word keep fill result }
{
    (word & keep) | fill
}

// Each pixel's neighbour on the left; the first one's is the last of the word before.
pub fn left_neighbours(before: u64, here: u64) -> u64
    ensures { ((pixels : ℕ → ℕ) (x : ℕ) → bit_at word_bits before 63 ≡ pixels x → Holds pixels (x + 1) here →
        Holds pixels x result) }
{
    (here >> 1) | (before << 63)
}

// Each pixel's neighbour on the right; the last one's is the first of the word behind.
pub fn right_neighbours(here: u64, behind: u64) -> u64
    ensures { ((pixels : ℕ → ℕ) (x : ℕ) → Holds pixels x here →
        bit_at word_bits behind 0 ≡ pixels (x + word_bits) →
        Holds pixels (x + 1) result) }
{
    (here << 1) | (behind >> 63)
}

// The pixels of a word that are object with those above and below; where the bit of `alone` is set, by themselves.
pub fn upright(above: u64, here: u64, below: u64, alone: u64) -> u64
    ensures { Upright above here below alone result }
{
    here & ((above & below) | alone)
}

// The object pixels of a word that have no background neighbour.
pub fn without_background(around: Neighbourhood, eight: u64) -> u64
    ensures { Kept around.left around.above around.here around.below around.right eight result }
{
    let beside = left_neighbours(around.left, around.here)
        & right_neighbours(around.here, around.right);
    upright(around.above, around.here, around.below, eight) & beside
}

// The pixels of a word that are on the contour: by 4, and with all sides object, those with a background neighbour.
pub fn contour_word(around: Neighbourhood) -> u64
    ensures { ((width height : ℕ) (image : List ℕ) (k y : ℕ) →
        LevelsRound width height all_sides image 4 k y
        around.left around.above around.here around.below around.right 0 →
        (j : ℕ) → j < word_bits → word_bits * k + j < width →
        bit_at word_bits result j ≡ bit (on_contour width height image (position width (word_bits * k + j) y))) }
{
    around.here & (without_background(around, 0) ^ u64::MAX)
}
