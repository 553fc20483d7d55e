// The neighbour rules of document 01, "Crop, neighbours, edge" and "The contour handed on": the one
// crate that knows how a crop's pixels lie. The crates above go by the contracts alone.
#![tactic(auto)]

pub mod inner;

// The largest side of a crop, and the pixels of the largest crop.
pub const MAX_SIDE: usize = 256;

pub const MAX_PIXELS: usize = 65536;

// The words of the widest row, where a word holds 64 pixels (02, Point 2).
pub const MAX_ROW_WORDS: usize = MAX_SIDE / 64;

// What a pixel that was seen holds while others are looked for. No image that a caller lends holds it.
pub const MARK: u8 = 2;

// The sides of a crop. A sum of them names those that count as object (02, Point 6).
pub const TOP_SIDE: u8 = 1;

pub const RIGHT_SIDE: u8 = 2;

pub const BOTTOM_SIDE: u8 = 4;

pub const LEFT_SIDE: u8 = 8;

// No side, and all four.
pub const NO_SIDE: u8 = 0;

pub const ALL_SIDES: u8 = 15;

// A position as a queue holds it.
pub type Position = u16;

// Positions in a strip: `count` of them, from position `from` on by `step`.
#[derive(Clone, Copy)]
pub struct Strip {
    pub from: usize,
    pub step: usize,
    pub count: usize,
}
