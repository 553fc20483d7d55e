// The bytes of a job: numbers of 16 bits and packed images. Document 01, "Job and lane program". Images packed into
// words of 64 bits: document 02, Point 2. The rows of an image outside which it has no object pixel.
#![tactic(auto)]

pub mod inner;

// Rows of an image from `top` up to `end`.
#[derive(Clone, Copy)]
pub struct Rows {
    pub top: usize,
    pub end: usize,
}
