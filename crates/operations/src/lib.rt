// The operations of documents 01 and 02 by the queue engine of van Vliet and Verwer (1988), whose time goes with the
// pixels that change. A propagation goes on words first and is in the crate `propagation`.
#![tactic(auto)]

pub mod inner;

// What goes from a contour in hand, and hands on the one after it.
#[derive(Clone, Copy)]
pub enum FromContour {
    // An erosion by sides.
    Erode {
        connectivity: u8,
        sides: u8,
        iterations: u16,
    },
    // A dilation.
    Dilate {
        connectivity: u8,
        iterations: u16,
    },
    // A flood fill from the pixel in column `x` and row `y`.
    FloodFill {
        connectivity: u8,
        x: u16,
        y: u16,
    },
}

// A layer that stands in the queue from `from` up to `to`.
#[derive(Clone, Copy)]
pub struct Layer {
    pub from: usize,
    pub to: usize,
}
