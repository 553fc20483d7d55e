// One call of an operation, and one step of a list: which engine does it, on words of 64 pixels or by the contour
// queue, and the contour that is handed on. The entry points of the crate `morphology` test what these functions
// require; a list's runner calls them one after another and tests nothing again.
#![tactic(auto)]

pub mod inner;

use operations::FromContour;

// What does an operation. No `Option` of what the queue engine does: neither engine is the absence of the other.
#[derive(Clone, Copy)]
pub enum Engine {
    // Words of 64 pixels, where the operation can go so.
    Words,
    // The queue engine, from the contour handed in, which has `len` positions.
    Queue { what: FromContour, len: usize },
}

// What goes on words, from packed rows to packed rows.
#[derive(Clone, Copy)]
pub enum OnWords {
    // An erosion by sides.
    Erode {
        connectivity: u8,
        sides: u8,
        iterations: u16,
    },
    // A dilation.
    Dilate {
        connectivity: u8,
        iterations: u16,
    },
    // A propagation, which the queue engine takes over where few pixels move.
    Propagate {
        connectivity: u8,
        iterations: u16,
    },
}

// How a step goes.
#[derive(Clone, Copy)]
pub enum Way {
    // On words.
    Words(OnWords),
    // By the queue engine, from the contour.
    FloodFill { connectivity: u8, x: u16, y: u16 },
    // By the queue engine, from the border.
    ClearBorder { connectivity: u8 },
}
