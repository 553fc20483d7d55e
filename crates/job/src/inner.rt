// Functions that require what the entry points have tested.
pub mod read;
pub mod steps;
pub mod write;
