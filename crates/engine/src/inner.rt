// Functions that require what the entry points have tested.
pub mod contour;
pub mod image;
pub mod queue;
pub mod spread;
