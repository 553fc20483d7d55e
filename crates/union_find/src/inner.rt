// Functions that require what the entry points have tested.
pub mod forest;
pub mod joins;
pub mod outside;
