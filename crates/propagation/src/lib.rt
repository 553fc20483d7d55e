// Propagation in a mask, from packed rows to packed rows: on words while many pixels move, an iteration only over the
// rows next to those that the one before changed, and then by the queue engine. All of it is in `inner` and requires
// what an entry point has tested.
#![tactic(auto)]

pub mod inner;

// The iterations that a propagation went on words. A flag and no enum of two kinds: what holds of `used` is the same
// in both.
#[derive(Clone, Copy)]
pub struct Begun {
    // How many there were; each changed something.
    pub used: usize,
    // Whether none that is still asked for would change anything.
    pub ended: bool,
}
