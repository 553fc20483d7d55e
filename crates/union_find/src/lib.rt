// The connected sets of an image by union-find: a forest in the lent queue, in which each position's entry
// is a position of its set that is not behind it, and the first pixel's is its own. The components and the
// background, from which the holes come, are found in one go. All functions require what an entry point has
// tested.
#![tactic(auto)]

pub mod inner;
