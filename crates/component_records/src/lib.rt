// The records of an image's components, from the maps of its labels. The entry point of the crate `labelling`
// tests what these functions require.
#![tactic(auto)]

pub mod inner;

// How many components and how many holes have been seen.
#[derive(Clone, Copy)]
pub struct Seen {
    pub components: usize,
    pub holes: usize,
}
