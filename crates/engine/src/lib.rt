// The queue engine of van Vliet and Verwer (1988): from the positions in a stretch of the queue the change
// spreads to their neighbours, layer by layer, and each changed pixel is queued once. The operations and the
// labelling are made of these functions. All of them require what an entry point has tested.
#![tactic(auto)]

ghost use Rattle.std.specs.Prelude.{◌≡◌};

pub mod inner;

// How pixels change from neighbour to neighbour: in which crop, by which connectivity, from which value
// to which. Where there is a mask, only pixels at which it holds the value `allowed` change; an empty
// mask is none.
#[derive(Clone, Copy)]
pub struct Rule {
    pub width: usize,
    pub height: usize,
    pub connectivity: u8,
    pub old: u8,
    pub new: u8,
    pub allowed: u8,
}

impl Rule {
    // From one value to another, where the mask, if there is one, holds 1.
    pub fn changing(width: usize, height: usize, connectivity: u8, old: u8, new: u8) -> Rule
        ensures { result ≡ record {
          width = width;
          height = height;
          connectivity = connectivity;
          old = old;
          new = new;
          allowed = 1;
        } }
    {
        Rule {
            width,
            height,
            connectivity,
            old,
            new,
            allowed: 1,
        }
    }
}

// What layer after layer changed: the last layer stands in the queue from `from` up to `to`, and `used`
// layers were not empty.
#[derive(Clone, Copy)]
pub struct Growth {
    pub from: usize,
    pub to: usize,
    pub used: usize,
}
