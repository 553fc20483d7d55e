// Steps in hand: an empty list, and how long a step's record is.
ghost use Rattle.std.specs.Prelude.{◌≡◌, replicate};
ghost use Rattle.model.specs.Limits.{max_steps};
ghost use Rattle.model.specs.Codec.{kind_length};
ghost use Rattle.model.specs.StepList.{unused_step};

use model::{MAX_STEPS, Step, Steps};

// A list without steps.
pub fn none() -> Steps
    ensures slots { result.slots ≡ replicate max_steps unused_step }
    ensures count { result.count ≡ 0 }
{
    let unused = Step::Dilate {
        connectivity: 4,
        iterations: 0,
    };
    Steps {
        slots: [unused; MAX_STEPS],
        count: 0,
    }
}

// How many bytes follow the length byte of a step record, by its kind; 0 for an unknown kind, which is the length of no
// record (01).
const KIND_LENGTHS: [u8; 8] = [0, 5, 4, 4, 6, 2, 0, 5];

pub fn kind_length(kind: u8) -> u8
    ensures { result ≡ kind_length kind }
{
    if 7 < kind {
        return 0;
    }
    KIND_LENGTHS[usize::from(kind)]
}
