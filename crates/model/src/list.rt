// A list of steps in fixed memory.
ghost use Rattle.std.specs.Prelude.{◌≤◌};
ghost use Rattle.model.specs.Limits.{max_steps};

use crate::{MAX_STEPS, Step};

// A list of steps that was read: the first `count` slots. The others hold a dilation by 4 without iterations.
#[derive(Clone, Copy)]
pub struct Steps {
    pub slots: [Step; MAX_STEPS],
    pub count: usize,
    ghost within: { count ≤ max_steps },
}
