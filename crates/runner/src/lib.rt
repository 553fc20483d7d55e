// The run of a list of steps. Document 01, "The plain book of demand 3": a run gives what its steps give as a
// list of calls.
//
// `run_steps` may be called with anything. What it answers, refusals included, is an equation with the
// definitions of `Run`, of the crate `model`; its `Answers` says how an answer is read. Nothing lent has changed
// after a refusal.
#![tactic(auto)]

ghost use Rattle.model.specs.Run.{run_steps};
ghost use Rattle.model.specs.Answers.{MeetsRun};

use model::{Refusal, RunReport, Step};
use neighbours::Position;

pub mod inner;

// Runs steps in hand on a lent image with a lent mask, step after step, and leaves the last image and its contour, also
// without steps.
pub fn run_steps(
    width: usize,
    height: usize,
    steps: &[Step],
    image: &mut [u8],
    mask: &[u8],
    queue: &mut [Position],
) -> Result<RunReport, Refusal>
    ensures { MeetsRun
        (run_steps width height steps.now image.old mask.now queue.old)
        result image.new mask.now queue.new }
{
    inner::judge_run(width, height, steps, image, mask, queue)?;
    Ok(inner::run_list(width, height, steps, image, mask, queue))
}
