// The run of a list of steps, step after step on the packed image. Nothing is checked again between them, because each
// step is proved right.
ghost use Rattle.std.specs.Prelude.{◌≡◌, ◌≤◌};
ghost use Rattle.std.proofs.Math.Option.{none};
ghost use Rattle.std.specs.Prelude.{Ok};
ghost use Rattle.model.specs.Refusals.{refusal};
ghost use Rattle.model.specs.Run.{run_list, steps_refusal, run_refusal};
ghost use Rattle.model.specs.Words.{row_words};
ghost use Rattle.model.specs.Answers.{MeetsRun};
ghost use Rattle.words.specs.Frame.{frame_room, max_entries};
ghost use Rattle.words.specs.Room.{InRoom};

use judging::refuse_if;
use model::{MAX_STEPS, Refusal, Report, RunReport, Step};
use neighbours::{MAX_SIDE, Position};
use performing::inner::on_words;
use words::inner::room;
use words::{ROOM, SMALL_ROOM};

// ---- the refusals of a run

// The lent buffers of a crop with so many pixels, whatever they hold.
pub fn judge_buffers(
    pixels: usize,
    image: &[u8],
    mask: &[u8],
    queue: &[Position],
) -> Result<(), Refusal>
    ensures { refusal result ≡ run_refusal pixels image.now mask.now queue.now }
{
    refuse_if(
        image.len() != pixels || mask.len() != pixels,
        Refusal::BadLength,
    )?;
    refuse_if(queue.len() < pixels, Refusal::QueueTooShort)
}

// Steps in hand on a lent image with a lent mask.
pub fn judge_run(
    width: usize,
    height: usize,
    steps: &[Step],
    image: &[u8],
    mask: &[u8],
    queue: &[Position],
) -> Result<(), Refusal>
    ensures { refusal result
        ≡ steps_refusal width height steps.now image.now mask.now queue.now }
{
    judging::judge_list(MAX_SIDE, width, height, steps)?;
    judge_buffers(width * height, image, mask, queue)?;
    refuse_if(
        judging::has_bad_pixel(image) || judging::has_bad_pixel(mask),
        Refusal::BadPixel,
    )
}

// ---- the run

// The report of no step.
const NO_REPORT: Report = Report {
    changed: 0,
    used: 0,
    contour_len: 0,
};

// A run that is not refused, with room for the words. The image stays packed from step to step, and the contour is
// listed once, at the end.
fn run_in(
    width: usize,
    height: usize,
    steps: &[Step],
    image: &mut [u8],
    mask: &[u8],
    queue: &mut [Position],
    rows: &mut [u64],
    entries: &mut [u64],
) -> RunReport
    requires passes { steps_refusal width height steps.now image.old mask.now queue.old ≡ none }
    requires in_room { InRoom width height rows.old entries.old }
    ensures { MeetsRun
        (run_list width height steps.now image.old mask.now queue.old)
        (Ok result) image.new mask.now queue.new }
{
    room::pack(width, height, image, rows);
    let mut reports = [NO_REPORT; MAX_STEPS];
    for (k, step) in steps.iter().enumerate() {
        reports[k] = performing::inner::step_rows(
            width, height, *step, image, mask, queue, rows, entries,
        );
    }
    let contour_len = on_words::hand_on(width, height, image, queue, rows, entries);
    RunReport {
        reports,
        count: steps.len(),
        contour_len,
    }
}

// The same in a room of `N` entries for the words and as many for their frame. Not inlined: a caller would hold
// the rooms of both sizes in one stack frame, the arrays of the small one far apart.
#[inline(never)]
fn run_with<const N: usize>(
    width: usize,
    height: usize,
    steps: &[Step],
    image: &mut [u8],
    mask: &[u8],
    queue: &mut [Position],
) -> RunReport
    requires passes { steps_refusal width height steps.now image.old mask.now queue.old ≡ none }
    requires room { frame_room (row_words width) height ≤ N }
    requires few { N ≤ max_entries }
    ensures { MeetsRun
        (run_list width height steps.now image.old mask.now queue.old)
        (Ok result) image.new mask.now queue.new }
{
    let mut rows = [0u64; N];
    let mut entries = [0u64; N];
    run_in(
        width,
        height,
        steps,
        image,
        mask,
        queue,
        &mut rows,
        &mut entries,
    )
}

// A run that is not refused.
pub fn run_list(
    width: usize,
    height: usize,
    steps: &[Step],
    image: &mut [u8],
    mask: &[u8],
    queue: &mut [Position],
) -> RunReport
    requires { steps_refusal width height steps.now image.old mask.now queue.old ≡ none }
    ensures { MeetsRun
        (run_list width height steps.now image.old mask.now queue.old)
        (Ok result) image.new mask.now queue.new }
{
    if room::is_small(width, height) {
        run_with::<SMALL_ROOM>(width, height, steps, image, mask, queue)
    } else {
        run_with::<ROOM>(width, height, steps, image, mask, queue)
    }
}
