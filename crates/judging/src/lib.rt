// The conditions of the table's rows "buffers" and "operation", for calls and lists of steps with any arguments:
// each is judged in one place, and the entry points of the crates above ask here.
#![tactic(auto)]

ghost use Rattle.std.specs.Prelude.{◌≡◌, not, ◌||◌, ◌≤◌, leb, ltb};
ghost use mathlib.Core.List.{◌∷◌, [], ◌++◌, flat_map};
ghost use Rattle.lists.specs.Lists.{any};
ghost use Rattle.neighbours.specs.Grid.{is_connectivity};
ghost use Rattle.model.specs.Refusals.{refusal, bad_side, bad_pixel, refuse_if, first_refusal, buffer_checks};
ghost use Rattle.model.specs.Refusals.{connectivity_check, step_checks, reads_mask, operation_buffers};
ghost use Rattle.model.specs.Codec.{list_checks};
ghost use Rattle.model.specs.declared.Refusal.TheVariants.{BadBorderValue, SeedOutside};
ghost use Rattle.model.specs.Widening.{widen_refusal};
ghost use Rattle.judging.specs.Lengths.{size_checks, length_checks};

use model::{Label, MAX_STEPS, Refusal, Step};
use neighbours::{ALL_SIDES, MAX_SIDE, Position};

// Refuses where a condition holds, so that a row of the table is its checks one after another.
pub fn refuse_if(condition: bool, reason: Refusal) -> Result<(), Refusal>
    ensures { refusal result ≡ refuse_if condition reason }
{
    if condition { Err(reason) } else { Ok(()) }
}

// ---- the row "buffers"

// Whether a side is outside 1 to the limit.
fn bad_side(limit: usize, side: usize) -> bool
    ensures { result ≡ bad_side limit side }
{
    side < 1 || limit < side
}

// Whether one of a crop's sides is.
pub fn bad_size(limit: usize, width: usize, height: usize) -> bool
    ensures { result ≡ (bad_side limit width || bad_side limit height) }
{
    bad_side(limit, width) || bad_side(limit, height)
}

// Whether a pixel is neither 0 nor 1. One pass without an early exit, which compiles to vector code.
pub fn has_bad_pixel(pixels: &[u8]) -> bool
    ensures { result ≡ any bad_pixel pixels.now }
{
    let mut most: u8 = 0;
    for pixel in pixels {
        most = most.max(*pixel);
    }
    1 < most
}

// Conditions 1 and 2 of the row "buffers": the sides, and the lengths of up to three buffers with an entry a
// pixel.
fn judge_sizes(
    width: usize,
    height: usize,
    first: usize,
    second: usize,
    third: usize,
) -> Result<(), Refusal>
    ensures { refusal result ≡ first_refusal (size_checks width height first second third) }
{
    refuse_if(bad_size(MAX_SIDE, width, height), Refusal::BadSize)?;
    let pixels = width * height;
    refuse_if(
        first != pixels || second != pixels || third != pixels,
        Refusal::BadLength,
    )
}

// Conditions 1 to 3: the queue's length too. A caller with fewer than three buffers gives a length again, and judges
// the pixels, condition 4, behind this.
pub fn judge_lengths(
    width: usize,
    height: usize,
    first: usize,
    second: usize,
    third: usize,
    queue: usize,
) -> Result<(), Refusal>
    ensures { refusal result ≡ first_refusal (length_checks width height first second third queue) }
{
    judge_sizes(width, height, first, second, third)?;
    refuse_if(queue < width * height, Refusal::QueueTooShort)
}

// The row "buffers" for a call on an image and a queue.
pub fn judge(width: usize, height: usize, image: &[u8], queue: &[Position]) -> Result<(), Refusal>
    ensures { refusal result ≡ first_refusal
        (buffer_checks width height (image.now ∷ []) queue.now (image.now ∷ [])) }
{
    let len = image.len();
    judge_lengths(width, height, len, len, len, queue.len())?;
    refuse_if(has_bad_pixel(image), Refusal::BadPixel)
}

// The row "buffers" for a call with a mask too.
pub fn judge_masked(
    width: usize,
    height: usize,
    image: &[u8],
    mask: &[u8],
    queue: &[Position],
) -> Result<(), Refusal>
    ensures { refusal result ≡ first_refusal
        (buffer_checks width height (image.now ∷ mask.now ∷ []) queue.now
        (image.now ∷ mask.now ∷ [])) }
{
    let len = image.len();
    judge_lengths(width, height, len, mask.len(), len, queue.len())?;
    refuse_if(
        has_bad_pixel(image) || has_bad_pixel(mask),
        Refusal::BadPixel,
    )
}

// The row "buffers" for a call with two maps of labels, whose entries may be anything.
pub fn judge_maps(
    width: usize,
    height: usize,
    image: &[u8],
    components: &[Label],
    holes: &[Label],
    queue: &[Position],
) -> Result<(), Refusal>
    ensures { refusal result ≡ first_refusal
        (buffer_checks width height (image.now ∷ components.now ∷ holes.now ∷ [])
        queue.now (image.now ∷ [])) }
{
    judge_lengths(
        width,
        height,
        image.len(),
        components.len(),
        holes.len(),
        queue.len(),
    )?;
    refuse_if(has_bad_pixel(image), Refusal::BadPixel)
}

// Conditions 1 and 2 for a map of byte labels and one of 16-bit labels, whose entries may be anything.
pub fn judge_widening(
    width: usize,
    height: usize,
    bytes: &[u8],
    labels: &[Label],
) -> Result<(), Refusal>
    ensures { refusal result ≡ widen_refusal width height bytes.now labels.now }
{
    let len = labels.len();
    judge_sizes(width, height, bytes.len(), len, len)
}

// ---- the row "operation"

// Whether a connectivity is neither 4 nor 8.
pub fn bad_connectivity(connectivity: u8) -> bool
    ensures { result ≡ not (is_connectivity connectivity) }
{
    connectivity != 4 && connectivity != 8
}

// Whether a column or a row is outside the crop.
pub fn outside(width: usize, height: usize, x: u16, y: u16) -> bool
    ensures { result ≡ (leb width x || leb height y) }
{
    width <= usize::from(x) || height <= usize::from(y)
}

// The row "operation" of the table: the connectivity.
fn judge_connectivity(connectivity: u8) -> Result<(), Refusal>
    ensures { refusal result ≡ connectivity_check connectivity }
{
    refuse_if(bad_connectivity(connectivity), Refusal::BadConnectivity)
}

// The same and the number that says what lies outside: a border value, or sides.
fn judge_erode(connectivity: u8, outside: u8, limit: u8) -> Result<(), Refusal>
    ensures { refusal result ≡ first_refusal
        (connectivity_check connectivity ∷ refuse_if (ltb limit outside) BadBorderValue ∷ []) }
{
    refuse_if(bad_connectivity(connectivity), Refusal::BadConnectivity)?;
    refuse_if(limit < outside, Refusal::BadBorderValue)
}

// The same and the position to fill from.
fn judge_flood_fill(
    width: usize,
    height: usize,
    connectivity: u8,
    x: u16,
    y: u16,
) -> Result<(), Refusal>
    ensures { refusal result ≡ first_refusal
        (connectivity_check connectivity ∷ refuse_if (leb width x || leb height y) SeedOutside ∷ []) }
{
    refuse_if(bad_connectivity(connectivity), Refusal::BadConnectivity)?;
    refuse_if(outside(width, height, x, y), Refusal::SeedOutside)
}

// The whole row for one step.
pub fn judge_step(width: usize, height: usize, step: Step) -> Result<(), Refusal>
    ensures { refusal result ≡ first_refusal (step_checks width height step) }
{
    match step {
        Step::Erode {
            connectivity,
            border_value,
            ..
        } => judge_erode(connectivity, border_value, 1),
        Step::Dilate { connectivity, .. } => judge_connectivity(connectivity),
        Step::Propagate { connectivity, .. } => judge_connectivity(connectivity),
        Step::FloodFill { connectivity, x, y } => {
            judge_flood_fill(width, height, connectivity, x, y)
        }
        Step::ClearBorder { connectivity } => judge_connectivity(connectivity),
        Step::ErodeBySides {
            connectivity,
            sides,
            ..
        } => judge_erode(connectivity, sides, ALL_SIDES),
    }
}

// ---- both rows

// Whether an operation reads a mask: propagation, kind 3.
pub fn reads_mask(step: Step) -> bool
    ensures { result ≡ reads_mask step }
{
    model::kind_of(step) == 3
}

// The row "buffers" for an operation, with the mask where it reads one.
fn judge_buffers(
    width: usize,
    height: usize,
    step: Step,
    image: &[u8],
    mask: &[u8],
    queue: &[Position],
) -> Result<(), Refusal>
    ensures { refusal result ≡ first_refusal
        (operation_buffers width height image.now queue.now step mask.now) }
{
    if reads_mask(step) {
        return judge_masked(width, height, image, mask, queue);
    }
    judge(width, height, image, queue)
}

// The rows "buffers" and "operation" for an operation.
pub fn judge_operation(
    width: usize,
    height: usize,
    step: Step,
    image: &[u8],
    mask: &[u8],
    queue: &[Position],
) -> Result<(), Refusal>
    ensures { refusal result ≡ first_refusal
        (operation_buffers width height image.now queue.now step mask.now
        ++ step_checks width height step) }
{
    judge_buffers(width, height, step, image, mask, queue)?;
    judge_step(width, height, step)
}

// ---- lists of steps

// The row "operation" of the table, for each of the steps in turn.
fn judge_steps(width: usize, height: usize, steps: &[Step]) -> Result<(), Refusal>
    ensures { refusal result ≡ first_refusal (flat_map (step_checks width height) steps.now) }
{
    for step in steps {
        judge_step(width, height, *step)?;
    }
    Ok(())
}

// What is judged of a crop's sides, against a limit, and of a list of steps before any buffer.
pub fn judge_list(limit: usize, width: usize, height: usize, steps: &[Step]) -> Result<(), Refusal>
    ensures { refusal result ≡ first_refusal (list_checks limit width height steps.now) }
{
    refuse_if(bad_size(limit, width, height), Refusal::BadSize)?;
    refuse_if(MAX_STEPS < steps.len(), Refusal::TooManySteps)?;
    judge_steps(width, height, steps)
}
