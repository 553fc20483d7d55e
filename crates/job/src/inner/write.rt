// A job, written as bytes: its head, its step records one after another, and its packed images. The
// functions that write put bytes at position `at` of the buffer and return the position behind them.
ghost use Rattle.std.specs.Prelude.{◌≡◌, ◌+◌, ◌*◌, ◌≤◌, length};
ghost use mathlib.Core.List.{[], ◌∷◌, ◌++◌, flat_map};
ghost use Rattle.std.proofs.Math.Option.{none};
ghost use Rattle.neighbours.specs.Crop.{ValidSize, Appended};
ghost use Rattle.model.specs.Limits.{max_steps};
ghost use Rattle.model.specs.Refusals.{refusal, first_refusal};
ghost use Rattle.model.specs.Codec.{u16_bytes, field_bytes, step_bytes, job_length, job_bytes, write_refusal};
ghost use Rattle.model.specs.Answers.{job_of};
ghost use Rattle.job.specs.Writing.{written_checks, HeadFits};

use crate::inner::steps;
use judging::refuse_if;
use model::{HEAD_LENGTH, MAX_JOB_SIDE, Refusal, Step};
use packing::inner::{pack, packed_length, put_byte, put_u16};

// ---- lengths

// The bytes of a step record, its length byte included.
fn step_length(step: Step) -> usize
    ensures { result ≡ length (step_bytes step) }
{
    1 + usize::from(steps::kind_length(model::kind_of(step)))
}

// The bytes of all step records.
fn steps_length(steps: &[Step]) -> usize
    requires { length steps.now ≤ max_steps }
    ensures { result ≡ length (flat_map step_bytes steps.now) }
{
    steps.iter().map(|step| step_length(*step)).sum()
}

// The whole length of a job in bytes.
pub fn job_length(width: usize, height: usize, steps: &[Step]) -> usize
    requires valid_size { ValidSize width height }
    requires few_steps { length steps.now ≤ max_steps }
    ensures { result ≡ job_length (job_of width height steps.now [] []) }
{
    HEAD_LENGTH + steps_length(steps) + 2 * packed_length(width, height)
}

// ---- the refusals of writing

// Whether the buffers of a job fit: an image and a mask of the crop's size, a buffer of the job's length,
// pixels of 0 and 1.
fn judge_buffers(
    width: usize,
    height: usize,
    needed: usize,
    image: &[u8],
    mask: &[u8],
    buffer: &[u8],
) -> Result<(), Refusal>
    requires { ValidSize width height }
    ensures { refusal result
        ≡ first_refusal
        (written_checks (width * height) needed image.now mask.now buffer.now) }
{
    let pixels = width * height;
    refuse_if(
        image.len() != pixels || mask.len() != pixels || buffer.len() != needed,
        Refusal::BadLength,
    )?;
    refuse_if(
        judging::has_bad_pixel(image) || judging::has_bad_pixel(mask),
        Refusal::BadPixel,
    )
}

// Whether writing refuses a job.
pub fn judge_written(
    width: usize,
    height: usize,
    steps: &[Step],
    image: &[u8],
    mask: &[u8],
    buffer: &[u8],
) -> Result<(), Refusal>
    ensures { refusal result
        ≡ write_refusal (job_of width height steps.now image.now mask.now) buffer.now }
{
    judging::judge_list(MAX_JOB_SIDE, width, height, steps)?;
    let needed = job_length(width, height, steps);
    judge_buffers(width, height, needed, image, mask, buffer)
}

// ---- writing

// Writes a byte and a number of 16 bits.
fn put_byte_u16(buffer: &mut [u8], at: usize, byte: u8, number: u16) -> usize
    requires { at + 3 ≤ length buffer.old }
    ensures { Appended buffer.old at (byte ∷ u16_bytes number) buffer.new result }
{
    let number_at = put_byte(buffer, at, byte);
    put_u16(buffer, number_at, usize::from(number))
}

// Writes the fields of an erosion: a border value or sides say what lies outside.
fn put_erosion(
    buffer: &mut [u8],
    at: usize,
    connectivity: u8,
    outside: u8,
    iterations: u16,
) -> usize
    requires { at + 4 ≤ length buffer.old }
    ensures { Appended buffer.old at (connectivity ∷ outside ∷ u16_bytes iterations)
        buffer.new result }
{
    let outside_at = put_byte(buffer, at, connectivity);
    put_byte_u16(buffer, outside_at, outside, iterations)
}

// Writes the fields of a step.
fn put_fields(buffer: &mut [u8], at: usize, step: Step) -> usize
    requires { at + length (field_bytes step) ≤ length buffer.old }
    ensures { Appended buffer.old at (field_bytes step) buffer.new result }
{
    match step {
        Step::Erode {
            connectivity,
            border_value,
            iterations,
        } => put_erosion(buffer, at, connectivity, border_value, iterations),
        Step::Dilate {
            connectivity,
            iterations,
        } => put_byte_u16(buffer, at, connectivity, iterations),
        Step::Propagate {
            connectivity,
            iterations,
        } => put_byte_u16(buffer, at, connectivity, iterations),
        Step::FloodFill { connectivity, x, y } => {
            let y_at = put_byte_u16(buffer, at, connectivity, x);
            put_u16(buffer, y_at, usize::from(y))
        }
        Step::ClearBorder { connectivity } => put_byte(buffer, at, connectivity),
        Step::ErodeBySides {
            connectivity,
            sides,
            iterations,
        } => put_erosion(buffer, at, connectivity, sides, iterations),
    }
}

// Writes a step record.
fn put_step(buffer: &mut [u8], at: usize, step: Step) -> usize
    requires { at + length (step_bytes step) ≤ length buffer.old }
    ensures { Appended buffer.old at (step_bytes step) buffer.new result }
{
    let kind = model::kind_of(step);
    let kind_at = put_byte(buffer, at, steps::kind_length(kind));
    let fields_at = put_byte(buffer, kind_at, kind);
    put_fields(buffer, fields_at, step)
}

// Writes all step records.
fn put_steps(buffer: &mut [u8], at: usize, steps: &[Step]) -> usize
    requires { at + length (flat_map step_bytes steps.now) ≤ length buffer.old }
    ensures { Appended buffer.old at (flat_map step_bytes steps.now) buffer.new result }
{
    let mut end = at;
    for step in steps {
        end = put_step(buffer, end, *step);
    }
    end
}

// Writes a job's head to a buffer of the job's length.
fn put_head(buffer: &mut [u8], width: usize, height: usize, total: usize) -> usize
    requires { HeadFits width height total buffer.old }
    ensures { Appended buffer.old 0
        ((1 ∷ u16_bytes (length buffer.old)) ++ u16_bytes width ++ u16_bytes height ++ (total ∷ []))
        buffer.new result }
{
    let whole = buffer.len();
    let whole_at = put_byte(buffer, 0, 1);
    let width_at = put_u16(buffer, whole_at, whole);
    let height_at = put_u16(buffer, width_at, width);
    let total_at = put_u16(buffer, height_at, height);
    put_byte(buffer, total_at, total as u8)
}

// Writes a job that is not refused.
pub fn write(
    width: usize,
    height: usize,
    steps: &[Step],
    image: &[u8],
    mask: &[u8],
    buffer: &mut [u8],
)
    requires { write_refusal (job_of width height steps.now image.now mask.now) buffer.old ≡ none }
    ensures { buffer.new ≡ job_bytes (job_of width height steps.now image.now mask.now) }
{
    let steps_at = put_head(buffer, width, height, steps.len());
    let image_at = put_steps(buffer, steps_at, steps);
    let mask_at = pack(width, height, image, buffer, image_at);
    pack(width, height, mask, buffer, mask_at);
}
