// Operations on packed rows: document 02, Point 2. The rows of an image stand in words of 64 bits, each row starting a
// word, the first pixel in the top bit, and the unused bits of a row's last word are 0. Each entry point may be called
// with anything. There is a function for each operation since there is one for C.
#![tactic(auto)]

pub mod inner;

ghost use Rattle.std.specs.Prelude.{◌≡◌};
ghost use Rattle.model.specs.Refusals.{refusal, first_refusal};
ghost use Rattle.model.specs.Words.{words_checks, words_refusal, operate_words, repack_checks, pack_words};
ghost use Rattle.model.specs.Words.{unpack_words, pack_refusal, unpack_refusal};
ghost use Rattle.model.specs.Answers.{words_answered, repacked_to};
ghost use Rattle.model.specs.declared.Step.TheVariants.{Erode, Dilate, ErodeBySides};

use inner::run::Run;
use judging::refuse_if;
use model::{Refusal, Step, WordsReport};
use neighbours::{MAX_ROW_WORDS, MAX_SIDE};
use packing::inner::words;

// The entries of a frame that plates of 128 by 64 and of 200 by 48 fit in, and of one that every crop fits in. A local
// array is written whole, so that a small one saves time.
pub const SMALL_ROOM: usize = 320;

pub const ROOM: usize = (MAX_ROW_WORDS + 2) * (MAX_SIDE + 2);

// The numbers of a run, as words: how many columns and rows of words there are; all bits set by 4, and by 8; the bits
// that a flip exchanges; what lies beyond each side; of a row's last word the bits inside the crop, and what fills the
// others.
#[derive(Clone, Copy)]
pub struct Frame {
    pub columns: usize,
    pub rows: usize,
    pub four: u64,
    pub eight: u64,
    pub flip: u64,
    pub top: u64,
    pub bottom: u64,
    pub left: u64,
    pub right: u64,
    pub keep: u64,
    pub fill: u64,
}

// What a scan finds: how many positions the contour has, and how many rows it passed over.
#[derive(Clone, Copy)]
pub struct Found {
    pub len: usize,
    pub blank: usize,
}

// ---- the table's rows

// The row "buffers" of packed rows: 1, 2, and 18 in place of 3 and 4.
fn judge_rows(width: usize, height: usize, rows: &[u64]) -> Result<(), Refusal>
    ensures { refusal result ≡ first_refusal (words_checks width height rows.now) }
{
    refuse_if(judging::bad_size(MAX_SIDE, width, height), Refusal::BadSize)?;
    refuse_if(
        rows.len() != words::row_words(width) * height,
        Refusal::BadLength,
    )?;
    refuse_if(
        words::unused_set(width, height, rows),
        Refusal::UnusedBitSet,
    )
}

// The same, and the row "operation".
fn judge_words(width: usize, height: usize, rows: &[u64], step: Step) -> Result<(), Refusal>
    ensures { refusal result ≡ words_refusal width height step rows.now }
{
    judge_rows(width, height, rows)?;
    judging::judge_step(width, height, step)
}

// 1 and 2 of an image in bytes and packed rows.
fn judge_repacking(width: usize, height: usize, image: &[u8], rows: &[u64]) -> Result<(), Refusal>
    ensures { refusal result ≡ first_refusal (repack_checks width height image.now rows.now) }
{
    refuse_if(judging::bad_size(MAX_SIDE, width, height), Refusal::BadSize)?;
    refuse_if(image.len() != width * height, Refusal::BadLength)?;
    refuse_if(
        rows.len() != words::row_words(width) * height,
        Refusal::BadLength,
    )
}

// The same, and the pixels: what packing asks.
fn judge_packing(width: usize, height: usize, image: &[u8], rows: &[u64]) -> Result<(), Refusal>
    ensures { refusal result ≡ pack_refusal width height image.now rows.now }
{
    judge_repacking(width, height, image, rows)?;
    refuse_if(judging::has_bad_pixel(image), Refusal::BadPixel)
}

// The same, and the unused bits: what unpacking asks.
fn judge_unpacking(width: usize, height: usize, image: &[u8], rows: &[u64]) -> Result<(), Refusal>
    ensures { refusal result ≡ unpack_refusal width height image.now rows.now }
{
    judge_repacking(width, height, image, rows)?;
    refuse_if(
        words::unused_set(width, height, rows),
        Refusal::UnusedBitSet,
    )
}

// ---- operations

// Erosion. Outside the crop is the border value.
pub fn erode_words(
    width: usize,
    height: usize,
    rows: &mut [u64],
    connectivity: u8,
    border_value: u8,
    iterations: u16,
) -> Result<WordsReport, Refusal>
    ensures { words_answered result rows.new
        ≡ operate_words width height (Erode connectivity border_value iterations) rows.old }
{
    let step = Step::Erode {
        connectivity,
        border_value,
        iterations,
    };
    judge_words(width, height, rows, step)?;
    let sides = model::border_sides(border_value);
    let run = Run::erosion(connectivity, sides, iterations);
    Ok(inner::operate(width, height, rows, run))
}

// Erosion by sides: beyond each side of the crop is object where `sides` names it.
pub fn erode_words_by_sides(
    width: usize,
    height: usize,
    rows: &mut [u64],
    connectivity: u8,
    sides: u8,
    iterations: u16,
) -> Result<WordsReport, Refusal>
    ensures { words_answered result rows.new
        ≡ operate_words width height (ErodeBySides connectivity sides iterations) rows.old }
{
    let step = Step::ErodeBySides {
        connectivity,
        sides,
        iterations,
    };
    judge_words(width, height, rows, step)?;
    let run = Run::erosion(connectivity, sides, iterations);
    Ok(inner::operate(width, height, rows, run))
}

// Dilation. Outside the crop is background.
pub fn dilate_words(
    width: usize,
    height: usize,
    rows: &mut [u64],
    connectivity: u8,
    iterations: u16,
) -> Result<WordsReport, Refusal>
    ensures { words_answered result rows.new
        ≡ operate_words width height (Dilate connectivity iterations) rows.old }
{
    let step = Step::Dilate {
        connectivity,
        iterations,
    };
    judge_words(width, height, rows, step)?;
    let run = Run::dilation(connectivity, iterations);
    Ok(inner::operate(width, height, rows, run))
}

// ---- packing and unpacking

// Packs an image in bytes into rows of words.
pub fn pack_words(
    width: usize,
    height: usize,
    image: &[u8],
    rows: &mut [u64],
) -> Result<(), Refusal>
    ensures { repacked_to result image.now rows.new
        ≡ pack_words width height image.now rows.old }
{
    judge_packing(width, height, image, rows)?;
    words::pack_words(width, height, image, rows);
    Ok(())
}

// Unpacks rows of words into an image in bytes.
pub fn unpack_words(
    width: usize,
    height: usize,
    rows: &[u64],
    image: &mut [u8],
) -> Result<(), Refusal>
    ensures { repacked_to result image.new rows.now
        ≡ unpack_words width height image.old rows.now }
{
    judge_unpacking(width, height, image, rows)?;
    words::unpack_words(width, height, rows, image);
    Ok(())
}
