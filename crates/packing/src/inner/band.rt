// The band of rows outside which an image has no object pixel, found by one look along the pixels from either end.
// A pixel that is not 0 counts as one, so that the image need not be judged before.
ghost use Rattle.std.specs.Prelude.{◌↔◌, ◌≡◌, ℕ, ◌≤◌, ◌<◌, length, get_or, slice_index, EachIndex, IsTrue};
ghost use Rattle.neighbours.specs.Limits.{max_pixels};
ghost use Rattle.neighbours.specs.Crop.{Sized, Band};

use crate::Rows;
use crate::inner::groups::eight_pixels;

// The pixels that one look takes in.
const LOOK: usize = 32;

// Whether the pixels of one look are background.
fn is_background(look: &[u8]) -> bool
    requires { length look.now ≡ 32 }
    ensures { IsTrue result ↔ EachIndex look.now (λ k. slice_index look.now k ≡ 0) }
{
    (eight_pixels(look, 0)
        | eight_pixels(look, 8)
        | eight_pixels(look, 16)
        | eight_pixels(look, 24))
        == 0
}

// So many pixels at the image's front are background: all before the first object pixel but the last 31 at most.
fn leading_background(image: &[u8]) -> usize
    requires { length image.now ≤ max_pixels }
    ensures within { result ≤ length image.now }
    ensures clear { (i : ℕ) → i < result → get_or image.now i 0 ≡ 0 }
{
    LOOK * image
        .chunks_exact(LOOK)
        .take_while(|look| is_background(look))
        .count()
}

// The position from which on the image's end is background, likewise. It is not before `from`.
fn trailing_background(image: &[u8], from: usize) -> usize
    requires image_len_bound { length image.now ≤ max_pixels }
    requires from_in_bounds { from ≤ length image.now }
    ensures ordered { from ≤ result }
    ensures within { result ≤ length image.now }
    ensures clear { (i : ℕ) → result ≤ i → get_or image.now i 0 ≡ 0 }
{
    let looks = image[from..]
        .rchunks_exact(LOOK)
        .take_while(|look| is_background(look))
        .count();
    image.len() - LOOK * looks
}

// The rows that have all object pixels, and where rows are left out one without on that side: its pixels are
// neighbours of the row beside it. How few rows these are is not promised; what a scan finds does not depend on it.
pub fn band_of(width: usize, height: usize, image: &[u8]) -> Rows
    requires { Sized width height image.now }
    ensures { Band width height image.now result.top result.end }
{
    let first = leading_background(image);
    let last = trailing_background(image, first);
    // The whole rows before `first`: none has an object pixel.
    let above = first / width;
    // The rows that begin before `last`, and one more.
    let end = (last + width - 1) / width + 1;
    Rows {
        top: above.saturating_sub(1),
        end: end.min(height),
    }
}
