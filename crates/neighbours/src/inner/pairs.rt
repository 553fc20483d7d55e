// Whether an image has a contour, in passes that compile to vector code: an object pixel and a background pixel
// next to each other are a pair, and one of them is on the contour.
ghost use Rattle.std.specs.Prelude.{◌≡◌, ℕ, ◌+◌, ◌-◌, ◌≤◌, eqb, get_or};
ghost use Rattle.lists.specs.Lists.{any, count_from, bit};
ghost use Rattle.neighbours.specs.Crop.{Sized, PairsIn, mark};
ghost use Rattle.neighbours.specs.Grid.{positions};
ghost use Rattle.neighbours.specs.Contour.{on_contour};

// 1 where two pixels are an object and a background pixel, and else 0. A mark is in no pair.
fn pair_bit(a: u8, b: u8) -> u8
    requires a_le_mark { a ≤ mark }
    requires b_le_mark { b ≤ mark }
    ensures { result ≡ bit (eqb (a + b) 1) }
{
    u8::from(a + b == 1)
}

// Whether among the pixels from `from` up to `to` one and the pixel `apart` positions behind it are a pair.
// One pass without an early exit, which compiles to vector code.
fn has_pair(image: &[u8], from: usize, to: usize, apart: usize) -> bool
    requires { PairsIn image.now from to apart }
    ensures { result ≡ any (λ i. eqb (get_or image.now i 0 + get_or image.now (i + apart) 0) 1)
        (count_from from (to - from)) }
{
    let mut found: u8 = 0;
    for at in from..to {
        found = found.max(pair_bit(image[at], image[at + apart]));
    }
    found == 1
}

// Whether a position of the crop is on the contour: exactly if two pixels one above the other, or side by
// side in a row, are a pair.
pub fn has_contour(width: usize, height: usize, image: &[u8]) -> bool
    requires sized { Sized width height image.now }
    requires by_index { (k : ℕ) → get_or image.now k 0 ≤ mark }
    ensures { result ≡ any (on_contour width height image.now) (positions width height) }
{
    if has_pair(image, 0, width * height - width, width) {
        return true;
    }
    // If no two consecutive pixels form such a pair, even across row ends, no row has one.
    if !has_pair(image, 0, width * height - 1, 1) {
        return false;
    }
    for y in 0..height {
        let start = y * width;
        if has_pair(image, start, start + width - 1, 1) {
            return true;
        }
    }
    false
}
