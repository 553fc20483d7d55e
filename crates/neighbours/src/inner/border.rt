// The border of a crop, strip by strip. The crates above visit the pixels of the strips and know nothing else of them.
ghost use Rattle.std.specs.Prelude.{◌≡◌, ◌<◌};
ghost use Rattle.neighbours.specs.Crop.{ValidSize};
ghost use Rattle.neighbours.specs.Border.{border_strip, strip_side, exposed_strip};

use crate::{BOTTOM_SIDE, LEFT_SIDE, RIGHT_SIDE, Strip, TOP_SIDE, inner};

// The border's `k`-th strip: the first row, the last row, the first column, the last column.
pub fn border_strip(width: usize, height: usize, k: usize) -> Strip
    requires valid_size { ValidSize width height }
    requires k_bound { k < 4 }
    ensures { result ≡ border_strip width height k }
{
    match k {
        0 => Strip {
            from: 0,
            step: 1,
            count: width,
        },
        1 => Strip {
            from: (height - 1) * width,
            step: 1,
            count: width,
        },
        2 => Strip {
            from: 0,
            step: width,
            count: height,
        },
        _ => Strip {
            from: width - 1,
            step: width,
            count: height,
        },
    }
}

// The side that the border's `k`-th strip lies along. A number: the strips are visited in this order by a `for`.
fn strip_side(k: usize) -> u8
    ensures { result ≡ strip_side k }
{
    match k {
        0 => TOP_SIDE,
        1 => BOTTOM_SIDE,
        2 => LEFT_SIDE,
        _ => RIGHT_SIDE,
    }
}

// The border's `k`-th strip where its side is not named, and else a strip without positions.
pub fn exposed_strip(width: usize, height: usize, sides: u8, k: usize) -> Strip
    requires valid_size { ValidSize width height }
    requires k_bound { k < 4 }
    ensures { result ≡ exposed_strip width height sides k }
{
    if inner::has_side(sides, strip_side(k)) {
        return Strip {
            from: 0,
            step: 0,
            count: 0,
        };
    }
    border_strip(width, height, k)
}
