// The neighbour rules as functions. Each requires a crop within 01's limits, an image that fits it
// and a pixel inside, and tests none of this: the entry points of the crates above have.
//
// A pixel is given by its column and row, so that a caller divides once for a position and not once
// for each direction.
pub mod border;
pub mod pairs;
pub mod square;
pub mod words;

ghost use Rattle.std.specs.Prelude.{◌≡◌, true, ◌&&◌, not, ◌*◌, ◌≤◌, ◌<◌, min, max, length, get_or, set};
ghost use Rattle.neighbours.specs.Crop.{InCrop, PixelOf, OffBorder};
ghost use Rattle.neighbours.specs.Grid.{is_connectivity, directions, position, neighbour, neighbour_at};
ghost use Rattle.neighbours.specs.Grid.{across, down, all_sides, has_side, beyond, neighbour_value, has_neighbour};
ghost use Rattle.neighbours.specs.Grid.{on_border};
ghost use Rattle.std.specs.Prelude.{Some};
ghost use Rattle.neighbours.specs.Contour.{on_contour};
ghost use Rattle.neighbours.specs.Limits.{max_pixels};

use crate::{ALL_SIDES, BOTTOM_SIDE, LEFT_SIDE, Position, RIGHT_SIDE, TOP_SIDE};

// How far a direction leads to the right and down, counted from one so that nothing is below zero: two bits
// a direction, those of direction 0 last. A number and no array, which would be built anew at each use.
const ACROSS: usize = 0b10_01_00_00_00_01_10_10;

const DOWN: usize = 0b10_10_10_01_00_00_00_01;

// How far a direction, 0 to 7, leads to the right, counted from one.
fn across(direction: usize) -> usize
    requires { direction < 8 }
    ensures { result ≡ across direction }
{
    (ACROSS >> (2 * direction)) % 4
}

// How far it leads down.
fn down(direction: usize) -> usize
    requires { direction < 8 }
    ensures { result ≡ down direction }
{
    (DOWN >> (2 * direction)) % 4
}

// The position next to column `x` and row `y` in a direction, or none where that lies outside the crop.
pub fn neighbour_at(
    width: usize,
    height: usize,
    x: usize,
    y: usize,
    direction: usize,
) -> Option<usize>
    requires in_crop { InCrop width height x y }
    requires direction_bound { direction < 8 }
    ensures { result ≡ neighbour_at width height x y direction }
{
    let right = x + across(direction);
    let below = y + down(direction);
    if right < 1 || width < right || below < 1 || height < below {
        return None;
    }
    Some((below - 1) * width + (right - 1))
}

// The position next to one that is not on the border, in a direction: it is inside the crop.
pub fn neighbour_inside(width: usize, height: usize, at: usize, direction: usize) -> usize
    requires off_border { OffBorder width height at }
    requires direction_bound { direction < 8 }
    ensures { neighbour width height at direction ≡ Some result }
{
    at + across(direction) + down(direction) * width - width - 1
}

// The `k`-th direction of a connectivity: every one by 8, every second one by 4.
pub fn direction(connectivity: u8, k: usize) -> usize
    requires connectivity_value { is_connectivity connectivity ≡ true }
    requires k_lt_connectivity { k < connectivity }
    ensures { result ≡ get_or (directions connectivity) k 0 }
{
    k * (8 / usize::from(connectivity))
}

// Whether a side is among those named.
pub fn has_side(sides: u8, side: u8) -> bool
    requires { 1 ≤ side }
    ensures { result ≡ has_side sides side }
{
    sides / side % 2 == 1
}

// Whether a place is background for this side: it lies beyond the side, and the side is not named.
fn is_background_beyond(lies_beyond: bool, sides: u8, side: u8) -> bool
    requires { 1 ≤ side }
    ensures { result ≡ lies_beyond && not (has_side sides side) }
{
    lies_beyond && !has_side(sides, side)
}

// What lies outside in column `x - 1` and row `y - 1`: object where each side beyond which it lies is named.
fn beyond(width: usize, height: usize, sides: u8, x: usize, y: usize) -> u8
    ensures { result ≡ beyond width height sides x y }
{
    let background = is_background_beyond(y < 1, sides, TOP_SIDE)
        || is_background_beyond(width < x, sides, RIGHT_SIDE)
        || is_background_beyond(height < y, sides, BOTTOM_SIDE)
        || is_background_beyond(x < 1, sides, LEFT_SIDE);
    u8::from(!background)
}

// The value of the neighbour of column `x` and row `y` in a direction: the pixel's, or what lies beyond.
pub fn neighbour_value(
    width: usize,
    height: usize,
    sides: u8,
    image: &[u8],
    x: usize,
    y: usize,
    direction: usize,
) -> u8
    requires pixel_of { PixelOf width height image.now x y }
    requires direction_bound { direction < 8 }
    ensures { result ≡ neighbour_value width height sides image.now (position width x y) direction }
{
    match neighbour_at(width, height, x, y, direction) {
        Some(at) => image[at],
        None => beyond(
            width,
            height,
            sides,
            x + across(direction),
            y + down(direction),
        ),
    }
}

// Whether a neighbour of column `x` and row `y` has the value, where the named sides count as object.
pub fn has_neighbour(
    width: usize,
    height: usize,
    connectivity: u8,
    sides: u8,
    value: u8,
    image: &[u8],
    x: usize,
    y: usize,
) -> bool
    requires connectivity_value { is_connectivity connectivity ≡ true }
    requires pixel_of { PixelOf width height image.now x y }
    ensures { result ≡ has_neighbour width height connectivity sides value image.now (position width x y) }
{
    for k in 0..usize::from(connectivity) {
        let d = direction(connectivity, k);
        if neighbour_value(width, height, sides, image, x, y, d) == value {
            return true;
        }
    }
    false
}

// Whether column `x` and row `y` is in the first or last row or column.
pub fn on_border(width: usize, height: usize, x: usize, y: usize) -> bool
    requires { InCrop width height x y }
    ensures { result ≡ on_border width height (position width x y) }
{
    x == 0 || x + 1 == width || y == 0 || y + 1 == height
}

// Whether a 4-neighbour of a position that is not on the border is background. It reads all four: a
// data-dependent branch would be mispredicted.
fn beside_background(width: usize, height: usize, image: &[u8], at: usize) -> bool
    requires off_border { OffBorder width height at }
    requires image_len { length image.now ≡ width * height }
    ensures { result ≡ has_neighbour width height 4 all_sides 0 image.now at }
{
    let beside = image[at + 1].min(image[at - 1]);
    let above_below = image[at - width].min(image[at + width]);
    beside.min(above_below) == 0
}

// Whether column `x` and row `y` is an object pixel with a background 4-neighbour inside the crop.
pub fn on_contour(width: usize, height: usize, image: &[u8], x: usize, y: usize) -> bool
    requires { PixelOf width height image.now x y }
    ensures { result ≡ on_contour width height image.now (position width x y) }
{
    let at = y * width + x;
    if image[at] != 1 {
        return false;
    }
    if on_border(width, height, x, y) {
        return has_neighbour(width, height, 4, ALL_SIDES, 0, image, x, y);
    }
    beside_background(width, height, image, at)
}

// The position that entry `slot` of a queue holds.
pub fn queued(queue: &[Position], slot: usize) -> usize
    requires { slot < length queue.now }
    ensures { result ≡ get_or queue.now slot 0 }
{
    usize::from(queue[slot])
}

// Writes a position to entry `slot` of a queue.
pub fn put_queued(queue: &mut [Position], slot: usize, at: usize)
    requires slot_in_bounds { slot < length queue.old }
    requires at_lt_max_pixels { at < max_pixels }
    ensures { queue.new ≡ set queue.old slot at }
{
    queue[slot] = at as Position;
}
