// Functions that require what the entry points of the crates above have tested. Those that write a buffer
// put bytes at its position `at` and return the position behind them.
pub mod band;
pub mod groups;
pub mod words;

ghost use Rattle.std.specs.Prelude.{◌≡◌, ◌∷◌, [], ◌+◌, ◌-◌, ◌*◌, ◌≤◌, ◌<◌, length};
ghost use Rattle.lists.specs.Lists.{tabulate};
ghost use Rattle.neighbours.specs.Crop.{ValidSize, Sized, Appended};
ghost use Rattle.neighbours.specs.Packed.{padded_pixel};
ghost use Rattle.model.specs.Codec.{u16_bytes, u16_at, byte_bits, row_bytes, packed_length, packed_byte, packed_pixel};
ghost use Rattle.model.specs.Codec.{packed, unpacked, padding_set};
ghost use Rattle.packing.specs.Rows.{RowOf, PackedRowOf, Packable, PackableRow};
ghost use Rattle.packing.specs.Rows.{packed_row, row_unpacked, row_padding_set};
ghost use Rattle.model.specs.Limits.{u16_limit};
ghost use Rattle.neighbours.specs.Limits.{max_side};

use crate::inner::groups::{eight_pixels, group_bits, put_bytes, spread_bits};

// ---- numbers

// The number of 16 bits at a position.
pub fn u16_at(bytes: &[u8], at: usize) -> usize
    requires { at + 1 < length bytes.now }
    ensures { result ≡ u16_at bytes.now at }
{
    usize::from(u16::from_be_bytes([bytes[at], bytes[at + 1]]))
}

// Writes one byte.
pub fn put_byte(buffer: &mut [u8], at: usize, byte: u8) -> usize
    requires { at < length buffer.old }
    ensures { Appended buffer.old at (byte ∷ []) buffer.new result }
{
    buffer[at] = byte;
    at + 1
}

// Writes a number of 16 bits.
pub fn put_u16(buffer: &mut [u8], at: usize, n: usize) -> usize
    requires at_in_bounds { at + 1 < length buffer.old }
    requires n_lt_u16limit { n < u16_limit }
    ensures { Appended buffer.old at (u16_bytes n) buffer.new result }
{
    buffer[at..at + 2].copy_from_slice(&(n as u16).to_be_bytes());
    at + 2
}

// ---- packed images

// The bytes of a packed row.
pub fn row_bytes(width: usize) -> usize
    requires { width ≤ max_side }
    ensures { result ≡ row_bytes width }
{
    width.div_ceil(8)
}

// The bytes of a packed image.
pub fn packed_length(width: usize, height: usize) -> usize
    requires width_le_max_side { width ≤ max_side }
    requires height_le_max_side { height ≤ max_side }
    ensures { result ≡ packed_length width height }
{
    row_bytes(width) * height
}

// The bit in column `x` of row `y` of a packed image, padding included.
pub fn packed_pixel(width: usize, packed: &[u8], x: usize, y: usize) -> u8
    requires packed_row_of { PackedRowOf byte_bits width packed.now y }
    requires x_bound { x < 8 * row_bytes width }
    ensures { result ≡ packed_pixel width packed.now x y }
{
    let byte = packed[y * row_bytes(width) + x / 8];
    (byte >> (7 - x % 8)) & 1
}

// Whether a bit behind the end of row `y` is set.
fn row_padding_set(width: usize, packed: &[u8], y: usize) -> bool
    requires { PackedRowOf byte_bits width packed.now y }
    ensures { result ≡ row_padding_set byte_bits width packed.now y }
{
    (width..8 * row_bytes(width)).any(|x| packed_pixel(width, packed, x, y) == 1)
}

// Whether a padding bit of a packed image is set.
pub fn padding_set(width: usize, height: usize, packed: &[u8]) -> bool
    requires valid_size { ValidSize width height }
    requires packed_len { length packed.now ≡ packed_length width height }
    ensures { result ≡ padding_set width height packed.now }
{
    // Rows that end with a byte have no padding, so that a job's images need not be looked along.
    if width % 8 == 0 {
        return false;
    }
    (0..height).any(|y| row_padding_set(width, packed, y))
}

// Unpacks the first bytes of row `y`, each of which holds eight pixels of the row, into their place in an image.
fn unpack_groups(width: usize, packed: &[u8], y: usize, groups: usize, image: &mut [u8])
    requires packed_row_of { PackedRowOf byte_bits width packed.now y }
    requires width_in_bounds { y * width + width ≤ length image.old }
    requires groups_bound { 8 * groups ≤ width }
    ensures { Appended image.old (y * width)
        (tabulate (8 * groups) (λ x. packed_pixel width packed.now x y))
        image.new (y * width + 8 * groups) }
{
    let first = y * row_bytes(width);
    for (k, byte) in packed[first..first + groups].iter().enumerate() {
        put_bytes(spread_bits(u64::from(*byte)), image, y * width + 8 * k);
    }
}

// Unpacks row `y` from column `from` on into its place in an image, pixel by pixel.
fn unpack_rest(width: usize, packed: &[u8], y: usize, from: usize, image: &mut [u8])
    requires packed_row_of { PackedRowOf byte_bits width packed.now y }
    requires width_in_bounds { y * width + width ≤ length image.old }
    requires from_le_width { from ≤ width }
    ensures { Appended image.old (y * width + from)
        (tabulate (width - from) (λ k. packed_pixel width packed.now (from + k) y))
        image.new (y * width + width) }
{
    for x in from..width {
        image[y * width + x] = packed_pixel(width, packed, x, y);
    }
}

// Unpacks row `y` into its place in an image.
fn unpack_row(width: usize, packed: &[u8], y: usize, image: &mut [u8])
    requires packed_row_of { PackedRowOf byte_bits width packed.now y }
    requires width_in_bounds { y * width + width ≤ length image.old }
    ensures { Appended image.old (y * width) (row_unpacked byte_bits width packed.now y)
        image.new (y * width + width) }
{
    let groups = width / 8;
    unpack_groups(width, packed, y, groups, image);
    unpack_rest(width, packed, y, 8 * groups, image);
}

// Unpacks an image.
pub fn unpack(width: usize, height: usize, packed: &[u8], image: &mut [u8])
    requires sized { Sized width height image.old }
    requires packed_len { length packed.now ≡ packed_length width height }
    ensures { image.new ≡ unpacked width height packed.now }
{
    for y in 0..height {
        unpack_row(width, packed, y, image);
    }
}

// The pixel in column `x` of row `y`, 0 behind the row's end.
fn padded_pixel(width: usize, image: &[u8], x: usize, y: usize) -> u8
    requires { RowOf width image.now y }
    ensures { result ≡ padded_pixel width image.now x y }
{
    if x < width {
        return image[y * width + x];
    }
    0
}

// The pixels of row `y` from column `x` on as a byte, the first in the top bit, zeros behind the row's end. They are
// read one by one.
fn padded_byte(width: usize, height: usize, image: &[u8], x: usize, y: usize) -> u8
    requires packable_row { PackableRow width height image.now y }
    requires x_le_max_side { x ≤ max_side }
    ensures { result ≡ packed_byte width image.now x y }
{
    let mut byte: u8 = 0;
    for k in 0..8 {
        byte = byte * 2 + padded_pixel(width, image, x + k, y);
    }
    byte
}

// The same byte, by a group of eight pixels where the row has as many left.
fn packed_byte(width: usize, height: usize, image: &[u8], x: usize, y: usize) -> u8
    requires packable_row { PackableRow width height image.now y }
    requires x_le_max_side { x ≤ max_side }
    ensures { result ≡ packed_byte width image.now x y }
{
    if x + 8 <= width {
        return group_bits(eight_pixels(image, y * width + x)) as u8;
    }
    padded_byte(width, height, image, x, y)
}

// Packs row `y`.
fn pack_row(
    width: usize,
    height: usize,
    image: &[u8],
    y: usize,
    buffer: &mut [u8],
    at: usize,
) -> usize
    requires packable_row { PackableRow width height image.now y }
    requires width_in_bounds { at + row_bytes width ≤ length buffer.old }
    ensures { Appended buffer.old at (packed_row byte_bits width image.now y) buffer.new
        result }
{
    let count = row_bytes(width);
    for k in 0..count {
        buffer[at + k] = packed_byte(width, height, image, 8 * k, y);
    }
    at + count
}

// Packs an image.
pub fn pack(width: usize, height: usize, image: &[u8], buffer: &mut [u8], at: usize) -> usize
    requires packable { Packable width height image.now }
    requires height_in_bounds { at + packed_length width height ≤ length buffer.old }
    ensures { Appended buffer.old at (packed width height image.now) buffer.new result }
{
    let mut end = at;
    for y in 0..height {
        end = pack_row(width, height, image, y, buffer, end);
    }
    end
}
