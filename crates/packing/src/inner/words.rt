// Images with their rows packed into words of 64 bits. A row starts a word, and its first pixel is the word's top
// bit. The bits of its last word behind its last pixel are unused: 0 in what is packed here.
ghost use Rattle.std.specs.Prelude.{◌≡◌, map, ◌+◌, ◌-◌, ◌*◌, ◌/◌, ◌^◌, ◌≤◌, ◌<◌, length};
ghost use Rattle.lists.specs.Lists.{tabulate};
ghost use Rattle.neighbours.specs.Limits.{max_side};
ghost use Rattle.neighbours.specs.Crop.{ValidSize, Sized, Appended};
ghost use Rattle.neighbours.specs.Packed.{row_units, packed_length, packed_unit, packed, unpacked};
ghost use Rattle.neighbours.specs.Packed.{padding_set};
ghost use Rattle.neighbours.specs.Words.{word_bits};
ghost use Rattle.packing.specs.Rows.{PackedRowOf, Packable, PackableRow, packed_row, row_unpacked};
ghost use Rattle.packing.specs.Groups.{Pixels, pixel_bits, flipped, word_pixels};

use crate::inner::groups::{eight_pixels, few_pixels, put_bytes, spread_bits};

// ---- unused bits

// The words of a row.
pub fn row_words(width: usize) -> usize
    requires { width ≤ max_side }
    ensures { result ≡ row_units word_bits width }
{
    width.div_ceil(64)
}

// A word with ones in the unused bits of a row's last word.
pub fn unused_mask(width: usize) -> u64
    requires le_width { 1 ≤ width }
    requires width_le_max_side { width ≤ max_side }
    ensures { result ≡ 2 ^ (word_bits * row_units word_bits width - width) - 1 }
{
    (1u64 << (64 * row_words(width) - width)) - 1
}

// Whether an unused bit is set.
#[tactic(auto, using(crate::proofs::WordsLaws::row_inside))]
pub fn unused_set(width: usize, height: usize, words: &[u64]) -> bool
    requires valid_size { ValidSize width height }
    requires words_len { length words.now ≡ packed_length word_bits width height }
    ensures { result ≡ padding_set word_bits width height words.now }
{
    let m = row_words(width);
    let mask = unused_mask(width);
    let mut set: u64 = 0;
    for y in 0..height {
        set |= words[y * m + (m - 1)] & mask;
    }
    set != 0
}

// ---- words of 64 pixels

// The bits of a number flipped as a square of 8 by 8: bit g of byte j, counted from the lowest, becomes bit 8g + j,
// counted from the top. Single bits are swapped, then squares of 2 by 2, then of 4 by 4.
fn flip(x: u64) -> u64
    ensures { result ≡ flipped x }
{
    let a = (x ^ (x >> 9)) & 0x0055005500550055;
    let y = x ^ a ^ (a << 9);
    let b = (y ^ (y >> 18)) & 0x0000333300003333;
    let z = y ^ b ^ (b << 18);
    let c = (z ^ (z >> 36)) & 0x000000000f0f0f0f;
    z ^ c ^ (c << 36)
}

// The first pixels of a word woven into a number: pixel 8g + j is bit g of byte j. Those behind the last whole group
// start as bit 0, and are doubled with each group in front of them.
fn woven(image: &[u8], at: usize, count: usize) -> u64
    requires pixels { Pixels image.now at count }
    requires count_le_word_bits { count ≤ word_bits }
    ensures { flipped result ≡ pixel_bits image.now at count * 2 ^ (word_bits - count) }
{
    let groups = count / 8;
    let mut word = few_pixels(image, at + 8 * groups, count % 8);
    for g in (0..groups).rev() {
        word = word + word + eight_pixels(image, at + 8 * g);
    }
    word
}

// ---- packing

// The pixels of row `y` from column `x` on, as many as a word has, woven into a number.
fn woven_word(width: usize, height: usize, image: &[u8], x: usize, y: usize) -> u64
    requires packable_row { PackableRow width height image.now y }
    requires x_lt_width { x < width }
    ensures { flipped result ≡ packed_unit word_bits width image.now x y }
{
    woven(image, y * width + x, (width - x).min(64))
}

// Weaves the words of row `y` that have 64 pixels. The compiler makes eight loads of each, since the count is a
// constant.
fn weave_whole(width: usize, height: usize, image: &[u8], y: usize, words: &mut [u64])
    requires packable_row { PackableRow width height image.now y }
    requires width_in_bounds { y * row_units word_bits width + row_units word_bits width ≤ length words.old }
    ensures { Appended (map flipped words.old) (y * row_units word_bits width)
        (tabulate (width / word_bits) (λ k. packed_unit word_bits width image.now (word_bits * k) y))
        (map flipped words.new) (y * row_units word_bits width + width / word_bits) }
{
    let whole = width / 64;
    let first = y * row_words(width);
    for k in 0..whole {
        words[first + k] = woven(image, y * width + 64 * k, 64);
    }
}

// Weaves row `y` into its words: flipped, they are the packed row.
fn weave_row(width: usize, height: usize, image: &[u8], y: usize, words: &mut [u64])
    requires packable_row { PackableRow width height image.now y }
    requires width_in_bounds { y * row_units word_bits width + row_units word_bits width ≤ length words.old }
    ensures { Appended (map flipped words.old) (y * row_units word_bits width)
        (packed_row word_bits width image.now y)
        (map flipped words.new) (y * row_units word_bits width + row_units word_bits width) }
{
    weave_whole(width, height, image, y, words);
    let whole = width / 64;
    let m = row_words(width);
    if whole == m {
        return;
    }
    words[y * m + whole] = woven_word(width, height, image, 64 * whole, y);
}

// Weaves an image into its words.
fn weave_rows(width: usize, height: usize, image: &[u8], words: &mut [u64])
    requires packable { Packable width height image.now }
    requires words_len { length words.old ≡ packed_length word_bits width height }
    ensures { map flipped words.new ≡ packed word_bits width height image.now }
{
    for y in 0..height {
        weave_row(width, height, image, y, words);
    }
}

// Flips each word. The compiler makes vector code of the loop.
fn flip_words(words: &mut [u64])
    ensures { words.new ≡ map flipped words.old }
{
    for word in words.iter_mut() {
        *word = flip(*word);
    }
}

// Packs an image: all words are woven, then all are flipped.
pub fn pack_words(width: usize, height: usize, image: &[u8], words: &mut [u64])
    requires packable { Packable width height image.now }
    requires words_len { length words.old ≡ packed_length word_bits width height }
    ensures { words.new ≡ packed word_bits width height image.now }
{
    weave_rows(width, height, image, words);
    flip_words(words);
}

// ---- unpacking

// Writes the 64 pixels that are woven into a number.
fn put_woven(word: u64, image: &mut [u8], at: usize)
    requires { at + word_bits ≤ length image.old }
    ensures { Appended image.old at (word_pixels (flipped word) 0 word_bits)
        image.new (at + word_bits) }
{
    for g in 0..8 {
        put_bytes(word >> g & 0x0101010101010101, image, at + 8 * g);
    }
}

// Writes eight bits of a word as pixels, from bit `from` on.
fn put_group(word: u64, from: usize, image: &mut [u8], at: usize)
    requires from_bound { from + 8 ≤ word_bits }
    requires at_in_bounds { at + 8 ≤ length image.old }
    ensures { Appended image.old at (word_pixels word from 8) image.new (at + 8) }
{
    put_bytes(spread_bits(word >> (56 - from) & 255), image, at);
}

// Writes so many bits of a word as pixels, from bit `from` on.
fn put_bits(word: u64, from: usize, count: usize, image: &mut [u8], at: usize)
    requires count_bound { from + count ≤ word_bits }
    requires count_in_bounds { at + count ≤ length image.old }
    ensures { Appended image.old at (word_pixels word from count) image.new (at + count) }
{
    for k in 0..count {
        image[at + k] = (word >> (63 - (from + k)) & 1) as u8;
    }
}

// Writes the first bits of a word as so many groups of eight pixels.
fn put_groups(word: u64, groups: usize, image: &mut [u8], at: usize)
    requires groups_bound { groups ≤ 8 }
    requires groups_in_bounds { at + 8 * groups ≤ length image.old }
    ensures { Appended image.old at (word_pixels word 0 (8 * groups)) image.new (at + 8 * groups) }
{
    for k in 0..groups {
        put_group(word, 8 * k, image, at + 8 * k);
    }
}

// Writes the first `count` bits of a word as pixels.
fn unpack_word(word: u64, count: usize, image: &mut [u8], at: usize)
    requires count_le_word_bits { count ≤ word_bits }
    requires count_in_bounds { at + count ≤ length image.old }
    ensures { Appended image.old at (word_pixels word 0 count) image.new (at + count) }
{
    if count == 64 {
        put_woven(flip(word), image, at);
        return;
    }
    let groups = count / 8;
    put_groups(word, groups, image, at);
    put_bits(word, 8 * groups, count % 8, image, at + 8 * groups);
}

// Unpacks row `y` into its place in an image.
#[tactic(auto, using(crate::proofs::WordsLaws::row_words_lt))]
fn unpack_row(width: usize, words: &[u64], y: usize, image: &mut [u8])
    requires packed_row_of { PackedRowOf word_bits width words.now y }
    requires width_in_bounds { y * width + width ≤ length image.old }
    ensures { Appended image.old (y * width) (row_unpacked word_bits width words.now y)
        image.new (y * width + width) }
{
    let m = row_words(width);
    for k in 0..m {
        let count = (width - 64 * k).min(64);
        unpack_word(words[y * m + k], count, image, y * width + 64 * k);
    }
}

// Unpacks an image.
pub fn unpack_words(width: usize, height: usize, words: &[u64], image: &mut [u8])
    requires sized { Sized width height image.old }
    requires words_len { length words.now ≡ packed_length word_bits width height }
    ensures { image.new ≡ unpacked word_bits width height words.now }
{
    for y in 0..height {
        unpack_row(width, words, y, image);
    }
}
