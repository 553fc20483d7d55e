// Groups of eight pixels, each a byte of 0 or 1 in an image and a bit of a byte where they are packed.
ghost use Rattle.std.specs.Prelude.{◌≡◌, ◌+◌, ◌-◌, ◌*◌, ◌^◌, ◌≤◌, ◌<◌, length};
ghost use Rattle.neighbours.specs.Crop.{Appended};
ghost use Rattle.packing.specs.Groups.{Pixels, pixel_bits, pixel_bytes, spread, gathered, bytes};

// Eight pixels, which may hold anything, as the bytes of a number, the first in the lowest byte. The compiler makes one
// load of it, which it does not of a copy into an array.
pub fn eight_pixels(image: &[u8], at: usize) -> u64
    requires { at + 8 ≤ length image.now }
    ensures { result ≡ pixel_bytes image.now at }
{
    u64::from_le_bytes([
        image[at],
        image[at + 1],
        image[at + 2],
        image[at + 3],
        image[at + 4],
        image[at + 5],
        image[at + 6],
        image[at + 7],
    ])
}

// Fewer than eight pixels as the bytes of a number, the first in the lowest byte, zeros behind them.
pub fn few_pixels(image: &[u8], at: usize, count: usize) -> u64
    requires pixels { Pixels image.now at count }
    requires count_bound { count < 8 }
    ensures { result ≡ spread (pixel_bits image.now at count * 2 ^ (8 - count)) }
{
    let mut x: u64 = 0;
    for k in 0..count {
        x |= u64::from(image[at + k]) << (8 * k);
    }
    x
}

// Eight bytes of 0 and 1 as the bits of a byte, the lowest byte in the top bit. The product adds shifted copies in
// which no two bits meet. The halves are folded before, so that it does not wrap.
pub fn group_bits(x: u64) -> u64
    requires { x ≡ spread (gathered x) }
    ensures { result ≡ gathered x }
{
    let y = (x & 0x01010101) << 4 | x >> 32;
    (y * 0x08040201) >> 24 & 255
}

// The bits of a byte as eight bytes of 0 and 1, the top bit in the lowest byte. The product has seven copies of the
// byte, each nine bits above the one before: more would wrap, so the last bit is shifted to its place.
pub fn spread_bits(byte: u64) -> u64
    requires { byte < 256 }
    ensures { result ≡ spread byte }
{
    (byte * 0x0040201008040201 >> 7 | byte << 56) & 0x0101010101010101
}

// Writes the bytes of a number, the lowest first. The compiler makes one store of it.
pub fn put_bytes(x: u64, image: &mut [u8], at: usize)
    requires { at + 8 ≤ length image.old }
    ensures { Appended image.old at (bytes x) image.new (at + 8) }
{
    image[at..at + 8].copy_from_slice(&x.to_le_bytes());
}
