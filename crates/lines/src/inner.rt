// Functions that write text to a buffer from its position `at` on, and return the position behind it.
// Each requires that there is room.
ghost use mathlib.Core.List.{◌∷◌, flat_map};
ghost use Rattle.std.specs.Prelude.{◌+◌, ◌*◌, ◌≤◌, ◌<◌, length};
ghost use Rattle.neighbours.specs.Crop.{Appended};
ghost use Rattle.model.specs.Listing.{decimal, line};

use packing::inner::put_byte;

// Writes a text as it is.
pub fn put_text(buffer: &mut [u8], at: usize, text: &[u8]) -> usize
    requires { at + length text.now ≤ length buffer.old }
    ensures { Appended buffer.old at text.now buffer.new result }
{
    let end = at + text.len();
    buffer[at..end].copy_from_slice(text);
    end
}

// Writes a number in decimal: the digits before the last by a call of itself, then the last one. Not by `write!`: std
// says which bytes that writes only of a `String`, which needs a heap.
pub fn put_decimal(buffer: &mut [u8], at: usize, n: u32) -> usize
    requires { at + length (decimal n) ≤ length buffer.old }
    ensures { Appended buffer.old at (decimal n) buffer.new result }
{
    let last = b'0' + (n % 10) as u8;
    if n < 10 {
        return put_byte(buffer, at, last);
    }
    let end = put_decimal(buffer, at, n / 10);
    put_byte(buffer, end, last)
}

// Writes numbers, each behind a space.
pub fn put_fields(buffer: &mut [u8], at: usize, fields: &[u32]) -> usize
    requires { at + 21 * length fields.now ≤ length buffer.old }
    ensures { Appended buffer.old at (flat_map (λ n. 32 ∷ decimal n) fields.now)
        buffer.new result }
{
    let mut end = at;
    for field in fields {
        end = put_byte(buffer, end, b' ');
        end = put_decimal(buffer, end, *field);
    }
    end
}

// Writes a line: a word, numbers behind it, and a newline.
pub fn put_line(buffer: &mut [u8], at: usize, word: &[u8], fields: &[u32]) -> usize
    requires { at + length word.now + 21 * length fields.now + 1 ≤ length buffer.old }
    ensures { Appended buffer.old at (line word.now fields.now) buffer.new result }
{
    let name_end = put_text(buffer, at, word);
    let fields_end = put_fields(buffer, name_end, fields);
    put_byte(buffer, fields_end, b'\n')
}
