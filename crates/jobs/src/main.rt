// The listings of jobs that a script on standard input gives in hex, a line each. A line is echoed, and
// below it stands what the lane program prints for its bytes; a line that begins with # is echoed alone.
#![tactic(auto)]

ghost use Rattle.std.specs.Prelude.{◌+◌, ◌<◌, ◌≤◌};
ghost use Rattle.std.specs.Counts.{IsPrefixLen};

use listing::LISTING_ROOM;
use std::io;
use std::io::Write;

// Puts a hex digit behind the first `digits` of them, two to a byte, where it is one and there is room.
// Returns how many there are then.
fn put_digit(byte: u8, bytes: &mut [u8], digits: usize) -> usize
    requires { digits < usize.MAX }
    ensures { result ≤ digits + 1 }
{
    let Some(value) = char::from(byte).to_digit(16) else {
        return digits;
    };
    let Some(place) = bytes.get_mut(digits / 2) else {
        return digits;
    };
    *place = *place % 16 * 16 + value as u8;
    digits + 1
}

// Reads the bytes that a line gives in hex; what is no hex digit is passed over. Returns how many.
fn read_hex(line: &[u8], bytes: &mut [u8]) -> usize
    ensures { IsPrefixLen result bytes.new }
{
    let mut digits: usize = 0;
    for byte in line {
        digits = put_digit(*byte, bytes, digits);
    }
    (digits / 2).min(bytes.len())
}

// Writes a line, and below it the listing of the job that it gives.
fn list<W: Write>(line: &[u8], out: &mut W) -> io::Result<()> {
    out.write_all(line)?;
    out.write_all(b"\n")?;
    if line.starts_with(b"#") {
        return Ok(());
    }
    let mut bytes = [0u8; 8192];
    let n = read_hex(line, &mut bytes);
    let mut listing = [0u8; LISTING_ROOM];
    let len = listing::lane_listing(&bytes[..n], &mut listing);
    out.write_all(&listing[..len])
}

// Runs a script line by line.
fn run<W: Write>(script: &[u8], out: &mut W) -> io::Result<()> {
    for line in script.split_inclusive(|byte| *byte == b'\n') {
        list(line.strip_suffix(b"\n").unwrap_or(line), out)?;
    }
    Ok(())
}

// The largest script.
const SCRIPT_ROOM: usize = 65536;

fn main(rt: HostRuntime) -> io::Result<()> {
    let mut script = [0u8; SCRIPT_ROOM];
    let n = input::read_full(&mut rt.stdin(), &mut script)?;
    run(&script[..n], &mut rt.stdout())
}
