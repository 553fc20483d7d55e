// The lane program of document 01: reads a job from standard input and writes its listing to standard
// output. Only reading and writing is done here; `listing::lane_listing` is proved to be the rest.
#![tactic(auto)]

use listing::LISTING_ROOM;
use std::io;
use std::io::Write;

// A job has at most 65,535 bytes, so one that fills the buffer is refused by its length.
const INPUT_ROOM: usize = 65536;

fn main(rt: HostRuntime) -> io::Result<()> {
    let mut bytes = [0u8; INPUT_ROOM];
    let n = input::read_full(&mut rt.stdin(), &mut bytes)?;
    let mut listing = [0u8; LISTING_ROOM];
    let len = listing::lane_listing(&bytes[..n], &mut listing);
    rt.stdout().write_all(&listing[..len])
}
