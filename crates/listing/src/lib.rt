// What the lane program prints for a job: document 01, "Job and lane program". The whole of the program but
// for reading its input and writing its output.
#![tactic(auto)]

ghost use Rattle.std.specs.Prelude.{◌≤◌, length};
ghost use Rattle.neighbours.specs.Crop.{Appended};
ghost use Rattle.model.specs.Listing.{lane_listing};

use job::inner::read;
use model::{LANE_PIXELS, LANE_RECORDS, Label, MAX_STEPS, RECORD_LENGTH};
use neighbours::Position;

pub mod inner;

// The bytes of the longest line of a listing, and of the longest listing: a line of the plate, one for each
// step, one of parts, one for each record.
pub const LINE_ROOM: usize = 256;

pub const LISTING_ROOM: usize = LINE_ROOM * (2 + MAX_STEPS + LANE_RECORDS);

// Writes the listing of a job's bytes to the front of a lent buffer, which has room for every listing, and
// returns its length; what stands behind it in the buffer stays. Nothing is written before labelling has
// answered, so that a refusal stands alone.
pub fn lane_listing(bytes: &[u8], listing: &mut [u8; LISTING_ROOM]) -> usize
    ensures within { result ≤ length listing.new }
    ensures listing { Appended listing.old 0 (lane_listing bytes.now) listing.new result }
{
    let job = match read::read_within(LANE_PIXELS, bytes) {
        Ok(job) => job,
        Err(refusal) => return inner::put_refusal(listing, 0, refusal),
    };
    let pixels = job.width * job.height;
    let mut image = [0u8; LANE_PIXELS];
    let mut mask = [0u8; LANE_PIXELS];
    let mut queue = [0 as Position; LANE_PIXELS];
    let mut components = [0 as Label; LANE_PIXELS];
    let mut holes = [0 as Label; LANE_PIXELS];
    let mut records = [0u32; RECORD_LENGTH * LANE_RECORDS];
    inner::list_job(
        bytes,
        &job,
        &mut image[..pixels],
        &mut mask[..pixels],
        &mut queue[..pixels],
        &mut components[..pixels],
        &mut holes[..pixels],
        &mut records,
        listing,
    )
}
