// Functions that require what `lane_listing` has tested, or has made so. Those that write put lines at
// position `at` of the listing and return the position behind them; no line has more than `LINE_ROOM` bytes.
ghost use mathlib.Core.List.{[], ◌∷◌, ◌++◌, map, flat_map};
ghost use Rattle.std.specs.Prelude.{◌+◌, ◌*◌, ◌≤◌, ◌<◌, length, take};
ghost use Rattle.lists.specs.Lists.{count_from};
ghost use Rattle.lists.specs.Text.{ascii};
ghost use Rattle.neighbours.specs.Crop.{Appended};
ghost use Rattle.model.specs.Limits.{max_steps, line_room};
ghost use Rattle.model.specs.Refusals.{number};
ghost use Rattle.model.specs.Listing.{line, refusal_listing, step_lines, part_line, lane_listing};
ghost use Rattle.model.specs.Answers.{report_reply};
ghost use Rattle.component_records.specs.Records.{HasRecord};
ghost use Rattle.listing.specs.Inner.{HasRecords, Listed, Listable};

use job::inner::read;
use lines::inner::put_line;
use model::{Counts, JobHead, Label, RECORD_LENGTH, Refusal, Report, Step};
use neighbours::Position;

// Writes the line of a refusal.
pub fn put_refusal(listing: &mut [u8], at: usize, refusal: Refusal) -> usize
    requires { at + line_room ≤ length listing.old }
    ensures { Appended listing.old at (refusal_listing (number refusal)) listing.new result }
{
    put_line(listing, at, b"refused", &[u32::from(u8::from(refusal))])
}

// Writes the lines of the steps, each with its report.
fn put_steps(listing: &mut [u8], at: usize, steps: &[Step], reports: &[Report]) -> usize
    requires few { length steps.now ≤ max_steps }
    requires reported { length steps.now ≤ length reports.now }
    requires room { at + line_room * length steps.now ≤ length listing.old }
    ensures { Appended listing.old at
        (step_lines 1 steps.now (map report_reply (take (length steps.now) reports.now))) listing.new result }
{
    let mut end = at;
    for (k, step) in steps.iter().enumerate() {
        let report = reports[k];
        let place = k as u32 + 1;
        let kind = u32::from(model::kind_of(*step));
        let fields = [place, kind, report.changed, report.used, report.contour_len];
        end = put_line(listing, end, b"step", &fields);
    }
    end
}

// Writes the line of component `p`: its record and its depth.
fn put_part(listing: &mut [u8], at: usize, records: &[u32], p: usize) -> usize
    requires has_record { HasRecord p records.now }
    requires line_room_in_bounds { at + line_room ≤ length listing.old }
    ensures { Appended listing.old at (part_line records.now p) listing.new result }
{
    let first = RECORD_LENGTH * (p - 1);
    let mut fields = [0; RECORD_LENGTH + 1];
    fields[..RECORD_LENGTH].copy_from_slice(&records[first..first + RECORD_LENGTH]);
    fields[RECORD_LENGTH] = nesting::depth(records, p as u32);
    put_line(listing, at, b"part", &fields)
}

// Writes the line of the components and the holes, and a line for each component.
fn put_parts(listing: &mut [u8], at: usize, counts: Counts, records: &[u32]) -> usize
    requires has_records { HasRecords counts.components records.now }
    requires components_in_bounds { at + line_room + line_room * counts.components ≤ length listing.old }
    ensures { Appended listing.old at
        (line (ascii "parts") (counts.components ∷ counts.holes ∷ []) ++ flat_map (part_line records.now)
        (count_from 1 counts.components)) listing.new result }
{
    let mut end = put_line(listing, at, b"parts", &[counts.components, counts.holes]);
    for p in 1..=counts.components as usize {
        end = put_part(listing, end, records, p);
    }
    end
}

// Writes the listing of a job that was run, and whose last image was labelled.
fn put_listing(
    listing: &mut [u8],
    width: usize,
    height: usize,
    steps: &[Step],
    reports: &[Report],
    counts: Counts,
    records: &[u32],
) -> usize
    requires listed { Listed width height (length steps.now) counts.components records.now listing.old }
    requires reported { length steps.now ≤ length reports.now }
    ensures { Appended listing.old 0
        ((line (ascii "plate") (width ∷ height ∷ length steps.now ∷ []) ++ step_lines 1 steps.now
        (map report_reply (take (length steps.now) reports.now))) ++ line (ascii "parts")
        (counts.components ∷ counts.holes ∷ []) ++ flat_map (part_line records.now)
        (count_from 1 counts.components)) listing.new result }
{
    let plate = [width as u32, height as u32, steps.len() as u32];
    let steps_at = put_line(listing, 0, b"plate", &plate);
    let parts_at = put_steps(listing, steps_at, steps, reports);
    put_parts(listing, parts_at, counts, records)
}

// Runs a job that was read, labels its last image and writes the listing. The buffers have the crop's
// size, and the workspaces are zeros.
pub fn list_job(
    bytes: &[u8],
    job: &JobHead,
    image: &mut [u8],
    mask: &mut [u8],
    queue: &mut [Position],
    components: &mut [Label],
    holes: &mut [Label],
    records: &mut [u32],
    listing: &mut [u8],
) -> usize
    requires { Listable bytes.now job.now image.old mask.old queue.old components.old holes.old records.old
        listing.old }
    ensures { Appended listing.old 0 (lane_listing bytes.now) listing.new result }
{
    let width = job.width;
    let height = job.height;
    let steps = job.steps.as_slice();
    read::unpack_images(width, height, bytes, job.at, image, mask);
    let ran = runner::inner::run_list(width, height, steps, image, mask, queue);
    match labelling::label_image(width, height, image, queue, 8, components, holes, records) {
        Ok(counts) => put_listing(listing, width, height, steps, &ran.reports, counts, records),
        Err(refusal) => put_refusal(listing, 0, refusal),
    }
}
