// The records of the components, in one pass over the maps, stretch by stretch: a stretch is columns of a row
// that have one label in the map of components. A record is started with its component's first stretch and
// extended by each further one. A hole's first pixel is the first of a stretch. The hole's enclosing component
// stands in the queue, at the hole's number, from then on.
pub mod map;

ghost use Rattle.std.specs.Prelude.{◌≡◌, cond, ◌||◌, ◌++◌, suc, min, max, ◌+◌, ◌-◌, ◌*◌, ◌<◌, eqb, length, get_or};
ghost use Rattle.std.specs.Prelude.{drop};
ghost use Rattle.neighbours.specs.Grid.{position};
ghost use Rattle.model.specs.Limits.{record_length};
ghost use Rattle.model.specs.Labelling.{greatest, records as all_records};
ghost use Rattle.component_records.specs.Records.{counted, InRow, record_at, with_record, HasRecord};
ghost use Rattle.component_records.specs.Records.{TakesIn, HoleBeside, started_record, extended_record};
ghost use Rattle.component_records.specs.Records.{enclosing_record};
ghost use Rattle.component_records.specs.Records.{Writable, Recording, Kept};
ghost use Rattle.neighbours.specs.Limits.{max_pixels};

use crate::Seen;
use model::{Label, RECORD_LENGTH};
use neighbours::Position;

// Starts the record of component `p` with its first stretch, from column `x` up to column `end` of row `y`.
fn start_record(records: &mut [u32], p: usize, x: usize, end: usize, y: usize, parent: usize)
    requires takes_in { TakesIn p x end y records.old }
    requires parent_lt_max_pixels { parent < max_pixels }
    ensures { records.new ≡ with_record p (started_record p x end y parent) records.old }
{
    let at = RECORD_LENGTH * (p - 1);
    records[at..at + RECORD_LENGTH].copy_from_slice(&[
        p as u32,
        x as u32,
        y as u32,
        (end - x) as u32,
        x as u32,
        y as u32,
        (end - 1) as u32,
        y as u32,
        0,
        parent as u32,
    ]);
}

// Extends the record of component `p` by a further stretch, from column `x` up to column `end` of row `y`,
// which is not above the others.
fn extend_record(records: &mut [u32], p: usize, x: usize, end: usize, y: usize)
    requires takes_in { TakesIn p x end y records.old }
    requires records_bound { get_or (record_at p records.old) 3 0 < max_pixels }
    ensures { records.new
        ≡ with_record p (extended_record x end y (record_at p records.old)) records.old }
{
    let at = RECORD_LENGTH * (p - 1);
    records[at + 3] += (end - x) as u32;
    records[at + 4] = records[at + 4].min(x as u32);
    records[at + 6] = records[at + 6].max((end - 1) as u32);
    records[at + 7] = y as u32;
}

// Counts one more hole that component `p` encloses.
fn count_hole(records: &mut [u32], p: usize)
    requires has_record { HasRecord p records.old }
    requires records_bound { get_or (record_at p records.old) 8 0 < max_pixels }
    ensures { records.new
        ≡ with_record p (enclosing_record (record_at p records.old)) records.old }
{
    records[RECORD_LENGTH * (p - 1) + 8] += 1;
}

// The enclosing component of the component that starts at `at`, in column `x`: that of the hole that holds
// the pixel to the left, or 0 for none, as a record tells it (01).
fn parent_of(holes: &[Label], queue: &[Position], at: usize, x: usize) -> usize
    requires { HoleBeside holes.now queue.now at x }
    ensures { result ≡ cond (eqb x 0 || eqb (get_or holes.now (at - 1) 0) 0) 0
        (get_or queue.now (get_or holes.now (at - 1) 0 - 1) 0) }
{
    if x == 0 {
        return 0;
    }
    let hole = map::label_at(holes, at - 1);
    if hole == 0 {
        return 0;
    }
    neighbours::inner::queued(queue, hole - 1)
}

// Records the stretch from column `x` up to column `end` of row `y` where it is in a component.
fn record_component(
    width: usize,
    height: usize,
    components: &[Label],
    holes: &[Label],
    queue: &[Position],
    records: &mut [u32],
    seen: Seen,
    x: usize,
    end: usize,
    y: usize,
) -> Seen
    requires recording { Recording width height (counted components.now) (counted holes.now) (position width x y)
        (suc (position width x y)) seen queue.now records.old }
    requires in_row { InRow width height components.now x end y }
    ensures recorded { Recording width height (counted components.now) (counted holes.now)
        (position width end y) (suc (position width x y)) result queue.now records.new }
    ensures kept { Kept result.components records.old records.new }
{
    let at = y * width + x;
    let p = map::label_at(components, at);
    if p == 0 {
        return seen;
    }
    if p <= seen.components {
        extend_record(records, p, x, end, y);
        return seen;
    }
    let parent = parent_of(holes, queue, at, x);
    start_record(records, p, x, end, y, parent);
    Seen {
        components: p,
        holes: seen.holes,
    }
}

// Records the pixel at `at` where it is a hole's first: the component to the left of it encloses the hole.
fn record_hole(
    width: usize,
    height: usize,
    components: &[Label],
    holes: &[Label],
    queue: &mut [Position],
    records: &mut [u32],
    seen: Seen,
    at: usize,
) -> Seen
    requires recording { Recording width height (counted components.now) (counted holes.now) at at seen queue.old
        records.old }
    requires at_bound { at < width * height }
    ensures recorded { Recording width height (counted components.now) (counted holes.now) at (suc at) result
        queue.new records.new }
    ensures same { result.components ≡ seen.components }
    ensures kept { Kept result.components records.old records.new }
    ensures queued { length queue.new ≡ length queue.old }
{
    let hole = map::label_at(holes, at);
    if hole <= seen.holes {
        return seen;
    }
    let parent = map::label_at(components, at - 1);
    neighbours::inner::put_queued(queue, hole - 1, parent);
    count_hole(records, parent);
    Seen {
        components: seen.components,
        holes: hole,
    }
}

// Records the pixels of row `y`, stretch by stretch. Only a stretch's first pixel can be a hole's first.
fn record_row(
    width: usize,
    height: usize,
    components: &[Label],
    holes: &[Label],
    queue: &mut [Position],
    records: &mut [u32],
    seen: Seen,
    y: usize,
) -> Seen
    requires recording { Recording width height (counted components.now) (counted holes.now) (y * width)
        (y * width) seen
        queue.old records.old }
    requires y_lt_height { y < height }
    ensures recorded { Recording width height (counted components.now) (counted holes.now)
        (suc y * width) (suc y * width) result queue.new records.new }
    ensures kept { Kept result.components records.old records.new }
    ensures queued { length queue.new ≡ length queue.old }
{
    let row = y * width;
    let mut now = seen;
    let mut x: usize = 0;
    // Each turn goes on behind a stretch of its own length, so no `for` over the columns fits.
    while x < width {
        let at = row + x;
        let end = map::label_end(components, at, row + width) - row;
        now = record_hole(width, height, components, holes, queue, records, now, at);
        now = record_component(
            width, height, components, holes, queue, records, now, x, end, y,
        );
        x = end;
    }
    now
}

// Writes the records of the components that the maps number.
pub fn write_records(
    width: usize,
    height: usize,
    components: &[Label],
    holes: &[Label],
    queue: &mut [Position],
    records: &mut [u32],
)
    requires { Writable width height (counted components.now) (counted holes.now) queue.old records.old }
    ensures written { records.new
        ≡ all_records width height (counted components.now) (counted holes.now)
        ++ drop (record_length * greatest components.now) records.old }
    ensures queued { length queue.new ≡ length queue.old }
{
    let mut seen = Seen {
        components: 0,
        holes: 0,
    };
    for y in 0..height {
        seen = record_row(width, height, components, holes, queue, records, seen, y);
    }
}
