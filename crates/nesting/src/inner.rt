// The functions of the depth. They require nothing.
ghost use Rattle.std.specs.Prelude.{◌≡◌};
ghost use Rattle.model.specs.Depth.{parent_in, depth};

use model::RECORD_LENGTH;

// The number of component `p`'s enclosing component by the records, or 0 for none, as a record tells it (01). Ten times
// `p` is worked out in 64 bits and does not wrap.
pub fn parent_in(records: &[u32], p: u32) -> u32
    ensures { result ≡ parent_in records.now p }
{
    if p == 0 {
        return 0;
    }
    let end = RECORD_LENGTH * p as usize;
    if records.len() < end {
        return 0;
    }
    let enclosing = records[end - 1];
    if enclosing < p { enclosing } else { 0 }
}

// How often `depth_within` calls itself at most. Records from anywhere may chain through every component, and
// the compiled code keeps stack for each call.
pub const NESTED_CALLS: u32 = 4096;

// The depth of component `p`, by a loop from one enclosing component to the next, which has a lower number.
pub fn climb(records: &[u32], p: u32) -> u32
    ensures { result ≡ depth records.now p }
{
    let mut at = p;
    let mut levels: u32 = 0;
    loop {
        let enclosing = parent_in(records, at);
        if enclosing == 0 {
            return levels;
        }
        at = enclosing;
        levels += 1;
    }
}

// The depth of component `p`: one more than the enclosing component's, by a call of itself on that lower
// number. Where no more calls are left, a loop climbs the rest.
pub fn depth_within(records: &[u32], p: u32, calls: u32) -> u32
    ensures { result ≡ depth records.now p }
{
    let enclosing = parent_in(records, p);
    if enclosing == 0 {
        return 0;
    }
    if calls == 0 {
        return climb(records, p);
    }
    1 + depth_within(records, enclosing, calls - 1)
}
