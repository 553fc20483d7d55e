// How deep components lie in one another. Document 01, "Parts, holes, depth".
//
// The entry point may be called with anything: records from anywhere, and any number of a component.
#![tactic(auto)]

ghost use Rattle.std.specs.Prelude.{◌≡◌};
ghost use Rattle.model.specs.Depth.{depth};

pub mod inner;

// The depth of component `p` by records from anywhere: 0 without an enclosing component, else one more
// than the enclosing component's. An enclosing number that is not below `p` counts as none, and a
// component without ten whole entries has depth 0.
pub fn depth(records: &[u32], p: u32) -> u32
    ensures { result ≡ depth records.now p }
{
    inner::depth_within(records, p, inner::NESTED_CALLS)
}
