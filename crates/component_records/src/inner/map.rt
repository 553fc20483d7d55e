// Maps of labels: the one place that knows how a label stands in a map.
ghost use Rattle.std.specs.Prelude.{◌≡◌, ◌≤◌, ◌<◌, length, get_or, replicate};
ghost use Rattle.component_records.specs.Records.{SameLabel};

use model::Label;

// The label at a position.
pub fn label_at(labels: &[Label], at: usize) -> usize
    requires { at < length labels.now }
    ensures { result ≡ get_or labels.now at 0 }
{
    usize::from(labels[at])
}

// Sets every entry to 0.
pub fn clear(labels: &mut [Label])
    ensures { labels.new ≡ replicate (length labels.old) 0 }
{
    labels.fill(0);
}

// Copies byte labels into a map of as many entries.
pub fn copy_bytes(bytes: &[u8], labels: &mut [Label])
    requires { length labels.old ≡ length bytes.now }
    ensures { labels.new ≡ bytes.now }
{
    for (at, label) in labels.iter_mut().enumerate() {
        *label = Label::from(bytes[at]);
    }
}

// The first position behind `at` whose label is another, or `end` where there is none before it.
pub fn label_end(labels: &[Label], at: usize, end: usize) -> usize
    requires at_lt_end { at < end }
    requires end_in_bounds { end ≤ length labels.now }
    ensures same { SameLabel labels.now at result }
    ensures within { result ≤ end }
{
    let label = labels[at];
    for to in at + 1..end {
        if labels[to] != label {
            return to;
        }
    }
    end
}
