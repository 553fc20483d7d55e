// The labels of components and of holes, from a forest of the image's connected sets.
ghost use Rattle.std.specs.Prelude.{◌≡◌, ◌*◌, length};
ghost use Rattle.model.specs.Labelling.{Labels, components, holes};
ghost use Rattle.union_find.specs.Regions.{Regions};
ghost use Rattle.labelling.specs.Inner.{is_unlabelled, Searchable, Guided, Labellable, Labelled};

use crate::inner::search;
use component_records::inner::map;
use model::{Label, MAX_LABELS};
use neighbours::Position;
use union_find::inner::outside;

// Labels the components of the pixels of a value from 1 in the order of their first pixels, by a forest that
// has a root for each. A root of the value that has an entry other than 0 in the map starts none. Each search
// goes on behind the last find. Returns how many there are, or one more than a map can number, by which 01 refuses.
pub fn label_all(
    width: usize,
    height: usize,
    image: &[u8],
    value: u8,
    queue: &[Position],
    labels: &mut [Label],
) -> usize
    requires { Searchable width height image.now queue.now labels.old }
    ensures labelled { ((asked : Labels) →
        Guided width height queue.now (is_unlabelled value image.now labels.old)
        asked →
        Labelled width height asked labels.new result) }
    ensures size { length labels.new ≡ width * height }
{
    let mut from: usize = 0;
    for count in 0..=MAX_LABELS {
        let found = search::next_unlabelled(width, height, image, value, queue, labels, from);
        let Some(at) = found else {
            return count;
        };
        if count < MAX_LABELS {
            labels[at] = (count + 1) as Label;
        }
        from = at + 1;
    }
    MAX_LABELS + 1
}

// Labels the components of the image.
pub fn label_components(
    width: usize,
    height: usize,
    image: &[u8],
    connectivity: u8,
    queue: &[Position],
    labels: &mut [Label],
) -> usize
    requires { Labellable width height connectivity image.now queue.now labels.old }
    ensures { Labelled width height (components width height connectivity image.now) labels.new result }
{
    map::clear(labels);
    label_all(width, height, image, 1, queue, labels)
}

// Labels the holes of the image: the background sets whose roots are not flagged as reaching the border.
pub fn label_holes(
    width: usize,
    height: usize,
    image: &[u8],
    connectivity: u8,
    queue: &mut [Position],
    labels: &mut [Label],
) -> usize
    requires { Labellable width height connectivity image.now queue.old labels.old }
    ensures labelled { Labelled width height (holes width height connectivity image.now) labels.new result }
    ensures regions { Regions width height connectivity image.now (width * height) queue.new }
    ensures kept { length queue.new ≡ length queue.old }
{
    map::clear(labels);
    outside::flag_outside(width, height, image, queue, labels);
    label_all(width, height, image, 0, queue, labels)
}
