// Connected-component labelling (01: numbering): the components and the holes of an image, and a record for
// each component. Document 01, "Parts, holes, depth", with the labels of 16 bits of document 02, Point 1.
//
// Both functions may be called with anything. `label_image` is one call of the model: `Meets`, of the crate
// `model`, says what it answers and how it leaves the lent buffers.
#![tactic(auto)]

ghost use Rattle.std.specs.Prelude.{◌≡◌};
ghost use Rattle.model.specs.Refusals.{refusal, label_refusal};
ghost use Rattle.model.specs.Calls.{label, label_reply, Meets};
ghost use Rattle.model.specs.Widening.{widen_map};
ghost use Rattle.model.specs.Answers.{widened_to};

use component_records::inner::map;
use judging::refuse_if;
use model::{Counts, Label, Refusal};
use neighbours::Position;
use union_find::inner::joins;

pub mod inner;

// The rows "buffers" and "operation" of the table.
fn judge_labelling(
    width: usize,
    height: usize,
    image: &[u8],
    queue: &[Position],
    connectivity: u8,
    components: &[Label],
    holes: &[Label],
) -> Result<(), Refusal>
    ensures { refusal result ≡ label_refusal width height image.now queue.now connectivity
        components.now holes.now }
{
    judging::judge_maps(width, height, image, components, holes, queue)?;
    refuse_if(
        judging::bad_connectivity(connectivity),
        Refusal::BadConnectivity,
    )
}

// Labels the components of an image and its holes, and writes the records of the components. The queue is
// the workspace, and all zeros then. A call that is refused for its buffers or its connectivity leaves
// everything as lent; one with too many components or holes, or with too few record entries, leaves the
// maps and the queue zeros and the records as lent.
pub fn label_image(
    width: usize,
    height: usize,
    image: &[u8],
    queue: &mut [Position],
    connectivity: u8,
    components: &mut [Label],
    holes: &mut [Label],
    records: &mut [u32],
) -> Result<Counts, Refusal>
    ensures { Meets width height image.now queue.old
        (label connectivity components.old holes.old records.old)
        (label_reply result components.new holes.new records.new)
        image.now queue.new }
{
    judge_labelling(width, height, image, queue, connectivity, components, holes)?;
    // Until they are labelled, the maps are workspace.
    joins::join_image(width, height, image, connectivity, holes, components, queue);
    let hole_count = inner::regions::label_holes(width, height, image, connectivity, queue, holes);
    let count = inner::regions::label_components(
        width,
        height,
        image,
        connectivity,
        queue,
        components,
    );
    if let Err(refusal) = inner::judge_counts(count, hole_count, records) {
        map::clear(components);
        map::clear(holes);
        engine::inner::queue::clear_behind(queue, 0);
        return Err(refusal);
    }
    component_records::inner::write_records(width, height, components, holes, queue, records);
    engine::inner::queue::clear_behind(queue, 0);
    Ok(Counts {
        components: count as u32,
        holes: hole_count as u32,
    })
}

// Carries a map of byte labels over into a map of 16-bit labels (02, Point 1): each pixel keeps its number,
// whatever it is. A refused call leaves the map as lent.
pub fn widen_map(
    width: usize,
    height: usize,
    bytes: &[u8],
    labels: &mut [Label],
) -> Result<(), Refusal>
    ensures { widened_to result bytes.now labels.new
        ≡ widen_map width height bytes.now labels.old }
{
    judging::judge_widening(width, height, bytes, labels)?;
    map::copy_bytes(bytes, labels);
    Ok(())
}
