// Functions that require what the entry points have tested.
ghost use Rattle.std.specs.Prelude.{◌≡◌};
ghost use Rattle.model.specs.Refusals.{refusal, first_refusal, label_checks};

use judging::refuse_if;
use model::{MAX_LABELS, RECORD_LENGTH, Refusal};

pub mod regions;
pub mod search;

// The row "numbering" of the table, for counts of components and of holes.
pub fn judge_counts(components: usize, holes: usize, records: &[u32]) -> Result<(), Refusal>
    ensures { refusal result ≡ first_refusal (label_checks components holes records.now) }
{
    refuse_if(MAX_LABELS < components, Refusal::TooManyComponents)?;
    refuse_if(MAX_LABELS < holes, Refusal::TooManyHoles)?;
    refuse_if(
        records.len() / RECORD_LENGTH < components,
        Refusal::TooFewRecords,
    )
}
