ghost use Rattle.std.specs.Prelude.{◌≡◌};
ghost use Rattle.std.specs.Result.{ForOk};
ghost use Rattle.rating.specs.Bounds.{verdict_of};
ghost use Rattle.rating.specs.Found.{AreBounds, verdict_found};
ghost use Rattle.rating.specs.Ranked.{ranked as ranks};
ghost use Rattle.rows.specs.Drafts.{rows_of};

use crate::ranked::RankedDraft;
use crate::verdict::NoBound;

mod closing;
mod readings;

pub use closing::close;

// The bounds of every row.
// Stays: two tables and no table of pairs, since the search at the processor reads the one of the memory as it is.
#[derive(Drop)]
struct Bounds {
    memory: [u32; 32],
    processor: [u32; 32],
}

// A ranked draft with what its analysis found: the bounds of every row, or a row that has none.
#[derive(Drop)]
struct Analysis {
    ranked: RankedDraft,
    found: Result<Bounds, NoBound>,
    ghost rated: { verdict_found found ≡ verdict_of (rows_of ranked.draft) (ranks ranked.memory) (ranks ranked.processor) },
    ghost known: { ForOk found (AreBounds (rows_of ranked.draft) (ranks ranked.memory) (ranks ranked.processor)) },
}

// A rating: a closed draft, its analysis and the two orders that it was closed under. It is moved, never copied; reopening
// it gives the draft back.
#[derive(Drop)]
pub struct Rating<A, B> {
    analysis: Analysis,
    memory_order: A,
    processor_order: B,
}
