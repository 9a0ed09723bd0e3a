ghost use Rattle.std.specs.Prelude.{◌≡◌, true, Decides};
ghost use Rattle.std.specs.Result.{ForOk};
ghost use Rattle.rating.specs.Bounds.{is_accepted, verdict_of};
ghost use Rattle.rating.specs.Closing.{Accepts, BoundsRead, LateBy};
ghost use Rattle.rating.specs.Found.{AreBounds, verdict_found};
ghost use Rattle.rating.specs.Ranked.{ranked};
ghost use Rattle.rating.specs.Rankings.{Agrees};
ghost use Rattle.rating.specs.Ratings.{bounds_at, draft_in, ranking_in, verdict_in};
ghost use Rattle.rows.specs.Drafts.{rows_of};
ghost use Rattle.rating.specs.declared.verdict.Phase.TheVariants.{Memory, Processor};

use super::{Analysis, Bounds, Rating};
use crate::order::Order;
use crate::ranked::RankedDraft;
use crate::ranking::rank;
use crate::verdict::{NoBound, Phase};
use rows::draft::Draft;

// Rates a draft under an order for each phase. It uses the draft up and never refuses.
pub fn close<A: Order, B: Order>(draft: Draft, memory_order: A, processor_order: B) -> Rating<A, B>
    ensures kept { (draft_in result ≡ draft) × ((result.memory_order ≡ memory_order) × (result.processor_order ≡ processor_order)) }
    ensures memory { Agrees (A.Order.sequence memory_order).before (rows_of draft) (ranked (ranking_in result Memory)) }
    ensures processor { Agrees (B.Order.sequence processor_order).before (rows_of draft) (ranked (ranking_in result Processor)) }
    ensures exact { Decides (is_accepted (verdict_in result)) (Accepts (rows_of draft) (A.Order.sequence memory_order).before (B.Order.sequence processor_order).before) }
    ensures bounds { is_accepted (verdict_in result) ≡ true → BoundsRead (rows_of draft) (A.Order.sequence memory_order).before (B.Order.sequence processor_order).before (bounds_at result) }
    ensures late { LateBy (rows_of draft) (A.Order.sequence memory_order).before (B.Order.sequence processor_order).before (verdict_in result) }
{
    let memory = rank(&memory_order, &draft);
    let processor = rank(&processor_order, &draft);
    let ranked = RankedDraft {
        draft,
        memory,
        processor,
    };
    Rating {
        analysis: ranked.analyse(),
        memory_order,
        processor_order,
    }
}

impl RankedDraft {
    // The draft with what its two rankings give.
    fn analyse(self) -> Analysis
        ensures { result.ranked ≡ self }
    {
        let found = self.bounds();
        Analysis {
            ranked: self,
            found,
        }
    }

    // The bounds of the memory first, and with them those of the processor; a row without one ends it.
    fn bounds(&self) -> Result<Bounds, NoBound>
        ensures rated { verdict_found result ≡ verdict_of (rows_of self.now.draft) (ranked self.now.memory) (ranked self.now.processor) }
        ensures known { ForOk result (AreBounds (rows_of self.now.draft) (ranked self.now.memory) (ranked self.now.processor)) }
    {
        let none = [0; 32];
        let memory = self.phase_bounds(Phase::Memory, &none)?;
        let processor = self.phase_bounds(Phase::Processor, &memory)?;
        Ok(Bounds { memory, processor })
    }
}
