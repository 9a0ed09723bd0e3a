ghost use Rattle.board.specs.Guarantee.{AlwaysKeeps};
ghost use Rattle.board.specs.Runs.{FirstBy, New};
ghost use Rattle.feeds.specs.Fits.{Fitting};
ghost use Rattle.layers.specs.Cuts.{cut_off_view};
ghost use Rattle.layers.specs.Gates.{gate_view};
ghost use Rattle.rating.specs.Bounds.{is_accepted};
ghost use Rattle.rating.specs.Closing.{Accepts, BoundsRead};
ghost use Rattle.rating.specs.Orders.{by_memory_rank, by_processor_rank};
ghost use Rattle.rating.specs.Ratings.{bounds_at, draft_in, verdict_in};
ghost use Rattle.rows.specs.Drafts.{rows_of};
ghost use Rattle.std.specs.Prelude.{◌≡◌, true, Decides};

use crate::pile::guarded;
use board::run::Run;
use feeds::feed::Feed;
use feeds::pledge::Pledge;
use layers::cutoff::CutOff;
use layers::gate::Gate;
use rating::order::{ByMemoryRank, ByProcessorRank};
use rows::draft::Draft;

// Begins a run of a draft under the two rank orders, over any feed with a cut-off and a gate above it. If the draft is
// accepted, whatever the run reaches keeps the guarantee.
pub(crate) fn begin<F: Feed>(
    draft: Draft,
    below: F,
) -> Run<ByMemoryRank, ByProcessorRank, Gate<CutOff<F>>>
    ensures new { (New result) × (draft_in result.rating ≡ draft) }
    ensures fits { Fitting (gate_view (cut_off_view F.Pledge.view) result.pile) (rows_of draft) }
    ensures exact { Decides (is_accepted (verdict_in result.rating)) (Accepts (rows_of draft) by_memory_rank by_processor_rank) }
    ensures bounds { is_accepted (verdict_in result.rating) ≡ true → BoundsRead (rows_of draft) by_memory_rank by_processor_rank (bounds_at result.rating) }
    ensures assured { (a : Accepts (rows_of draft) by_memory_rank by_processor_rank) → AlwaysKeeps (gate_view (cut_off_view F.Pledge.view)) (rows_of draft) (FirstBy by_memory_rank (rows_of draft)) (FirstBy by_processor_rank (rows_of draft)) a.late a.bound result }
{
    let pile = guarded(below, &draft);
    Run::close_and_begin(draft, ByMemoryRank, ByProcessorRank, pile)
}
