ghost use Rattle.std.specs.Prelude.{◌≡◌, ℕ, ◌<◌, ◌≤◌, true, false, length};
ghost use Rattle.feeds.specs.Clocks.{Has, entry_of};
ghost use Rattle.feeds.specs.Fits.{Fitting};
ghost use Rattle.layers.specs.Cuts.{cut_off_view};
ghost use Rattle.layers.specs.Gates.{gate_view};
ghost use Rattle.rating.specs.Bounds.{row_of};
ghost use Rattle.rows.specs.Drafts.{rows_of};
ghost use Rattle.simulate.specs.Piles.{CutTo, SpacedBy};

use feeds::clockwork::Clockwork;
use feeds::feed::Feed;
use feeds::mark::Mark;
use feeds::pledge::Pledge;
use layers::cutoff::CutOff;
use layers::gate::Gate;
use rating::order::{ByMemoryRank, ByProcessorRank};
use rating::rating::close;
use rows::draft::Draft;

// The arrivals of a draft at full cost, at once and then at each row's period; and the draft again.
pub(crate) fn clockwork(draft: Draft) -> (Draft, Clockwork)
    ensures draft { result.0 ≡ draft }
    ensures rows { (k : ℕ) → k < length (rows_of draft) → Has (entry_of result.1 k) true 0 (row_of (rows_of draft) k).period (row_of (rows_of draft) k).memory (row_of (rows_of draft) k).compute }
    ensures others { (k : ℕ) → length (rows_of draft) ≤ k → Has (entry_of result.1 k) false 0 1000000 0 1 }
{
    let rating = close(draft, ByMemoryRank, ByProcessorRank);
    let clock = Clockwork::at_full_cost(&rating);
    let (draft, _, _) = rating.reopen();
    (draft, clock)
}

// A feed with a cut-off at each row's costs and a gate at its period above it: whatever the feed, this pile fits.
pub(crate) fn guarded<F: Feed>(below: F, draft: &Draft) -> Gate<CutOff<F>>
    ensures fits { Fitting (gate_view (cut_off_view F.Pledge.view) result) (rows_of draft.now) }
    ensures cut { CutTo (rows_of draft.now) below result.below }
    ensures spaced { SpacedBy (rows_of draft.now) result.below result }
{
    space(cut(below, draft), draft)
}

// A cut-off over a feed at the costs of each row of a draft.
// Stays: one walk for cut and space takes a trait of layers set by a row, whose laws repeat both clauses, and two impls.
fn cut<F: Feed>(below: F, draft: &Draft) -> CutOff<F>
    ensures { CutTo (rows_of draft.now) below result }
{
    let marks = Mark::all();
    let rows = draft.rows();
    let mut layer = CutOff::new(below);
    for (i, row) in rows.iter().enumerate() {
        let _ = layer.set(marks[i], row.memory, row.compute);
    }
    layer
}

// A gate over a feed at the period of each row of a draft.
fn space<F: Feed>(below: F, draft: &Draft) -> Gate<F>
    ensures { SpacedBy (rows_of draft.now) below result }
{
    let marks = Mark::all();
    let rows = draft.rows();
    let mut layer = Gate::new(below);
    for (i, row) in rows.iter().enumerate() {
        let _ = layer.set(marks[i], row.period);
    }
    layer
}
