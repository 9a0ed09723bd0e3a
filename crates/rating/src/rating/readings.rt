ghost use Rattle.std.specs.Prelude.{◌≡◌, ◌+◌, ◌≤◌, length, IfSome};
ghost use Rattle.rating.specs.Bounds.{row_of};
ghost use Rattle.rating.specs.Found.{verdict_found};
ghost use Rattle.rating.specs.Ratings.{LateRow, bounds_at, bounds_of, draft_in, ranking_in, verdict_in};
ghost use Rattle.rows.specs.Drafts.{EachValid, rows_of};

use super::{Analysis, Rating};
use crate::ranking::Ranking;
use crate::verdict::{Phase, Verdict};
use rows::draft::Draft;
use rows::row::Row;

impl<A, B> Rating<A, B> {
    // Accepted, or late with the phase and the row.
    pub fn verdict(&self) -> Verdict
        ensures value { result ≡ verdict_in self.now }
        ensures row { LateRow (rows_of (draft_in self.now)) result }
    {
        self.analysis.verdict()
    }

    // The bounds of a row, at the memory and at the processor. A late rating has none, nor has a number without a row.
    pub fn bounds(&self, i: u8) -> Option<(u32, u32)>
        ensures value { result ≡ bounds_at self.now i }
        ensures within { IfSome result (λ b. b.0 + b.1 ≤ (row_of (rows_of (draft_in self.now)) i).deadline) }
    {
        self.analysis.bounds(i)
    }

    // The rows of the closed draft, by their numbers.
    pub fn rows(&self) -> &[Row]
        ensures value { result.now ≡ rows_of (draft_in self.now) }
        ensures few { length result.now ≤ 32 }
        ensures valid { EachValid result.now }
    {
        self.analysis.ranked.draft.rows()
    }

    // The rows in the order of a phase.
    pub fn ranking(&self, phase: Phase) -> Ranking
        ensures { result ≡ ranking_in self.now phase }
    {
        *self.lent_ranking(phase)
    }

    // The same, lent, so that nothing is copied.
    pub fn lent_ranking(&self, phase: Phase) -> &Ranking
        ensures { result.now ≡ ranking_in self.now phase }
    {
        self.analysis.ranked.ranking(phase)
    }

    // Gives the draft back, with the two orders.
    pub fn reopen(self) -> (Draft, A, B)
        ensures { result ≡ (draft_in self, self.memory_order, self.processor_order) }
    {
        let Rating {
            analysis,
            memory_order,
            processor_order,
        } = self;
        (analysis.into_draft(), memory_order, processor_order)
    }
}

impl Analysis {
    fn verdict(&self) -> Verdict
        ensures { result ≡ verdict_found self.now.found }
    {
        match &self.found {
            Ok(_) => Verdict::Accepted,
            Err(none) => Verdict::Late(none.phase, none.row),
        }
    }

    fn bounds(&self, i: u8) -> Option<(u32, u32)>
        ensures value { result ≡ bounds_of self.now i }
        ensures within { IfSome result (λ b. b.0 + b.1 ≤ (row_of (rows_of self.now.ranked.draft) i).deadline) }
    {
        let Ok(bounds) = &self.found else {
            return None;
        };
        if i >= self.ranked.draft.count() {
            return None;
        }
        Some((bounds.memory[i as usize], bounds.processor[i as usize]))
    }

    fn into_draft(self) -> Draft
        ensures { result ≡ self.ranked.draft }
    {
        self.ranked.draft
    }
}
