ghost use Rattle.std.specs.Prelude.{◌≡◌};
ghost use Rattle.rating.specs.Ratings.{ranking_of};

use super::RankedDraft;
use crate::ranking::Ranking;
use crate::verdict::Phase;

impl RankedDraft {
    // The rows in the order of a phase.
    pub(crate) fn ranking(&self, phase: Phase) -> &Ranking
        ensures { result.now ≡ ranking_of self.now phase }
    {
        match phase {
            Phase::Memory => &self.memory,
            Phase::Processor => &self.processor,
        }
    }
}
