ghost use Rattle.std.specs.Prelude.{◌≡◌, ◌≤◌};
ghost use Rattle.rating.specs.Bounds.{Found, ceiling_of, cost_of, figure_at, raised_to, source_of, start_of};
ghost use Rattle.rating.specs.Ranked.{ranked};
ghost use Rattle.rating.specs.Ratings.{ranking_of};
ghost use Rattle.rows.specs.Drafts.{rows_of};

use crate::curve::least_from;
use crate::demand::{Demand, Source};
use crate::ranked::RankedDraft;
use crate::verdict::{NoBound, Phase};
use rows::row::Row;

impl RankedDraft {
    // The bound of every row in a phase, or the first row in its order that has none. Going in that order, what the
    // rows passed ask of the later ones gathers in one demand. No later bound is below the last one and the row's own
    // cost together, so each search starts there.
    pub(crate) fn phase_bounds(&self, phase: Phase, late: &[u32; 32]) -> Result<[u32; 32], NoBound>
        ensures { Found phase (rows_of self.now.draft) (figure_at late.now) (ranked (ranking_of self.now phase)) result }
    {
        let rows = self.draft.rows();
        let order = self.ranking(phase).rows();
        let mut demand = Demand::new();
        let mut found = [0; 32];
        let mut base = 0;
        for k in order {
            let row = rows[*k as usize];
            let delay = late[*k as usize];
            let own = phase.cost(&row);
            demand.own_cost(own);
            let from = start(own, base);
            let Some(w) = least_from(&demand, from, phase.ceiling(&row, delay)) else {
                return Err(NoBound { phase, row: *k });
            };
            found[*k as usize] = w;
            base = raised(own, base, w);
            demand.add(phase.source(&row, delay));
        }
        Ok(found)
    }
}

// Stays: the two phases as types of a trait would take two impls of three functions; a match has both beside each other.
impl Phase {
    // What a job of a row costs.
    fn cost(self, row: &Row) -> u32
        ensures { result ≡ cost_of self row.now }
    {
        match self {
            Phase::Memory => row.memory,
            Phase::Processor => row.compute,
        }
    }

    // The highest bound that a row may have.
    fn ceiling(self, row: &Row, late: u32) -> u32
        ensures { result ≡ ceiling_of self row.now late }
    {
        match self {
            Phase::Memory => row.deadline.saturating_sub(row.compute),
            Phase::Processor => row.deadline.saturating_sub(late),
        }
    }

    // What a row asks of later ones.
    fn source(self, row: &Row, late: u32) -> Source
        ensures { result ≡ source_of self row.now late }
    {
        match self {
            Phase::Memory => Source {
                cost: row.memory,
                period: row.period,
                delay: 0,
            },
            Phase::Processor => Source {
                cost: row.compute,
                period: row.period,
                delay: late,
            },
        }
    }
}

// Where the search for a row's bound starts, given the last bound. A row that costs nothing is done at once.
fn start(own: u32, base: u32) -> u32
    requires { (own ≤ 1000000) × (base ≤ 1000000) }
    ensures { result ≡ start_of own base }
{
    if own == 0 { 0 } else { base + own }
}

// The last bound, once a row that costs something has the bound w.
fn raised(own: u32, base: u32, w: u32) -> u32
    ensures { result ≡ raised_to own base w }
{
    if own == 0 { base } else { w }
}
