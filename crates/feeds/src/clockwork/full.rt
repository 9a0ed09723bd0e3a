ghost use Rattle.std.specs.Prelude.{◌≡◌, ℕ, ◌<◌, ◌≤◌, true, false, length};
ghost use Rattle.feeds.specs.Clocks.{Has, OthersStay, clock_view, entry_of};
ghost use Rattle.feeds.specs.Fits.{Fitting};
ghost use Rattle.rating.specs.Bounds.{row_of};
ghost use Rattle.rating.specs.Ratings.{draft_in};
ghost use Rattle.rows.specs.Drafts.{rows_of};
ghost use Rattle.rows.specs.Rows.{Valid};

use super::Clockwork;
use crate::mark::Mark;
use rating::rating::Rating;
use rows::row::Row;

impl Clockwork {
    // The busiest clockwork that fits a rating: each row's full costs, at once and then at each of its periods.
    pub fn at_full_cost<A, B>(rating: &Rating<A, B>) -> Clockwork
        ensures rows { (k : ℕ) → k < length (rows_of (draft_in rating.now)) → Has (entry_of result k) true 0 (row_of (rows_of (draft_in rating.now)) k).period (row_of (rows_of (draft_in rating.now)) k).memory (row_of (rows_of (draft_in rating.now)) k).compute }
        ensures others { (k : ℕ) → length (rows_of (draft_in rating.now)) ≤ k → Has (entry_of result k) false 0 1000000 0 1 }
        ensures fits { Fitting (clock_view result) (rows_of (draft_in rating.now)) }
    {
        let rows = rating.rows();
        let mut clock = Clockwork::new();
        for (i, row) in rows.iter().enumerate() {
            clock.start(Mark::at(i), row);
        }
        clock
    }

    // Starts the arrivals of one mark at once, with a row's period and full costs.
    fn start(&mut self, k: Mark, row: &Row)
        requires { Valid row.now }
        ensures here { Has (entry_of self.new k.value) true 0 row.now.period row.now.memory row.now.compute }
        ensures others { OthersStay self.old k.value self.new }
    {
        let _ = self.set(k, 0, row.period, row.memory, row.compute);
    }
}
