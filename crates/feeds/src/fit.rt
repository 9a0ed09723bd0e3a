ghost use Rattle.feeds.specs.Fits.{Fits, Meets, fit_number};
ghost use Rattle.rating.specs.Ratings.{draft_in};
ghost use Rattle.rows.specs.Drafts.{rows_of};
ghost use Rattle.std.specs.Prelude.{◌≡◌, Decides};

use crate::mark::Mark;
use crate::pledge::Pledge;
use rating::rating::Rating;
use rows::row::Row;

// Why a pledge does not fit a rating: the first row that fails, and the letter of the pledge's kind, for a pile that of its
// top layer.
// Stays: the letter of a kind and the number of the refusal are rules of the project.
#[derive(Clone, Copy, PartialEq, Eq, Debug)]
pub struct Misfit {
    pub row: u8,
    pub letter: u8,
}

impl Misfit {
    pub fn number(&self) -> u8
        ensures { result ≡ fit_number self.now }
    {
        62
    }
}

// Whether a pledge fits a rating: for every row its distance is at least the row's period, and its ceilings are at most
// the row's costs. Uses up neither.
pub fn fit<A, B, P: Pledge>(rating: &Rating<A, B>, pledge: &P) -> Result<(), Misfit>
    ensures { Fits (P.Pledge.view pledge.now) P.Pledge.initial (rows_of (draft_in rating.now)) result }
{
    for (i, row) in rating.rows().iter().enumerate() {
        if !meets(pledge, Mark::at(i), row) {
            return Err(Misfit {
                row: i as u8,
                letter: pledge.kind(),
            });
        }
    }
    Ok(())
}

// Whether a pledge keeps one row's figures at a mark.
fn meets<P: Pledge>(pledge: &P, k: Mark, row: &Row) -> bool
    ensures { Decides result (Meets (P.Pledge.view pledge.now) k.value row.now) }
{
    pledge.distance(k) >= row.period
        && pledge.memory_ceiling(k) <= row.memory
        && pledge.processor_ceiling(k) <= row.compute
}
