ghost use Rattle.std.specs.Prelude.{◌≡◌, length};
ghost use Rattle.board.specs.Rules.{Entered, EnteredAt};
ghost use Rattle.board.specs.Runs.{rows_in};
ghost use Rattle.schedule.specs.Places.{job};

use super::{Run, Slot};
use feeds::feed::Feed;
use feeds::mark::Mark;
use feeds::pledge::Pledge;

// The place of a job that is admitted in a step. One that has nothing to load computes at once.
fn admitted(offer: (u32, u32), step: u32) -> Slot
    ensures { result ≡ job offer step }
{
    match offer {
        (0, left) => Slot::Computing { left, since: step },
        (left, compute) => Slot::Loading {
            left,
            compute,
            since: step,
        },
    }
}

impl<A, B, P: Feed> Run<A, B, P> {
    // The first rule: for rows from 0 upward, an empty place takes what the pile offers.
    pub(super) fn admit(&mut self)
        ensures { Entered P.Pledge.view (length (rows_in self.old)) self.old self.new }
    {
        let count = self.rating.rows().len();
        for mark in &Mark::all()[..count] {
            self.admit_row(*mark);
        }
    }

    // The first rule at one row.
    fn admit_row(&mut self, mark: Mark)
        ensures { EnteredAt P.Pledge.view mark.value self.old self.new }
    {
        let k = mark.index();
        if let Slot::Empty = self.places[k]
            && let Some(offer) = self.pile.take(mark)
        {
            self.places[k] = admitted(offer, self.number);
        }
    }
}
