ghost use Rattle.std.specs.Prelude.{◌≡◌, ℕ, ◌<◌, false, length, slice_index_or};
ghost use Rattle.board.specs.Runs.{place, rows_in};
ghost use Rattle.simulate.specs.Counts.{Blank, Fair, KeepsBounds, NotedOrLast, Simulated};
ghost use Rattle.simulate.specs.Tallies.{is_free};

use crate::journal::Journal;
use board::fault::StepFault;
use board::run::{Run, Slot};
use feeds::feed::Feed;
use feeds::pledge::Pledge;

// A run, and the journal of its steps: no count of the journal is above the run's number.
#[derive(Drop)]
pub(crate) struct Simulation<A, B, P> {
    pub(crate) run: Run<A, B, P>,
    pub(crate) journal: Journal,
    ghost fair: { Fair run journal },
}

impl<A, B, P: Feed> Simulation<A, B, P> {
    // A run that is watched from where it is.
    pub(crate) fn new(run: Run<A, B, P>) -> Simulation<A, B, P>
        ensures run { result.run ≡ run }
        ensures blank { Blank result.journal }
    {
        Simulation {
            run,
            journal: Journal::new(),
        }
    }

    // Steps the run so many times, and takes each step into the journal. Where the guarantee holds, no time that the journal
    // shows is above its bound.
    pub(crate) fn advance(&mut self, steps: u32)
        ensures done { Simulated P.Pledge.view steps self.old.run self.old.journal self.new.run self.new.journal }
        ensures kept { KeepsBounds P.Pledge.view self.old.run self.old.journal self.new.journal }
    {
        for _step in 0..steps {
            let Ok(()) = self.step() else {
                break;
            };
        }
    }

    // One step of the run, taken into the journal.
    fn step(&mut self) -> Result<(), StepFault>
        ensures { NotedOrLast P.Pledge.view self.old.run self.old.journal result self.new.run self.new.journal }
    {
        let free = free_places(&self.run);
        let answer = self.run.step()?;
        self.journal.note(&free, &answer, &self.run);
        Ok(())
    }
}

// Which rows have no job.
// Stays: a table for one step; with the tallies it would outlive the step, and a map would need a heap.
fn free_places<A, B, P>(run: &Run<A, B, P>) -> [bool; 32]
    ensures { (k : ℕ) → k < length (rows_in run.now) → slice_index_or result k false ≡ is_free (place run.now k) }
{
    let mut free = [false; 32];
    let count = run.rating().rows().len();
    for (k, place) in free.iter_mut().enumerate() {
        if k >= count {
            break;
        }
        *place = matches!(run.place(k as u8), Some(Slot::Empty));
    }
    free
}
