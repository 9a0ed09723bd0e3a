ghost use Rattle.std.specs.Prelude.{◌≡◌, ℕ, ◌<◌, ◌≤◌, false, length, slice_index_or};
ghost use Rattle.board.specs.Runs.{place, rows_in};
ghost use Rattle.simulate.specs.Counts.{Blank, tally_at};
ghost use Rattle.simulate.specs.Tallies.{AtMost, noted};
ghost use Rattle.simulate.specs.Timelines.{answers_in, joined};

use crate::tally::{Seen, Tally};
use crate::timeline::Timeline;
use board::run::{Answer, Run};

// What the steps of a run have shown: of each row, and along the first steps.
// Stays: one tally for each row by its number, in fixed memory.
#[derive(Drop)]
pub(crate) struct Journal {
    pub(crate) tallies: [Tally; 32],
    pub(crate) timeline: Timeline,
}

impl Journal {
    // A journal of no steps.
    pub(crate) fn new() -> Journal
        ensures { Blank result }
    {
        Journal {
            tallies: [Tally::default(); 32],
            timeline: Timeline::new(),
        }
    }

    // Stays: a struct of what is told of a step would be made for this call and taken apart in it.
    // Takes in a step that brought a run to where it is; `free` tells which places were empty before it.
    pub(crate) fn note<A, B, P>(&mut self, free: &[bool; 32], answer: &Answer, run: &Run<A, B, P>)
        requires { (((k : ℕ) → AtMost 2000000000 (tally_at self.old.tallies k))) × (answer.now.step ≤ 2000000000) }
        ensures rows { (k : ℕ) → k < length (rows_in run.now) → tally_at self.new.tallies k ≡ noted k (slice_index_or free.now k false) answer.now (place run.now k) (tally_at self.old.tallies k) }
        ensures others { (k : ℕ) → length (rows_in run.now) ≤ k → tally_at self.new.tallies k ≡ tally_at self.old.tallies k }
        ensures line { answers_in self.new.timeline ≡ joined (answers_in self.old.timeline) answer.now }
    {
        note_rows(&mut self.tallies, free, answer, run);
        self.timeline.note(answer);
    }
}

// Takes a step into the tally of each row of a run.
fn note_rows<A, B, P>(
    tallies: &mut [Tally; 32],
    free: &[bool; 32],
    answer: &Answer,
    run: &Run<A, B, P>,
)
    requires { (((k : ℕ) → AtMost 2000000000 (tally_at tallies.old k))) × (answer.now.step ≤ 2000000000) }
    ensures rows { (k : ℕ) → k < length (rows_in run.now) → tally_at tallies.new k ≡ noted k (slice_index_or free.now k false) answer.now (place run.now k) (tally_at tallies.old k) }
    ensures others { (k : ℕ) → length (rows_in run.now) ≤ k → tally_at tallies.new k ≡ tally_at tallies.old k }
{
    let count = run.rating().rows().len();
    for (k, tally) in tallies.iter_mut().enumerate() {
        if k >= count {
            break;
        }
        *tally = noted_row(*tally, k as u8, free[k], answer, run);
    }
}

// The tally of a row of a run after a step, or as it was without such a row.
fn noted_row<A, B, P>(tally: Tally, k: u8, free: bool, answer: &Answer, run: &Run<A, B, P>) -> Tally
    requires { (AtMost 2000000000 tally) × (answer.now.step ≤ 2000000000) }
    ensures row { k < length (rows_in run.now) → result ≡ noted k free answer.now (place run.now k) tally }
    ensures other { length (rows_in run.now) ≤ k → result ≡ tally }
{
    let Some(after) = run.place(k) else {
        return tally;
    };
    tally.noted(&Seen {
        row: k,
        free,
        answer: *answer,
        after,
    })
}
