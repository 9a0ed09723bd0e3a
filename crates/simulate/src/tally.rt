ghost use Rattle.std.specs.Prelude.{◌≡◌, ◌≤◌};
ghost use Rattle.simulate.specs.Tallies.{AtMost, has_entered, load_in, load_of, noted, response_of};

use board::run::{Answer, Slot};

// What the steps of a run have shown of one row: how many arrivals were admitted and jobs finished, the worst time from
// admission to the end of loading and to the end of the job, and the steps on each resource.
#[derive(Clone, Copy, Default)]
pub(crate) struct Tally {
    pub(crate) admitted: u32,
    pub(crate) finished: u32,
    pub(crate) load: u32,
    pub(crate) response: u32,
    pub(crate) memory: u32,
    pub(crate) processor: u32,
}

impl Tally {
    // The tally after a step that was seen.
    pub(crate) fn noted(self, seen: &Seen) -> Tally
        requires { AtMost 2000000000 self }
        ensures { result ≡ noted seen.now.row seen.now.free seen.now.answer seen.now.after self }
    {
        let ended = seen.response();
        Tally {
            admitted: self.admitted + u32::from(seen.has_entered()),
            finished: self.finished + u32::from(ended.is_some()),
            load: self.load.max(seen.load()),
            response: self.response.max(ended.unwrap_or(0)),
            memory: self.memory + u32::from(seen.answer.memory == Some(seen.row)),
            processor: self.processor + u32::from(seen.answer.processor == Some(seen.row)),
        }
    }
}

// What is seen of a row in a step: whether its place was free before, the step's answer, and its place after it.
#[derive(Clone, Copy)]
pub(crate) struct Seen {
    pub(crate) row: u8,
    pub(crate) free: bool,
    pub(crate) answer: Answer,
    pub(crate) after: Slot,
    ghost early: { answer.step ≤ 2000000000 },
}

impl Seen {
    // The response of the row, if it finished.
    fn response(&self) -> Option<u32>
        ensures { result ≡ response_of self.now.answer self.now.row }
    {
        let (row, response) = self.answer.finished?;
        (row == self.row).then_some(response)
    }

    // Whether an arrival of the row was admitted: its place was free, and now it has a job, or the job finished at once.
    fn has_entered(&self) -> bool
        ensures { result ≡ has_entered self.now.row self.now.free self.now.answer self.now.after }
    {
        let ended = self.response().is_some();
        let taken = !matches!(self.after, Slot::Empty);
        self.free && (ended || taken)
    }

    // The load time of the row's job, if the memory served it for the last time, else 0.
    // Stays: a worst time begins at 0, so none and 0 are the same to it.
    fn load(&self) -> u32
        ensures { result ≡ load_of self.now.row self.now.answer self.now.after }
    {
        if self.answer.memory == Some(self.row) {
            self.load_time()
        } else {
            0
        }
    }

    // The time from its admission to the end of the step of a job that computes next.
    fn load_time(&self) -> u32
        ensures { result ≡ load_in self.now.answer.step self.now.after }
    {
        match self.after {
            Slot::Computing { left: _, since } => (self.answer.step + 1).saturating_sub(since),
            _ => 0,
        }
    }
}
