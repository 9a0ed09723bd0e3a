ghost use Rattle.std.specs.Prelude.{◌≡◌, ◌≤◌, [], length};
ghost use Rattle.simulate.specs.Timelines.{answers_in, joined};

use super::Timeline;
use arrayvec::ArrayVec;
use board::run::Answer;

impl Timeline {
    // A time line without steps.
    pub(crate) fn new() -> Timeline
        ensures { answers_in result ≡ [] }
    {
        Timeline {
            answers: ArrayVec::new(),
        }
    }

    // Takes in the answer of the next step; those past the first 64 are passed over.
    pub(crate) fn note(&mut self, answer: &Answer)
        ensures { answers_in self.new ≡ joined (answers_in self.old) answer.now }
    {
        let _ = self.answers.try_push(*answer);
    }

    pub(crate) fn answers(&self) -> &[Answer]
        ensures value { result.now ≡ answers_in self.now }
        ensures few { length result.now ≤ 64 }
    {
        self.answers.as_slice()
    }
}
