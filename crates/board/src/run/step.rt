ghost use Rattle.board.specs.Calls.{Went};

use super::service::serve_row;
use super::{Answer, Run};
use crate::fault::StepFault;
use feeds::feed::Feed;
use feeds::pledge::Pledge;
use rating::verdict::Phase;

// The number at which a run takes no further step.
const LAST: u32 = 2_000_000_000;

impl<A, B, P: Feed> Run<A, B, P> {
    // One step of the board: empty places take what the pile offers; each resource serves the first row in its order that
    // waits for it; the two rows lose a step; the pile and the step number go on. A step at the last number is refused.
    pub fn step(&mut self) -> Result<Answer, StepFault>
        ensures { Went P.Pledge.view self.old result self.new }
    {
        if self.number >= LAST {
            return Err(StepFault::LastNumber);
        }
        self.admit();
        let step = self.number;
        let memory = self.served(Phase::Memory);
        let processor = self.served(Phase::Processor);
        let finished = self.finishing(processor);
        serve_row(Phase::Memory, memory, &mut self.places);
        serve_row(Phase::Processor, processor, &mut self.places);
        self.pile.advance();
        self.number += 1;
        Ok(Answer {
            step,
            memory,
            processor,
            finished,
        })
    }
}
