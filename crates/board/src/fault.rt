ghost use Rattle.board.specs.Faults.{step_number};
ghost use Rattle.std.specs.Prelude.{◌≡◌};

// Why a step is refused.
#[derive(Clone, Copy, PartialEq, Eq, Debug)]
pub enum StepFault {
    // The step number is 2,000,000,000, the last one.
    LastNumber,
}

// Stays: the numbers of refusals are a rule of the project.
impl StepFault {
    pub fn number(&self) -> u8
        ensures { result ≡ step_number self.now }
    {
        match self {
            StepFault::LastNumber => 61,
        }
    }
}
