// The two resources that a job needs, one after the other.
#[derive(Clone, Copy, PartialEq, Eq, Debug)]
pub enum Phase {
    Memory,
    Processor,
}

// What closing a draft finds: every row meets its deadline, or one is the first in a phase's order that has no bound.
// Stays: closing refuses nothing, which is a rule of the project, so what is late is an answer and no error of a Result.
#[derive(Clone, Copy, PartialEq, Eq, Debug)]
pub enum Verdict {
    Accepted,
    Late(Phase, u8),
}

// The first row in a phase's order that has no bound.
#[derive(Clone, Copy)]
pub(crate) struct NoBound {
    pub phase: Phase,
    pub row: u8,
}
