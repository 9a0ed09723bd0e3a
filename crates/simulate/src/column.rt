ghost use Rattle.std.specs.Prelude.{◌≡◌, ◌+◌, ◌≤◌, IfSome};
ghost use Rattle.simulate.specs.Tables.{figure_of, head_of};

use crate::tally::Tally;

// The columns of the table behind a row's number and label.
// Stays: a column as a pair of head and closure takes eight closures with a contract each for what eight arms say here.
#[derive(Clone, Copy)]
pub(crate) enum Column {
    Admitted,
    Finished,
    Load,
    MemoryBound,
    Response,
    WholeBound,
    Memory,
    Processor,
}

impl Column {
    // The word above the column.
    pub(crate) fn head(self) -> &'static str
        ensures { result.now ≡ head_of self }
    {
        match self {
            Column::Admitted => "admitted",
            Column::Finished => "finished",
            Column::Load => "load",
            Column::MemoryBound => "RM",
            Column::Response => "response",
            Column::WholeBound => "RM+RC",
            Column::Memory => "memory",
            Column::Processor => "processor",
        }
    }

    // The figure of a row, if it has one.
    pub(crate) fn figure(self, tally: &Tally, bounds: Option<(u32, u32)>) -> Option<u32>
        requires { IfSome bounds (λ b. b.0 + b.1 ≤ 1000000) }
        ensures { result ≡ figure_of self tally.now bounds }
    {
        match self {
            Column::Admitted => Some(tally.admitted),
            Column::Finished => Some(tally.finished),
            Column::Load => Some(tally.load),
            Column::MemoryBound => bounds.map(|(memory, _)| memory),
            Column::Response => Some(tally.response),
            Column::WholeBound => bounds.map(|(memory, processor)| memory + processor),
            Column::Memory => Some(tally.memory),
            Column::Processor => Some(tally.processor),
        }
    }
}
