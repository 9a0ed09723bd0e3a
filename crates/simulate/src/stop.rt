use std::alloc::AllocError;
use std::{fmt, io};

// Why the program ends with status 1.
#[derive(Drop)]
pub enum Stop {
    // There are more arguments than three.
    Usage,
    // What stands for the steps is no number from 0 to 2,000,000,000.
    Steps(String),
    // A file can't be read.
    Unreadable(String, io::Error),
    // The book is turned down, as its listing says.
    TurnedDown,
    // The arguments can't be read, or nothing can be written.
    Failed(io::Error),
    // There is no memory left.
    NoMemory,
}

impl fmt::Display for Stop {
    fn fmt<W: fmt::Write>(&self, f: &mut fmt::Formatter<W>) -> fmt::Result {
        match self {
            Stop::Usage => writeln!(f, "usage: simulate [BOOK [LIST [STEPS]]]"),
            Stop::Steps(text) => writeln!(
                f,
                "simulate: the steps are a number from 0 to 2000000000, not {text}"
            ),
            Stop::Unreadable(name, error) => writeln!(f, "simulate: cannot read {name}: {error}"),
            Stop::TurnedDown => Ok(()),
            Stop::Failed(error) => writeln!(f, "simulate: {error}"),
            Stop::NoMemory => writeln!(f, "simulate: no memory left"),
        }
    }
}

impl From<io::Error> for Stop {
    fn from(error: io::Error) -> Stop {
        Stop::Failed(error)
    }
}

impl From<AllocError> for Stop {
    fn from(_error: AllocError) -> Stop {
        Stop::NoMemory
    }
}
