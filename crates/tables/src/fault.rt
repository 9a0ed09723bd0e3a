ghost use Rattle.tables.specs.declared.fault.LineFault.TheVariants.{Edit as InEdit, Word as InWord};
ghost use Rattle.std.specs.Prelude.{◌≡◌};

use lines::fault::BadWord;
use rows::fault::EditFault;

// What is wrong with a line of a table: a word, or the row that the words write.
#[derive(Clone, Copy, PartialEq, Eq, Debug)]
pub enum LineFault {
    Word(BadWord),
    Edit(EditFault),
}

// A faulty line: its number, counted from 1, and what is wrong with it.
// Stays: no function serves this and BadWord alike, and a common type would lose what is counted, and from where.
#[derive(Clone, Copy, PartialEq, Eq, Debug)]
pub struct BadLine {
    pub line: usize,
    pub fault: LineFault,
}

impl From<BadWord> for LineFault {
    ghost from_gives = { λ bad fault. fault ≡ InWord bad };

    fn from(value: BadWord) -> LineFault {
        LineFault::Word(value)
    }
}

impl From<EditFault> for LineFault {
    ghost from_gives = { λ edit fault. fault ≡ InEdit edit };

    fn from(value: EditFault) -> LineFault {
        LineFault::Edit(value)
    }
}
