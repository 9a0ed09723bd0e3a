ghost use Rattle.lines.specs.Faults.{reason_text};
ghost use Rattle.std.specs.Prelude.{◌≡◌, Some};

use std::fmt;

// What is wrong with a word of a line.
#[derive(Clone, Copy, PartialEq, Eq, Debug)]
pub enum Reason {
    // The line has too few words.
    Missing,
    // A label has four characters from 21 to 7E hexadecimal.
    NotALabel,
    // A number has decimal digits and nothing else.
    NotANumber,
    // The number is above 4,294,967,295.
    TooLarge,
    // A rank is above 255.
    RankAbove,
    // The line has an eighth word.
    Extra,
}

// A faulty word: its number in the line, counted from 0, and what is wrong with it.
#[derive(Clone, Copy, PartialEq, Eq, Debug)]
pub struct BadWord {
    pub word: usize,
    pub reason: Reason,
}

impl Reason {
    // What is told of the fault.
    pub fn text(&self) -> &'static str
        ensures { result.now ≡ reason_text self.now }
    {
        match self {
            Reason::Missing => "missing",
            Reason::NotALabel => "not four characters from 21 to 7E hexadecimal",
            Reason::NotANumber => "not a number",
            Reason::TooLarge => "does not fit 32 bits",
            Reason::RankAbove => "a rank above 255",
            Reason::Extra => "one word too many",
        }
    }
}

impl fmt::Display for Reason {
    ghost output = { λ reason. Some (reason_text reason) };

    fn fmt<W: fmt::Write>(&self, f: &mut fmt::Formatter<W>) -> fmt::Result {
        f.write_str(self.text())
    }
}
