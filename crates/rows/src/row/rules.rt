ghost use Rattle.rows.specs.Rows.{Valid, checked, is_labelled, is_printable, label_bytes, label_of, label_text};
ghost use Rattle.std.specs.Prelude.{◌≡◌, OnOk, Some};

use super::{Label, Row};
use crate::fault::RowFault;
use std::fmt;

impl Label {
    // Whether every byte is from 21 to 7E hexadecimal, so that it shows and is no space.
    pub fn is_printable(&self) -> bool
        ensures { result ≡ is_labelled self.now }
    {
        self.first.is_ascii_graphic()
            && self.second.is_ascii_graphic()
            && self.third.is_ascii_graphic()
            && self.fourth.is_ascii_graphic()
    }
}

// The label of four bytes, whatever they are.
impl From<[u8; 4]> for Label {
    ghost from_gives = { λ bytes label. label ≡ label_of bytes };

    fn from(value: [u8; 4]) -> Label {
        let [first, second, third, fourth] = value;
        Label {
            first,
            second,
            third,
            fourth,
        }
    }
}

impl From<Label> for [u8; 4] {
    ghost from_gives = { λ label bytes. bytes ≡ label_bytes label };

    fn from(value: Label) -> [u8; 4] {
        [value.first, value.second, value.third, value.fourth]
    }
}

// A label shows as the characters that its bytes number: as its bytes themselves, if it is printable.
impl fmt::Display for Label {
    ghost output = { λ label. Some (label_text label) };

    fn fmt<W: fmt::Write>(&self, f: &mut fmt::Formatter<W>) -> fmt::Result {
        let first = self.first as char;
        let second = self.second as char;
        let third = self.third as char;
        let fourth = self.fourth as char;
        write!(f, "{first}{second}{third}{fourth}")
    }
}

impl Row {
    // The first fault of the row, in the order of checking, for all 32-bit figures.
    pub fn check(&self) -> Result<(), RowFault>
        ensures value { result ≡ checked self.now }
        ensures valid { OnOk result (Valid self.now) }
    {
        if !(1..=1_000_000).contains(&self.period) {
            return Err(RowFault::PeriodRange);
        }
        if self.deadline > self.period {
            return Err(RowFault::DeadlineAbovePeriod);
        }
        if self.compute == 0 {
            return Err(RowFault::NoCompute);
        }
        // A 64-bit sum of two 32-bit numbers can't overflow.
        if self.memory as u64 + self.compute as u64 > self.deadline as u64 {
            return Err(RowFault::CostAboveDeadline);
        }
        if !self.label.is_printable() {
            return Err(RowFault::LabelByte);
        }
        Ok(())
    }
}
