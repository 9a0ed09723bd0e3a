ghost use Rattle.rows.specs.Faults.{book_number, draft_number, edit_number, load_number, record_number, row_number};
ghost use Rattle.rows.specs.declared.fault.BookFault.TheVariants.{Record as InRecord};
ghost use Rattle.rows.specs.declared.fault.EditFault.TheVariants.{Draft as InDraft, Row as InRow};
ghost use Rattle.rows.specs.declared.fault.LoadFault.TheVariants.{Book as InBook};
ghost use Rattle.rows.specs.declared.fault.RecordFault.TheVariants.{Draft as NoRoom, Row as OfRow};
ghost use Rattle.rows.specs.Refusals.{refusal_of, refusal_text};
ghost use Rattle.std.specs.Prelude.{◌≡◌, Some};

use std::fmt;

// What is wrong with a row, in the order of checking.
#[derive(Clone, Copy, PartialEq, Eq, Debug)]
pub enum RowFault {
    // The period is not from 1 to 1,000,000.
    PeriodRange,
    // The deadline is above the period.
    DeadlineAbovePeriod,
    // There is no processor step.
    NoCompute,
    // Memory and processor steps together are above the deadline.
    CostAboveDeadline,
    // A label byte is not from 21 to 7E hexadecimal.
    LabelByte,
}

// Why a draft refuses, whatever the row.
#[derive(Clone, Copy, PartialEq, Eq, Debug)]
pub enum DraftFault {
    // There are 32 rows already.
    Full,
    // No row has this number.
    NoSuchRow,
}

// Why an edit of a draft is refused: the draft's fault is found before the row's.
#[derive(Clone, Copy, PartialEq, Eq, Debug)]
pub enum EditFault {
    Draft(DraftFault),
    Row(RowFault),
}

// What is wrong with one record of a book, in the order of checking.
#[derive(Clone, Copy, PartialEq, Eq, Debug)]
pub enum RecordFault {
    Draft(DraftFault),
    Row(RowFault),
    // One of the two bytes behind the ranks is not zero.
    Reserved,
}

// The fault of a record of a file, whatever faults the file's records have, with the record's number, counted from 0.
#[derive(Clone, Copy, PartialEq, Eq, Debug)]
pub struct BadRecord<F> {
    pub number: usize,
    pub fault: F,
}

// What is wrong with a book.
#[derive(Clone, Copy, PartialEq, Eq, Debug)]
pub enum BookFault {
    // The length is not a multiple of a record's.
    Length,
    Record(BadRecord<RecordFault>),
}

// Why a load is refused: the case names the kind of file.
#[derive(Clone, Copy, PartialEq, Eq, Debug)]
pub enum LoadFault {
    Book(BookFault),
}

// What is told of a file that is turned down: the fault's number and, if it lies in a record, the record's.
#[derive(Clone, Copy, PartialEq, Eq, Debug)]
pub struct Refusal {
    pub number: u8,
    pub record: Option<usize>,
}

// Stays: that each refusal has a number in decimal is a rule of the project; the cases say the same by name.
impl RowFault {
    pub fn number(&self) -> u8
        ensures { result ≡ row_number self.now }
    {
        match self {
            RowFault::PeriodRange => 11,
            RowFault::DeadlineAbovePeriod => 12,
            RowFault::NoCompute => 13,
            RowFault::CostAboveDeadline => 14,
            RowFault::LabelByte => 15,
        }
    }
}

impl DraftFault {
    pub fn number(&self) -> u8
        ensures { result ≡ draft_number self.now }
    {
        match self {
            DraftFault::Full => 21,
            DraftFault::NoSuchRow => 22,
        }
    }
}

impl EditFault {
    pub fn number(&self) -> u8
        ensures { result ≡ edit_number self.now }
    {
        match self {
            EditFault::Draft(fault) => fault.number(),
            EditFault::Row(fault) => fault.number(),
        }
    }
}

impl RecordFault {
    pub fn number(&self) -> u8
        ensures { result ≡ record_number self.now }
    {
        match self {
            RecordFault::Draft(fault) => fault.number(),
            RecordFault::Row(fault) => fault.number(),
            RecordFault::Reserved => 16,
        }
    }
}

impl BookFault {
    pub fn number(&self) -> u8
        ensures { result ≡ book_number self.now }
    {
        match self {
            BookFault::Length => 31,
            BookFault::Record(bad) => bad.fault.number(),
        }
    }
}

impl LoadFault {
    pub fn number(&self) -> u8
        ensures { result ≡ load_number self.now }
    {
        match self {
            LoadFault::Book(fault) => fault.number(),
        }
    }
}

impl From<DraftFault> for EditFault {
    ghost from_gives = { λ fault edit. edit ≡ InDraft fault };

    fn from(value: DraftFault) -> EditFault {
        EditFault::Draft(value)
    }
}

impl From<RowFault> for EditFault {
    ghost from_gives = { λ fault edit. edit ≡ InRow fault };

    fn from(value: RowFault) -> EditFault {
        EditFault::Row(value)
    }
}

impl From<DraftFault> for RecordFault {
    ghost from_gives = { λ fault bad. bad ≡ NoRoom fault };

    fn from(value: DraftFault) -> RecordFault {
        RecordFault::Draft(value)
    }
}

impl From<RowFault> for RecordFault {
    ghost from_gives = { λ fault bad. bad ≡ OfRow fault };

    fn from(value: RowFault) -> RecordFault {
        RecordFault::Row(value)
    }
}

impl From<BadRecord<RecordFault>> for BookFault {
    ghost from_gives = { λ bad fault. fault ≡ InRecord bad };

    fn from(value: BadRecord<RecordFault>) -> BookFault {
        BookFault::Record(value)
    }
}

impl From<BookFault> for LoadFault {
    ghost from_gives = { λ fault load. load ≡ InBook fault };

    fn from(value: BookFault) -> LoadFault {
        LoadFault::Book(value)
    }
}

impl From<LoadFault> for Refusal {
    ghost from_gives = { λ fault refusal. refusal ≡ refusal_of fault };

    fn from(value: LoadFault) -> Refusal {
        let LoadFault::Book(fault) = value;
        let record = match fault {
            BookFault::Length => None,
            BookFault::Record(bad) => Some(bad.number),
        };
        Refusal {
            number: value.number(),
            record,
        }
    }
}

impl fmt::Display for Refusal {
    ghost output = { λ refusal. Some (refusal_text refusal) };

    fn fmt<W: fmt::Write>(&self, f: &mut fmt::Formatter<W>) -> fmt::Result {
        write!(f, "turned down {}", self.number)?;
        match self.record {
            Some(record) => write!(f, " record {record}"),
            None => Ok(()),
        }
    }
}
