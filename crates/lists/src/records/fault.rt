ghost use Rattle.lists.specs.ListFaults.{check_number, check_refusal, list_number, list_record_number};
ghost use Rattle.lists.specs.declared.records.fault.CheckFault.TheVariants.{List as InList};
ghost use Rattle.lists.specs.declared.records.fault.ListFault.TheVariants.{Record as InRecord};
ghost use Rattle.std.specs.Prelude.{◌≡◌};

use rows::fault::{BadRecord, Refusal};

// What is wrong with one record of a list, in the order of checking.
#[derive(Clone, Copy, PartialEq, Eq, Debug)]
pub enum ListRecordFault {
    // The row is above 31.
    RowAbove,
    // The step is below that of the record before.
    StepBack,
    // The processor steps are not from 1 to 1,000,000.
    ProcessorRange,
    // The memory steps are above 1,000,000.
    MemoryAbove,
    // One of the three bytes behind the row is not zero.
    Reserved,
}

// What is wrong with a list.
#[derive(Clone, Copy, PartialEq, Eq, Debug)]
pub enum ListFault {
    // The length is not a multiple of a record's.
    Length,
    Record(BadRecord<ListRecordFault>),
}

// Why a check fails: the case names the kind of file.
#[derive(Clone, Copy, PartialEq, Eq, Debug)]
pub enum CheckFault {
    List(ListFault),
}

// Stays: the numbers of refusals, and fault enums of their own for a book and a list, are rules of the project.
impl ListRecordFault {
    pub fn number(&self) -> u8
        ensures { result ≡ list_record_number self.now }
    {
        match self {
            ListRecordFault::RowAbove => 42,
            ListRecordFault::StepBack => 43,
            ListRecordFault::ProcessorRange => 44,
            ListRecordFault::MemoryAbove => 45,
            ListRecordFault::Reserved => 46,
        }
    }
}

impl ListFault {
    pub fn number(&self) -> u8
        ensures { result ≡ list_number self.now }
    {
        match self {
            ListFault::Length => 41,
            ListFault::Record(bad) => bad.fault.number(),
        }
    }
}

impl CheckFault {
    pub fn number(&self) -> u8
        ensures { result ≡ check_number self.now }
    {
        match self {
            CheckFault::List(fault) => fault.number(),
        }
    }
}

impl From<BadRecord<ListRecordFault>> for ListFault {
    ghost from_gives = { λ bad fault. fault ≡ InRecord bad };

    fn from(value: BadRecord<ListRecordFault>) -> ListFault {
        ListFault::Record(value)
    }
}

impl From<ListFault> for CheckFault {
    ghost from_gives = { λ fault check. check ≡ InList fault };

    fn from(value: ListFault) -> CheckFault {
        CheckFault::List(value)
    }
}

impl From<CheckFault> for Refusal {
    ghost from_gives = { λ check refusal. refusal ≡ check_refusal check };

    fn from(value: CheckFault) -> Refusal {
        let CheckFault::List(fault) = value;
        let record = match fault {
            ListFault::Length => None,
            ListFault::Record(bad) => Some(bad.number),
        };
        Refusal {
            number: value.number(),
            record,
        }
    }
}
