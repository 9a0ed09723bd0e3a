ghost use Rattle.std.specs.Prelude.{◌≡◌};
ghost use Rattle.lists.specs.ListRecords.{arrival_at, checked, is_of, is_padded, numbered, step_at};

use super::fault::ListRecordFault;
use rows::fault::BadRecord;
use rows::word::word_at;

// One record of a list, where it lies in the file.
#[derive(Clone, Copy)]
pub(crate) struct Record<'a> {
    pub(crate) bytes: &'a [u8; 16],
}

// What a record of a list writes down: from which step on it may arrive, at which row, and what it costs.
#[derive(Clone, Copy)]
pub(crate) struct Arrival {
    pub(crate) step: u32,
    pub(crate) memory: u32,
    pub(crate) processor: u32,
    pub(crate) row: u8,
}

impl<'a> Record<'a> {
    pub(crate) fn step(&self) -> u32
        ensures { result ≡ step_at self.now.bytes.now 0 }
    {
        let bytes = self.bytes;
        word_at(bytes, 0)
    }

    // What it writes down, whatever its figures.
    pub(crate) fn arrival(&self) -> Arrival
        ensures { result ≡ arrival_at self.now.bytes.now 0 }
    {
        let bytes = self.bytes;
        Arrival {
            step: word_at(bytes, 0),
            memory: word_at(bytes, 4),
            processor: word_at(bytes, 8),
            row: bytes[12],
        }
    }

    pub(crate) fn is_of(&self, row: usize) -> bool
        ensures { result ≡ is_of row self.now.bytes.now }
    {
        self.bytes[12] as usize == row
    }

    // Whether the three bytes behind the row are zeros.
    fn is_padded(&self) -> bool
        ensures { result ≡ is_padded self.now.bytes.now 0 }
    {
        self.bytes[13] == 0 && self.bytes[14] == 0 && self.bytes[15] == 0
    }

    // The first fault, in the order of checking, behind a record of the earlier step.
    fn check(&self, earlier: u32) -> Result<(), ListRecordFault>
        ensures { result ≡ checked (arrival_at self.now.bytes.now 0) earlier (is_padded self.now.bytes.now 0) }
    {
        let arrival = self.arrival();
        if arrival.row > 31 {
            return Err(ListRecordFault::RowAbove);
        }
        if arrival.step < earlier {
            return Err(ListRecordFault::StepBack);
        }
        if !(1..=1_000_000).contains(&arrival.processor) {
            return Err(ListRecordFault::ProcessorRange);
        }
        if arrival.memory > 1_000_000 {
            return Err(ListRecordFault::MemoryAbove);
        }
        if !self.is_padded() {
            return Err(ListRecordFault::Reserved);
        }
        Ok(())
    }

    // The same, with the record's number told beside its fault.
    pub(crate) fn check_numbered(
        &self,
        number: usize,
        earlier: u32,
    ) -> Result<(), BadRecord<ListRecordFault>>
        ensures { result ≡ numbered number (checked (arrival_at self.now.bytes.now 0) earlier (is_padded self.now.bytes.now 0)) }
    {
        self.check(earlier)
            .map_err(|fault| BadRecord { number, fault })
    }
}
