ghost use Rattle.std.specs.Prelude.{IfSome, ◌≡◌, ◌*◌, ◌/◌, ◌<◌, ◌≤◌, length};
ghost use Rattle.std.specs.List.{position};
ghost use Rattle.lists.specs.ListRecords.{Checks, FirstFaulty, FirstOfRow, Walked, arrival_at, checked_list, is_of, list_of, record_at, records_of, sought, sound_count, step_at};

pub mod fault;
mod record;

use fault::{CheckFault, ListFault, ListRecordFault};
use record::{Arrival, Record};
use rows::fault::BadRecord;

// The first so many records of a file, where they lie: 16 bytes each.
// Stays: all that is said of a list is said of the file's bytes, which a slice of records would no longer show.
#[derive(Clone, Copy)]
pub(crate) struct Records<'a> {
    bytes: &'a [u8],
    count: usize,
    ghost within: { 16 * count ≤ length bytes.now },
}

impl<'a> Records<'a> {
    // So many records of a file that has as many.
    pub(crate) fn first(bytes: &'a [u8], count: usize) -> Records<'a>
        requires { 16 * count ≤ length bytes.now }
        ensures bytes { result.bytes.now ≡ bytes.now }
        ensures count { result.count ≡ count }
    {
        Records { bytes, count }
    }

    // All of them. A last record that is cut short is passed over.
    fn all(bytes: &'a [u8]) -> Records<'a>
        ensures bytes { result.bytes.now ≡ bytes.now }
        ensures count { result.count ≡ length bytes.now / 16 }
    {
        Records::first(bytes, bytes.len() / 16)
    }

    // Each of them by its bytes.
    fn items(&self) -> &'a [[u8; 16]]
        ensures value { result.now ≡ records_of self.now.bytes.now self.now.count }
        ensures length { length result.now ≡ self.now.count }
    {
        let (records, _) = self.bytes.as_chunks::<16>();
        &records[..self.count]
    }

    // The record of a number.
    // Stays: a number that is known to be one of a file's records would have to carry the file, as a type.
    fn at(&self, number: usize) -> Record<'a>
        requires { number < self.now.count }
        ensures { result.bytes.now ≡ record_at self.now.bytes.now number }
    {
        Record {
            bytes: &self.items()[number],
        }
    }

    // The step of the record of a number.
    pub(crate) fn step(&self, number: usize) -> u32
        requires { number < self.now.count }
        ensures { result ≡ step_at self.now.bytes.now number }
    {
        self.at(number).step()
    }

    // The arrival of the record of a number, whatever its figures.
    pub(crate) fn arrival(&self, number: usize) -> Arrival
        requires { number < self.now.count }
        ensures { result ≡ arrival_at self.now.bytes.now number }
    {
        self.at(number).arrival()
    }

    // The number of the first record of a row from a number on, or the count if there is none.
    pub(crate) fn seek(&self, row: usize, from: usize) -> usize
        requires { from ≤ self.now.count }
        ensures value { result ≡ sought self.now.bytes.now self.now.count row from }
        ensures first { FirstOfRow self.now.bytes.now self.now.count row from result }
    {
        match first_of(&self.items()[from..], row) {
            Some(passed) => from + passed,
            None => self.count,
        }
    }

    // How many records there are, all of them without fault, or the first that has one.
    fn check(&self) -> Result<usize, BadRecord<ListRecordFault>>
        ensures { Walked self.now.bytes.now self.now.count result }
    {
        let mut earlier = 0;
        for (number, bytes) in self.items().iter().enumerate() {
            let record = Record { bytes };
            record.check_numbered(number, earlier)?;
            earlier = record.step();
        }
        Ok(self.count)
    }
}

// The place of the first record of a row.
fn first_of(records: &[[u8; 16]], row: usize) -> Option<usize>
    ensures value { result ≡ position (is_of row) records.now }
    ensures within { IfSome result (λ i. i < length records.now) }
{
    records.iter().position(|bytes| Record { bytes }.is_of(row))
}

// How many records stand before the first faulty one.
pub(crate) fn sound_count(bytes: &[u8]) -> usize
    ensures value { result ≡ sound_count bytes.now }
    ensures first { FirstFaulty bytes.now result }
{
    match Records::all(bytes).check() {
        Ok(count) => count,
        Err(bad) => bad.number,
    }
}

// How many records a list has, all of them without fault, or the list's first fault.
fn check_records(bytes: &[u8]) -> Result<usize, ListFault>
    ensures { result ≡ list_of bytes.now }
{
    if bytes.len() % 16 != 0 {
        return Err(ListFault::Length);
    }
    Ok(Records::all(bytes).check()?)
}

// Checks a list: tells how many records it has if it is without fault, or its first fault.
pub fn check_list(bytes: &[u8]) -> Result<usize, CheckFault>
    ensures value { result ≡ checked_list bytes.now }
    ensures first { Checks bytes.now result }
{
    Ok(check_records(bytes)?)
}
