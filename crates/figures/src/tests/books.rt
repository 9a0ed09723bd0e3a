use super::filled;
use rows::draft::Draft;
use rows::fault::{BadRecord, BookFault, DraftFault, LoadFault, RecordFault, Refusal, RowFault};
use rows::row::{Label, Row};
use std::alloc::{AllocError, Global};
use std::process::Abort;
use std::test::Fail;

// The record of row i of the filled drafts.
fn record(i: u8) -> [u8; 24] {
    let mut bytes =
        *b"\x00\x00\x00\x00\x00\x00\x00\x01\x00\x00\x00\x63\x00\x00\x00\x63\x00\x00\x00\x00TAGS";
    bytes[3] = i;
    bytes
}

// The book of the rows from `first` on and below `end` of the filled drafts.
fn book(heap: Global, first: u8, end: u8) -> Result<Vec<u8>, AllocError> {
    let mut bytes = Vec::new(heap);
    for i in first..end {
        bytes.extend_from_slice(&record(i))?;
    }
    Ok(bytes)
}

fn write(bytes: &mut Vec<u8>, place: usize, value: u8) {
    if let Some(byte) = bytes.get_mut(place) {
        *byte = value;
    }
}

// What a load tells: its fault's number, 0 for none, and the record that has the fault.
// Stays: feed_tests tells a list's check the same way, but that it also tells the count of records; sharing takes a crate.
fn told(res: Result<(), LoadFault>) -> (u8, Option<usize>) {
    match res.map_err(Refusal::from) {
        Ok(()) => (0, None),
        Err(Refusal { number, record }) => (number, record),
    }
}

// The four figures of a record have their greatest byte first.
#[test]
fn big_endian(rt: HostRuntime) -> Result<(), Fail> {
    let bytes =
        b"\x00\x01\x02\x03\x00\x02\x03\x04\x00\x04\x05\x06\x00\x06\x07\x08\x09\x0A\x00\x00CENT";
    let mut draft = Draft::new();
    draft.load(bytes)?;
    let wanted = Row {
        memory: 66_051,
        compute: 131_844,
        deadline: 263_430,
        period: 395_016,
        memory_rank: 9,
        processor_rank: 10,
        label: Label::from(*b"CENT"),
    };
    assert_eq!(rt; draft.row(0), Ok(wanted));
    Ok(())
}

// The first bytes of a book of three records, into a draft of one row: only whole records are a book.
#[test]
fn lengths(rt: HostRuntime) -> Result<(), Fail> {
    let heap = rt.alloc();
    // bytes; fault, rows after
    let cases = [
        (0, 0, 1),
        (1, 31, 1),
        (23, 31, 1),
        (24, 0, 2),
        (25, 31, 1),
        (47, 31, 1),
        (48, 0, 3),
        (72, 0, 4),
    ];
    for (length, fault, after) in cases {
        let mut bytes = book(heap, 1, 4)?;
        bytes.truncate(length);
        let mut draft = filled(1)?;
        assert_eq!(rt; told(draft.load(&bytes)), (fault, None), "{}", length);
        assert!(rt; draft.rows() == filled(after)?.rows(), "{}", length);
    }
    Ok(())
}

// As many records as there is room for, and one more, which has the fault.
#[test]
fn room(rt: HostRuntime) -> Result<(), Fail> {
    let heap = rt.alloc();
    // rows before, rows and records together; fault, its record, rows after
    let cases = [
        (0, 32, 0, None, 32),
        (0, 33, 21, Some(32), 0),
        (5, 32, 0, None, 32),
        (5, 33, 21, Some(27), 5),
        (31, 32, 0, None, 32),
        (31, 33, 21, Some(1), 31),
        (32, 32, 0, None, 32),
        (32, 33, 21, Some(0), 32),
    ];
    for (n, all, fault, at, after) in cases {
        let mut draft = filled(n)?;
        assert_eq!(rt;
            told(draft.load(&book(heap, n, all)?)),
            (fault, at),
            "{}",
            n
        );
        assert!(rt; draft.rows() == filled(after)?.rows(), "{}", n);
    }
    Ok(())
}

// One byte of the middle of three records is another, in a load into a draft of two rows.
#[test]
fn record_faults(rt: HostRuntime) -> Result<(), Fail> {
    let heap = rt.alloc();
    // place in the record, byte; fault
    let cases = [
        (0, 255, 14),
        (3, 98, 0),
        (3, 99, 14),
        (4, 255, 14),
        (7, 0, 13),
        (8, 1, 12),
        (11, 100, 12),
        (11, 4, 0),
        (11, 3, 14),
        (12, 1, 11),
        (15, 0, 11),
        (16, 255, 0),
        (17, 255, 0),
        (18, 1, 16),
        (19, 128, 16),
        (20, 0x20, 15),
        (21, 0x7F, 15),
        (22, 0x21, 0),
        (23, 0x7E, 0),
    ];
    for (place, byte, fault) in cases {
        middle_record(&rt, heap, place, byte, fault)?;
    }
    Ok(())
}

fn middle_record(
    rt: &impl Abort,
    heap: Global,
    place: u8,
    byte: u8,
    fault: u8,
) -> Result<(), Fail> {
    let mut bytes = book(heap, 2, 5)?;
    write(&mut bytes, 24 + place as usize, byte);
    let mut draft = filled(2)?;
    let answer = told(draft.load(&bytes));
    if fault == 0 {
        assert_eq!(rt; answer, (0, None), "{byte} at {place}");
        assert_eq!(rt; draft.count(), 5, "{byte} at {place}");
        Ok(())
    } else {
        assert_eq!(rt; answer, (fault, Some(1)), "{byte} at {place}");
        assert!(rt; draft.rows() == filled(2)?.rows(), "{byte} at {place}");
        Ok(())
    }
}

// Of several faults the length is told first, then the first record's, and of a record the first in the order of checking.
#[test]
fn first_fault(rt: HostRuntime) -> Result<(), Fail> {
    let heap = rt.alloc();
    // rows before, bytes of the book, two bytes written into it; fault and its record
    let cases = [
        (2, 71, (15, 0), (18, 1), (31, None)),
        (32, 25, (15, 0), (18, 1), (31, None)),
        (32, 24, (15, 0), (18, 1), (21, Some(0))),
        (31, 48, (31, 0), (39, 0), (21, Some(1))),
        (31, 48, (7, 0), (31, 0), (13, Some(0))),
        (2, 72, (18, 1), (23, 0x20), (15, Some(0))),
        (2, 72, (43, 1), (24, 1), (14, Some(1))),
        (2, 72, (66, 1), (63, 0), (11, Some(2))),
        (2, 72, (42, 1), (63, 0), (16, Some(1))),
    ];
    for (n, length, (place, byte), (other, value), wanted) in cases {
        let mut bytes = book(heap, 0, 3)?;
        write(&mut bytes, place, byte);
        write(&mut bytes, other, value);
        bytes.truncate(length);
        let mut draft = filled(n)?;
        assert_eq!(rt; told(draft.load(&bytes)), wanted, "{place} and {other}");
        assert!(rt; draft.rows() == filled(n)?.rows(), "{place} and {other}");
    }
    Ok(())
}

// The fault of a record lies whole inside that of the load.
#[test]
fn whole_fault(rt: HostRuntime) -> Result<(), Fail> {
    let heap = rt.alloc();
    // rows before, a byte written into the second record; its fault
    let cases = [
        (0, 7, 0, RecordFault::Row(RowFault::NoCompute)),
        (0, 20, 0x7F, RecordFault::Row(RowFault::LabelByte)),
        (0, 18, 1, RecordFault::Reserved),
        (31, 18, 1, RecordFault::Draft(DraftFault::Full)),
    ];
    for (n, place, byte, fault) in cases {
        let mut bytes = book(heap, 0, 2)?;
        write(&mut bytes, 24 + place as usize, byte);
        let bad = BadRecord { number: 1, fault };
        let wanted = Err(LoadFault::Book(BookFault::Record(bad)));
        assert_eq!(rt; filled(n)?.load(&bytes), wanted, "{}", place);
    }
    Ok(())
}
