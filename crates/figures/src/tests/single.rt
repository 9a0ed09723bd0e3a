use super::{fault_of, label_with, task};
use std::process::Abort;

// Figures of a row, and its fault.
#[test]
fn figures(rt: HostRuntime) {
    // memory, compute, deadline, period; fault
    let cases = [
        (0, 1, 1, 0, 11),
        (0, 1, 1, 1, 0),
        (0, 1, 1, 1_000_000, 0),
        (999_999, 1, 1_000_000, 1_000_000, 0),
        (0, 1, 1, 1_000_001, 11),
        (0, 1, 1, u32::MAX, 11),
        (0, 1, 10, 10, 0),
        (0, 1, 11, 10, 12),
        (0, 1, u32::MAX, 10, 12),
        (0, 0, 10, 10, 13),
        (u32::MAX, 0, 10, 10, 13),
        (2, 3, 5, 5, 0),
        (2, 3, 4, 5, 14),
        (3, 3, 5, 5, 14),
        (u32::MAX, u32::MAX, 1_000_000, 1_000_000, 14),
        (u32::MAX, 1, 10, 10, 14),
    ];
    for (memory, compute, deadline, period, fault) in cases {
        let row = task(memory, compute, deadline, period, label_with(0, b'T'));
        assert_eq!(rt; fault_of(row.check()), fault, "{row:?}");
    }
}

// Of several faults of a row the first in the order of checking is told.
#[test]
fn first_fault(rt: HostRuntime) {
    // memory, compute, deadline, period, third byte of the label; fault
    let cases = [
        (u32::MAX, u32::MAX, u32::MAX, u32::MAX, 0x20, 11),
        (9, 0, 5, 0, 0x20, 11),
        (9, 0, 6, 5, 0x20, 12),
        (u32::MAX, u32::MAX, u32::MAX, 5, 0x20, 12),
        (9, 0, 5, 5, 0x20, 13),
        (9, 1, 5, 5, 0x20, 14),
        (4, 1, 5, 5, 0x20, 15),
        (4, 1, 5, 5, 0x21, 0),
    ];
    for (memory, compute, deadline, period, byte, fault) in cases {
        let row = task(memory, compute, deadline, period, label_with(2, byte));
        assert_eq!(rt; fault_of(row.check()), fault, "{row:?}");
    }
}

// A label's byte at each of the four places.
#[test]
fn label_bytes(rt: HostRuntime) {
    for place in 0..4 {
        label_bytes_at(&rt, place);
    }
}

fn label_bytes_at(rt: &impl Abort, place: u8) {
    let cases = [
        (0x00, 15),
        (0x20, 15),
        (0x21, 0),
        (0x7E, 0),
        (0x7F, 15),
        (0xFF, 15),
    ];
    for (byte, fault) in cases {
        let row = task(2, 3, 5, 5, label_with(place, byte));
        assert_eq!(rt; fault_of(row.check()), fault, "byte {byte} at {place}");
    }
}
