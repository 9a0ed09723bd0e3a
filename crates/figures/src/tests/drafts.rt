use super::{fault_of, filled, nth, too_costly};
use rows::draft::Draft;
use rows::row::Row;
use std::test::Fail;

// A row is added up to 32; a full draft is told before the row's own fault.
#[test]
fn add(rt: HostRuntime) -> Result<(), Fail> {
    // rows before, whether the row is valid; fault, rows after
    let cases = [
        (0, true, 0, 1),
        (0, false, 14, 0),
        (31, true, 0, 32),
        (31, false, 14, 31),
        (32, true, 21, 32),
        (32, false, 21, 32),
    ];
    for (n, valid, fault, after) in cases {
        let mut draft = filled(n)?;
        let row = if valid { nth(n) } else { too_costly() };
        assert_eq!(rt; fault_of(draft.add(row)), fault, "to {n} rows");
        assert!(rt; draft.rows() == filled(after)?.rows(), "to {n} rows");
    }
    Ok(())
}

// One row is changed and the others stay; a number without a row is told before the row's own fault.
#[test]
fn change(rt: HostRuntime) -> Result<(), Fail> {
    // rows, number, whether the row is valid; fault
    let cases = [
        (0, 0, true, 22),
        (3, 0, true, 0),
        (3, 2, true, 0),
        (3, 2, false, 14),
        (3, 3, true, 22),
        (3, 3, false, 22),
        (3, 255, true, 22),
        (32, 31, true, 0),
        (32, 32, true, 22),
    ];
    for (n, i, valid, fault) in cases {
        let mut draft = filled(n)?;
        let row = if valid { nth(50) } else { too_costly() };
        assert_eq!(rt; fault_of(draft.change(i, row)), fault, "{i} of {n}");
        let wanted = |k| nth(if fault == 0 && k == i { 50 } else { k });
        assert!(rt; has_rows(&draft, n, wanted), "{i} of {n}");
    }
    Ok(())
}

// Whether a draft has n rows, and at each number the row that is wanted there.
fn has_rows<W: Fn(u8) -> Row>(draft: &Draft, n: u8, wanted: W) -> bool
    requires { (f : _) (x : _) → W.pre f x }
{
    draft.count() == n && (0..n).all(|k| draft.row(k) == Ok(wanted(k)))
}

// A row is taken out, and the later ones move down by one.
#[test]
fn remove(rt: HostRuntime) -> Result<(), Fail> {
    // rows, number; fault
    let cases = [
        (0, 0, 22),
        (1, 0, 0),
        (3, 0, 0),
        (3, 1, 0),
        (3, 2, 0),
        (3, 3, 22),
        (3, 255, 22),
        (32, 0, 0),
        (32, 31, 0),
        (32, 32, 22),
    ];
    for (n, i, fault) in cases {
        let mut draft = filled(n)?;
        let gone = draft.remove(i);
        assert_eq!(rt; fault_of(gone), fault, "{i} of {n}");
        if fault == 0 {
            let wanted = |k: u8| nth(if k < i { k } else { k.saturating_add(1) });
            assert!(rt; gone == Ok(nth(i)), "{i} of {n}");
            assert!(rt; has_rows(&draft, n - 1, wanted), "{i} of {n}");
        } else {
            assert!(rt; draft.rows() == filled(n)?.rows(), "{i} of {n}");
        }
    }
    Ok(())
}

// A row is read by its number, which alters nothing.
#[test]
fn read(rt: HostRuntime) -> Result<(), Fail> {
    // rows, number; fault
    let cases = [
        (0, 0, 22),
        (3, 0, 0),
        (3, 2, 0),
        (3, 3, 22),
        (3, 255, 22),
        (32, 31, 0),
        (32, 32, 22),
    ];
    for (n, i, fault) in cases {
        let draft = filled(n)?;
        assert_eq!(rt; fault_of(draft.row(i)), fault, "{i} of {n}");
        assert!(rt; fault != 0 || draft.row(i) == Ok(nth(i)), "{i} of {n}");
    }
    Ok(())
}
