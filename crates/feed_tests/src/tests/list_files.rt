use super::{N, list_of, promised, record, takes};
use feeds::feed::Feed;
use feeds::mark::Mark;
use feeds::pledge::Pledge;
use lists::list::List;
use lists::records::check_list;
use lists::records::fault::CheckFault;
use rows::fault::Refusal;
use std::alloc::{AllocError, Global};
use std::test::Fail;

// What the list check tells: the fault's number, 0 for none, and the record at fault or the count of records.
// Stays: a test keeps its values, among them 0 where there is nothing.
fn told(answer: Result<usize, CheckFault>) -> (u8, Option<usize>) {
    match answer.map_err(Refusal::from) {
        Ok(count) => (0, Some(count)),
        Err(Refusal { number, record }) => (number, record),
    }
}

// Five records at steps 5 to 9, with a byte of the middle one written over.
fn spoiled(heap: Global, place: u8, byte: u8) -> Result<Vec<u8>, AllocError> {
    let mut bytes = list_of(
        heap,
        &[
            (5, 1, 11, 0),
            (6, 2, 12, 31),
            (7, 3, 13, 0),
            (8, 4, 14, 31),
            (9, 5, 15, 0),
        ],
    )?;
    if let Some(spot) = bytes.get_mut(32 + place as usize) {
        *spot = byte;
    }
    Ok(bytes)
}

// A faulty record in the middle ends the list for the feed, and those before it still come; the check names its fault.
#[test]
fn faults(rt: HostRuntime) -> Result<(), Fail> {
    // place in the record, byte; fault
    let cases = [
        (12, 32, 42),
        (12, 255, 42),
        (3, 5, 43),
        (3, 0, 43),
        (11, 0, 44),
        (8, 1, 44),
        (4, 1, 45),
        (13, 1, 46),
        (14, 128, 46),
        (15, 255, 46),
    ];
    for (place, byte, fault) in cases {
        let bytes = spoiled(rt.alloc(), place, byte)?;
        assert_eq!(rt; told(check_list(&bytes)), (fault, Some(2)), "{}", place);
        let mut list = List::new(&bytes);
        assert_eq!(rt; list.count(), 2, "{}", place);
        takes(
            &rt,
            u32::from(place),
            &mut list,
            12,
            &[(5, 0, 1, 11), (6, 31, 2, 12)],
        )?;
    }
    Ok(())
}

// A list that is cut short by 1 to 15 bytes has the records before the last; the check tells the length.
#[test]
fn cut_short(rt: HostRuntime) -> Result<(), Fail> {
    for missing in 0..17 {
        let mut bytes = list_of(rt.alloc(), &[(0, 1, 1, 4), (1, 2, 2, 4), (2, 3, 3, 4)])?;
        bytes.truncate(48 - missing as usize);
        let mut list = List::new(&bytes);
        let wanted = match missing {
            0 => (0, Some(3)),
            16 => (0, Some(2)),
            _ => (41, None),
        };
        assert_eq!(rt; told(check_list(&bytes)), wanted, "{}", missing);
        let taken = [(0, 4, 1, 1), (1, 4, 2, 2), (2, 4, 3, 3)];
        let whole = if missing == 0 { 3 } else { 2 };
        takes(&rt, missing, &mut list, 4, &taken[..whole])?;
    }
    Ok(())
}

// Figures at their edges in the second of two records, behind one of step 5; of several faults the first is told.
#[test]
fn edges(rt: HostRuntime) -> Result<(), Fail> {
    // step, m, c, row; fault, and its record or the count
    let cases = [
        ((5, 0, 1, 0), (0, Some(2))),
        ((u32::MAX, N, N, 31), (0, Some(2))),
        ((5, 0, 1, 32), (42, Some(1))),
        ((4, 0, 1, 31), (43, Some(1))),
        ((0, 0, 1, 0), (43, Some(1))),
        ((5, 0, 0, 0), (44, Some(1))),
        ((5, 0, N + 1, 0), (44, Some(1))),
        ((5, 0, u32::MAX, 0), (44, Some(1))),
        ((5, N + 1, 1, 0), (45, Some(1))),
        ((5, u32::MAX, 1, 0), (45, Some(1))),
        ((4, N + 1, 0, 32), (42, Some(1))),
        ((4, N + 1, 0, 31), (43, Some(1))),
        ((5, N + 1, 0, 31), (44, Some(1))),
    ];
    for (figures, wanted) in cases {
        let bytes = list_of(rt.alloc(), &[(5, 1, 1, 1), figures])?;
        assert_eq!(rt; told(check_list(&bytes)), wanted, "{}", figures.0);
    }
    let mut both = record(5, N + 1, 1, 0);
    both[15] = 1;
    assert_eq!(rt; told(check_list(&both)), (45, Some(0)));
    assert_eq!(rt; told(check_list(&both[0..15])), (41, None));
    assert_eq!(rt; told(check_list(b"")), (0, Some(0)));
    Ok(())
}

// A mark's records come in their order, each once its step is reached, and one in a step at most.
#[test]
fn clock_and_rest(rt: HostRuntime) -> Result<(), Fail> {
    let bytes = list_of(
        rt.alloc(),
        &[
            (0, 1, 1, 6),
            (0, 2, 2, 6),
            (0, 3, 3, 5),
            (4, 4, 4, 6),
            (4, 5, 5, 6),
            (u32::MAX, 6, 6, 5),
        ],
    )?;
    let mut list = List::new(&bytes);
    assert_eq!(rt; promised(&list, Mark::new(6)?), (1, N, N));
    assert_eq!(rt; list.kind(), b'L');
    let k = Mark::new(6)?;
    assert_eq!(rt;
        (list.take(k), list.look(k), list.take(k)),
        (Some((1, 1)), None, None)
    );
    takes(
        &rt,
        0,
        &mut list,
        8,
        &[(0, 5, 3, 3), (1, 6, 2, 2), (4, 6, 4, 4), (5, 6, 5, 5)],
    )
}
