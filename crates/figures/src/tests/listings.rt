use listing::fault::ListingFault;
use listing::listing::{list_fault, list_rating};
use rating::order::{ByDeadline, ByMemoryRank, ByPeriod, ByProcessorRank};
use rating::rating::close;
use rows::draft::Draft;
use std::test::Fail;

// Book A, with both ranks 1, 0 and 2.
const BOOK_A: [u8; 72] =
    *b"\x00\x00\x00\x09\x00\x00\x00\x01\x00\x00\x00\x14\x00\x00\x00\x14\x01\x01\x00\x00TAGS\x00\x00\x00\x01\x00\x00\x00\x09\x00\x00\x00\x18\x00\x00\x00\x18\x00\x00\x00\x00CENT\x00\x00\x00\x05\x00\x00\x00\x05\x00\x00\x00\x23\x00\x00\x00\x23\x02\x02\x00\x00DARK";

const ACCEPTED: &[u8] =
    b"00 TAGS 10 10 20 20\n01 CENT 1 9 10 24\n02 DARK 15 16 31 35\naccepted 3\n";

// Whether every byte is 7, as the buffers of these tests are at first.
fn untouched(bytes: &[u8]) -> bool {
    bytes.iter().all(|byte| *byte == 7)
}

// Whether a listing answered the text's length, wrote the text and left the later bytes.
fn shows(answer: Result<usize, ListingFault>, out: &[u8], text: &[u8]) -> bool {
    answer == Ok(text.len()) && out.strip_prefix(text).is_some_and(untouched)
}

// What program `rate` shows of a book.
fn rated(book: &[u8], out: &mut [u8]) -> Result<usize, ListingFault> {
    let mut draft = Draft::new();
    match draft.load(book) {
        Ok(()) => list_rating(&close(draft, ByMemoryRank, ByProcessorRank), out),
        Err(fault) => list_fault(&fault, out),
    }
}

fn lists(book: &[u8], text: &[u8]) -> bool {
    let mut out = [7; 1292];
    let answer = rated(book, &mut out);
    shows(answer, &out, text)
}

// Whether a buffer of 1,291 bytes is refused with 63, and stays as it was.
fn refuses(book: &[u8]) -> bool {
    let mut out = [7; 1291];
    rated(book, &mut out).is_err_and(|fault| fault.number() == 63) && untouched(&out)
}

// 1,291 bytes are too few for either listing, whatever the text; 1,292 are enough.
#[test]
fn buffers(rt: HostRuntime) {
    assert!(rt; refuses(&BOOK_A));
    assert!(rt; refuses(&BOOK_A[0..0]));
    assert!(rt; refuses(&BOOK_A[0..71]));
    assert!(rt; lists(&BOOK_A, ACCEPTED));
}

// Each kind of text.
#[test]
fn texts(rt: HostRuntime) {
    let mut late = BOOK_A;
    late[16] = 0;
    late[17] = 0;
    late[40] = 1;
    late[41] = 1;
    let mut costly = BOOK_A;
    costly[31] = 24;
    let mut loads = BOOK_A;
    loads[3] = 19;
    loads[27] = 2;
    assert!(rt; lists(&BOOK_A[0..0], b"accepted 0\n"));
    assert!(rt; lists(&late, b"late processor 02\n"));
    assert!(rt; lists(&loads, b"late memory 00\n"));
    assert!(rt; lists(&costly, b"turned down 14 record 1\n"));
    assert!(rt; lists(&BOOK_A[0..25], b"turned down 31\n"));
}

// Book A by deadline and by period is the late order; a reopened draft is the one that was closed.
#[test]
fn orders(rt: HostRuntime) -> Result<(), Fail> {
    let mut draft = Draft::new();
    draft.load(&BOOK_A)?;
    let mut out = [7; 1292];
    let rating = close(draft, ByDeadline, ByPeriod);
    let answer = list_rating(&rating, &mut out);
    assert!(rt; shows(answer, &out, b"late processor 02\n"));
    assert_eq!(rt; rating.bounds(0), None);
    let (draft, _, _) = rating.reopen();
    let mut out = [7; 1292];
    let rating = close(draft, ByMemoryRank, ByProcessorRank);
    let answer = list_rating(&rating, &mut out);
    assert!(rt; shows(answer, &out, ACCEPTED));
    assert_eq!(rt; rating.bounds(2), Some((15, 16)));
    assert_eq!(rt; rating.bounds(3), None);
    Ok(())
}
