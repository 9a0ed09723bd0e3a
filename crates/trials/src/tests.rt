use filter::convert::{make_book, show_book};
use filter::fault::ConvertFault;
use lines::fault::{BadWord, Reason};
use std::test::Fail;
use tables::fault::{BadLine, LineFault};
use tables::read::read_table;

// The first fault of a table, if it has one.
fn fault_of(text: &str) -> Option<BadLine> {
    read_table(text.as_bytes()).err()
}

// What is told of a faulty row: its line and the number.
// Stays: a test keeps its values, among them 0 where there is nothing.
fn refused(text: &str) -> (usize, u8) {
    match read_table(text.as_bytes()) {
        Err(
            BadLine {
                line,
                fault: LineFault::Edit(fault),
            },
        ) => (line, fault.number()),
        _ => (0, 0),
    }
}

// A faulty word of the first line.
fn bad(word: usize, reason: Reason) -> Option<BadLine> {
    Some(BadLine {
        line: 1,
        fault: LineFault::Word(BadWord { word, reason }),
    })
}

// Each fault of a word, at its edges.
#[test]
fn words(rt: HostRuntime) {
    let cases = [
        ("TAGS 1 1 10 10 0 0", None),
        ("#ABC 1 1 10 10 255 255", None),
        ("!~!~\t0 1 1000000\t1000000 000 0255 \r", None),
        ("TAG 1 1 10 10 0 0", bad(0, Reason::NotALabel)),
        ("TAGSS 1 1 10 10 0 0", bad(0, Reason::NotALabel)),
        ("TAG\u{7F} 1 1 10 10 0 0", bad(0, Reason::NotALabel)),
        ("T\u{E4}G 1 1 10 10 0 0", bad(0, Reason::NotALabel)),
        ("TAGS 1x 1 10 10 0 0", bad(1, Reason::NotANumber)),
        ("TAGS 1 +1 10 10 0 0", bad(2, Reason::NotANumber)),
        ("TAGS 1 1 -10 10 0 0", bad(3, Reason::NotANumber)),
        ("TAGS 1 1 10 / 0 0", bad(4, Reason::NotANumber)),
        ("TAGS 4294967296 1 10 10 0 0", bad(1, Reason::TooLarge)),
        (
            "TAGS 99999999999999999999 1 10 10 0 0",
            bad(1, Reason::TooLarge),
        ),
        ("TAGS 1 1 10 10 256 0", bad(5, Reason::RankAbove)),
        ("TAGS 1 1 10 10 0 4294967295", bad(6, Reason::RankAbove)),
        ("TAGS 1 1 10 10 0 4294967296", bad(6, Reason::TooLarge)),
        ("TAGS", bad(1, Reason::Missing)),
        ("TAGS 1 1 10 10 0", bad(6, Reason::Missing)),
        ("TAGS 1 1 10 10 0 0 0", bad(7, Reason::Extra)),
        ("TAGS 1 1 10 10 0 0 # no", bad(7, Reason::Extra)),
    ];
    for (text, fault) in cases {
        assert_eq!(rt; fault_of(text), fault, "{text}");
    }
}

// The rules' numbers, and the line that they are told of.
#[test]
fn rules(rt: HostRuntime) {
    let cases = [
        ("TAGS 1 1 10 0 0 0", 1, 11),
        ("TAGS 1 1 10 1000001 0 0", 1, 11),
        ("\nTAGS 1 1 11 10 0 0", 2, 12),
        ("# a comment\n\n \t\r\nTAGS 1 0 10 10 0 0\n", 4, 13),
        ("TAGS 1 1 10 10 0 0\r\nCENT 10 1 10 10 0 0\r\n", 2, 14),
        ("TAGS 4294967295 4294967295 10 10 0 0", 1, 14),
    ];
    for (text, line, number) in cases {
        assert_eq!(rt; refused(text), (line, number), "{text}");
    }
}

// The line of a row that any table may have.
const ROW: &str = "TAGS 1 1 10 10 0 0\n";

// 32 rows are taken, and a 33rd is told.
#[test]
fn full(rt: HostRuntime) -> Result<(), Fail> {
    let heap = rt.alloc();
    let most = ROW.repeat(heap, 32)?;
    assert_eq!(rt; fault_of(most.as_str()), None);
    let more = ROW.repeat(heap, 33)?;
    assert_eq!(rt; refused(more.as_str()), (33, 21));
    Ok(())
}

// A row in loose columns.
const LOOSE: &str = "# LABEL M C D T\n\tTAGS 9 1 20 20  1 1\r\n\nCENT 1 9 24 24 0 0";

// Making a book and showing it again lines the columns up.
#[test]
fn both_ways(rt: HostRuntime) -> Result<(), Fail> {
    let heap = rt.alloc();
    let book = make_book(heap, LOOSE.as_bytes())?;
    let table = show_book(heap, &book)?;
    let wanted = "\
# LABEL       M       C       D       T MEMORY-RANK PROCESSOR-RANK
TAGS          9       1      20      20           1              1
CENT          1       9      24      24           0              0
";
    assert!(rt; table.as_slice() == wanted.as_bytes());
    Ok(())
}

// A faulty book is turned down.
#[test]
fn faulty_book(rt: HostRuntime) -> Result<(), Fail> {
    match show_book(rt.alloc(), b"TAGS") {
        Err(ConvertFault::Input(fault)) => {
            assert_eq!(rt; fault.number(), 31);
            Ok(())
        },
        _ => Err(Fail::new("taken")),
    }
}
