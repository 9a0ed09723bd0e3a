use super::{book_a_ranked, first_responses, regular, shows};
use board::example::book_a_run;
use board::run::Run;
use feeds::clockwork::Clockwork;
use rating::order::{ByMemoryRank, ByProcessorRank};
use rating::rating::close;
use std::test::*;

// The first responses of Book A under clockwork are 11, 10 and 20, whichever way the run is begun.
#[test]
fn responses(rt: HostRuntime) -> Result<(), Fail> {
    let draft = book_a_ranked(1, 0, 2)?;
    let mut run = Run::close_and_begin(draft, ByMemoryRank, ByProcessorRank, regular()?);
    let seen = first_responses(&mut run, 70)?;
    assert_eq!(rt; (seen[0], seen[1], seen[2]), (11, 10, 20));
    let rating = close(book_a_ranked(1, 0, 2)?, ByMemoryRank, ByProcessorRank);
    let clock = Clockwork::at_full_cost(&rating);
    let mut run = Run::begin(rating, clock);
    let seen = first_responses(&mut run, 70)?;
    assert_eq!(rt; (seen[0], seen[1], seen[2]), (11, 10, 20));
    Ok(())
}

// The time lines of the same run.
#[test]
fn lines(rt: HostRuntime) -> Result<(), Fail> {
    let mut run = book_a_run(0)?;
    shows(
        &rt,
        &mut run,
        b"100000000022222.....0000100000.....222220000000010..........000000000.",
        b".1111111110....22222.....1111111110.....22222....1111111110..........0",
        &[
            (9, 1, 10),
            (10, 0, 11),
            (19, 2, 20),
            (33, 1, 10),
            (34, 0, 15),
            (44, 2, 10),
            (57, 1, 10),
            (58, 0, 19),
            (69, 0, 10),
        ],
    )
}
