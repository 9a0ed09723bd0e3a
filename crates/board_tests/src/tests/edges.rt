use super::{book_a_ranked, drafted, first_responses, regular, shows, task};
use board::fault::StepFault;
use board::run::{Answer, Run, Slot};
use feeds::clockwork::Clockwork;
use feeds::fit::{Misfit, fit};
use feeds::mark::Mark;
use rating::order::{ByMemoryRank, ByProcessorRank};
use rating::rating::close;
use rating::verdict::{Phase, Verdict};
use rows::draft::Draft;
use std::test::*;

// A run of Book A under clockwork.
type BookA = Run<ByMemoryRank, ByProcessorRank, Clockwork>;

fn begun() -> Result<BookA, Fail> {
    let draft = book_a_ranked(1, 0, 2)?;
    Ok(Run::close_and_begin(draft, ByMemoryRank, ByProcessorRank, regular()?))
}

// What the places of the three rows hold, and that of a number without a row.
fn places(run: &BookA) -> [Option<Slot>; 4] {
    [run.place(0), run.place(1), run.place(2), run.place(3)]
}

// A run of no rows idles, whatever its pile offers, and its number rises.
#[test]
fn no_rows(rt: HostRuntime) -> Result<(), Fail> {
    let mut clock = Clockwork::new();
    clock.set(Mark::new(0)?, 0, 3, 1, 1)?;
    let mut run = Run::close_and_begin(Draft::new(), ByMemoryRank, ByProcessorRank, clock);
    for step in 0..32 {
        let idle = Answer {
            step,
            ..Answer::default()
        };
        assert_eq!(rt; run.number(), step);
        assert_eq!(rt; run.step()?, idle);
        assert_eq!(rt; run.place(0), None);
    }
    assert_eq!(rt; run.number(), 32);
    Ok(())
}

// A late rating is run by the same rules.
#[test]
fn late(rt: HostRuntime) -> Result<(), Fail> {
    let rating = close(book_a_ranked(0, 1, 2)?, ByMemoryRank, ByProcessorRank);
    assert_eq!(rt; rating.verdict(), Verdict::Late(Phase::Processor, 2));
    let mut run = Run::begin(rating, regular()?);
    shows(
        &rt,
        &mut run,
        b"000000000122222.....0000000001.....222220000000001..........000000000.",
        b".........011111111122222.....0111111111.22222....0111111111..........0",
        &[
            (9, 0, 10),
            (18, 1, 19),
            (23, 2, 24),
            (29, 0, 10),
            (38, 1, 15),
            (44, 2, 10),
            (49, 0, 10),
            (58, 1, 11),
            (69, 0, 10),
        ],
    )?;
    assert_eq!(rt; run.rating().bounds(0), None);
    assert_eq!(rt; run.number(), 70);
    Ok(())
}

// So is a pile that doesn't fit: what it offers a row that has a job waits.
#[test]
fn unfit(rt: HostRuntime) -> Result<(), Fail> {
    let mut clock = Clockwork::new();
    clock.set(Mark::new(0)?, 0, 2, 3, 4)?;
    let rating = close(
        drafted(&[task(1, 1, 5, 5, 0, b"TAGS")])?,
        ByMemoryRank,
        ByProcessorRank,
    );
    assert_eq!(rt;
        fit(&rating, &clock),
        Err(Misfit {
            row: 0,
            letter: b'K',
        })
    );
    let mut run = Run::begin(rating, clock);
    shows(
        &rt,
        &mut run,
        b"000....000....",
        b"...0000...0000",
        &[(6, 0, 7), (13, 0, 7)],
    )
}

// The place of a number without a row is none, at every step.
#[test]
fn no_such_row(rt: HostRuntime) -> Result<(), Fail> {
    let mut run = begun()?;
    for k in 3..=255 {
        assert_eq!(rt; run.place(k), None, "{}", k);
        assert!(rt; run.step().is_ok());
    }
    assert_ne!(rt; run.place(2), None);
    Ok(())
}

// Readings alter nothing: read twice they tell the same, and the run goes on as one that is never read.
#[test]
fn readings(rt: HostRuntime) -> Result<(), Fail> {
    let mut run = begun()?;
    let mut unread = begun()?;
    for _ in 0..200 {
        let before = places(&run);
        let number = run.number();
        assert!(rt; run.rating().bounds(2) == Some((15, 16)));
        assert!(rt; places(&run) == before);
        assert_eq!(rt; run.number(), number);
        assert_eq!(rt; run.step()?, unread.step()?);
    }
    assert!(rt; places(&run) == places(&unread));
    Ok(())
}

// Ending gives the rating back, wherever the run is; it can be reopened, closed and begun again.
#[test]
fn ended(rt: HostRuntime) -> Result<(), Fail> {
    for steps in [0, 1, 12, 70] {
        let mut run = begun()?;
        let _ = first_responses(&mut run, steps)?;
        let rating = run.end();
        assert_eq!(rt; rating.bounds(0), Some((10, 10)));
        assert_eq!(rt; rating.bounds(2), Some((15, 16)));
        let (draft, memory_order, processor_order) = rating.reopen();
        assert!(rt; draft.rows() == book_a_ranked(1, 0, 2)?.rows());
        let mut run = Run::close_and_begin(draft, memory_order, processor_order, regular()?);
        let seen = first_responses(&mut run, 70)?;
        assert_eq!(rt; (seen[0], seen[1], seen[2]), (11, 10, 20), "{}", steps);
    }
    Ok(())
}

// The last number is far away, so only its fault's number is looked at.
#[test]
fn fault(rt: HostRuntime) -> Result<(), Fail> {
    assert_eq!(rt; StepFault::LastNumber.number(), 61);
    Ok(())
}
