use super::{book_a_ranked, regular, shows};
use board::run::{Run, Slot};
use feeds::clockwork::Clockwork;
use feeds::mark::Mark;
use rating::order::{ByMemoryRank, ByProcessorRank};
use rows::draft::Draft;
use rows::row::{Label, Row};
use std::process::Abort;
use std::test::*;

// One row and its arrivals at full cost: offset, memory and processor steps, period, memory and processor rank.
type Arrivals = (u32, u32, u32, u32, u8, u8);

// Whether rows under clockwork show these time lines, and finish in these steps with these responses.
fn runs(
    rt: &impl Abort,
    rows: &[Arrivals],
    memory: &[u8],
    processor: &[u8],
    finished: &[(u32, u8, u32)],
) -> Result<(), Fail> {
    let mut draft = Draft::new();
    let mut clock = Clockwork::new();
    for (k, (offset, m, c, period, memory_rank, processor_rank)) in Mark::all()
        .into_iter()
        .zip(rows)
    {
        draft.add(Row {
            memory: *m,
            compute: *c,
            deadline: *period,
            period: *period,
            memory_rank: *memory_rank,
            processor_rank: *processor_rank,
            label: Label::from(*b"TAGS"),
        })?;
        clock.set(k, *offset, *period, *m, *c)?;
    }
    let mut run = Run::close_and_begin(draft, ByMemoryRank, ByProcessorRank, clock);
    shows(rt, &mut run, memory, processor, finished)
}

// A job with nothing to load computes at once, and one of a single step finishes in it with response 1. A place that is
// empty again takes the next job in the next step.
#[test]
fn nothing_to_load(rt: HostRuntime) -> Result<(), Fail> {
    let each = [(0, 0, 1), (1, 0, 1), (2, 0, 1), (3, 0, 1)];
    runs(&rt, &[(0, 0, 1, 1, 0, 0)], b"....", b"0000", &each)?;
    runs(
        &rt,
        &[(0, 0, 2, 3, 0, 0)],
        b"......",
        b"00.00.",
        &[(1, 0, 2), (4, 0, 2)],
    )
}

// A row that ends loading in a step computes from the next one on. The offset delays the first arrival.
#[test]
fn loads_then_computes(rt: HostRuntime) -> Result<(), Fail> {
    runs(
        &rt,
        &[(0, 2, 1, 5, 0, 0)],
        b"00...00...",
        b"..0....0..",
        &[(2, 0, 3), (7, 0, 3)],
    )?;
    runs(
        &rt,
        &[(3, 1, 1, 4, 0, 0)],
        b"...0...0.",
        b"....0...0",
        &[(4, 0, 2), (8, 0, 2)],
    )
}

// Memory and processor serve different rows in one step, each by its own order; at equal ranks the smaller number is first.
#[test]
fn two_resources(rt: HostRuntime) -> Result<(), Fail> {
    let rows = [(0, 2, 2, 10, 0, 0), (0, 2, 2, 10, 1, 1)];
    runs(
        &rt,
        &rows,
        b"0011......",
        b"..0011....",
        &[(3, 0, 4), (5, 1, 6)],
    )?;
    let crossed = [(0, 1, 2, 12, 0, 1), (0, 1, 2, 12, 1, 0)];
    runs(
        &rt,
        &crossed,
        b"01..........",
        b".0110.......",
        &[(3, 1, 4), (4, 0, 5)],
    )?;
    let equal = [(0, 1, 1, 9, 5, 5), (0, 1, 1, 9, 5, 5), (0, 1, 1, 9, 5, 5)];
    runs(
        &rt,
        &equal,
        b"012......",
        b".012.....",
        &[(1, 0, 2), (2, 1, 3), (3, 2, 4)],
    )
}

// Both choices are made among the places after the arrivals of the step: a row that goes first is served as it comes.
#[test]
fn arrivals_first(rt: HostRuntime) -> Result<(), Fail> {
    let computing = [(0, 0, 3, 10, 0, 1), (1, 0, 1, 10, 1, 0)];
    runs(
        &rt,
        &computing,
        b"..........",
        b"0100......",
        &[(1, 1, 1), (3, 0, 4)],
    )?;
    let loading = [(0, 3, 1, 10, 1, 1), (1, 1, 1, 10, 0, 0)];
    runs(
        &rt,
        &loading,
        b"0100......",
        b"..1.0.....",
        &[(2, 1, 2), (4, 0, 5)],
    )
}

// What the places of Book A hold as some steps begin.
#[test]
fn places(rt: HostRuntime) -> Result<(), Fail> {
    let draft = book_a_ranked(1, 0, 2)?;
    let mut run = Run::close_and_begin(draft, ByMemoryRank, ByProcessorRank, regular()?);
    for step in 0..26 {
        let held = (run.place(0), run.place(1), run.place(2));
        if let Some(wanted) = held_at(step) {
            assert!(rt; held == wanted, "{}", step);
        }
        assert!(rt; run.step().is_ok());
    }
    Ok(())
}

type Held = (Option<Slot>, Option<Slot>, Option<Slot>);

fn held_at(step: u32) -> Option<Held> {
    match step {
        0 => Some((empty(), empty(), empty())),
        1 => Some((loading(9, 1, 0), computing(9, 0), loading(5, 5, 0))),
        2 => Some((loading(8, 1, 0), computing(8, 0), loading(5, 5, 0))),
        10 => Some((computing(1, 0), empty(), loading(5, 5, 0))),
        11 => Some((empty(), empty(), loading(4, 5, 0))),
        16 => Some((empty(), empty(), computing(4, 0))),
        20 => Some((empty(), empty(), empty())),
        21 => Some((loading(8, 1, 20), empty(), empty())),
        25 => Some((loading(5, 1, 20), computing(9, 24), empty())),
        _ => None,
    }
}

fn empty() -> Option<Slot> {
    Some(Slot::Empty)
}

fn loading(left: u32, compute: u32, since: u32) -> Option<Slot> {
    Some(Slot::Loading {
        left,
        compute,
        since,
    })
}

fn computing(left: u32, since: u32) -> Option<Slot> {
    Some(Slot::Computing { left, since })
}
