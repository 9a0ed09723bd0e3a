use board::fault::StepFault;
use board::run::Run;
use feeds::clockwork::Clockwork;
use feeds::feed::Feed;
use feeds::mark::Mark;
use rows::draft::Draft;
use rows::fault::EditFault;
use rows::row::{Label, Row};
use std::process::Abort;
use std::test::*;

mod book_a;
mod edges;
mod random;
mod rules;

// A row with one rank for both resources.
fn task(memory: u32, compute: u32, deadline: u32, period: u32, rank: u8, label: &[u8; 4]) -> Row {
    Row {
        memory,
        compute,
        deadline,
        period,
        memory_rank: rank,
        processor_rank: rank,
        label: Label::from(*label),
    }
}

// A draft of these rows.
fn drafted(rows: &[Row]) -> Result<Draft, EditFault> {
    let mut draft = Draft::new();
    for row in rows {
        draft.add(*row)?;
    }
    Ok(draft)
}

// Book A with these ranks: 1, 0 and 2 are its own.
fn book_a_ranked(tags: u8, cent: u8, dark: u8) -> Result<Draft, EditFault> {
    drafted(&[
        task(9, 1, 20, 20, tags, b"TAGS"),
        task(1, 9, 24, 24, cent, b"CENT"),
        task(5, 5, 35, 35, dark, b"DARK"),
    ])
}

// The first response of each row within some steps, 0 for a row that finishes no job.
// Stays: a test keeps its values, among them 0 where there is nothing.
fn first_responses<A, B, P: Feed>(
    run: &mut Run<A, B, P>,
    steps: u32,
) -> Result<[u32; 32], StepFault> {
    let mut seen = [0; 32];
    for _ in 0..steps {
        if let Some((k, response)) = run.step()?.finished
            && let Some(first) = seen.get_mut(k as usize)
            && *first == 0
        {
            *first = response;
        }
    }
    Ok(seen)
}

// A clockwork of Book A: offsets 0, intervals T, full costs.
fn regular() -> Result<Clockwork, Fail> {
    let mut clock = Clockwork::new();
    for (k, period, memory, compute) in [(0, 20, 9, 1), (1, 24, 1, 9), (2, 35, 5, 5)] {
        clock.set(Mark::new(k)?, 0, period, memory, compute)?;
    }
    Ok(clock)
}

// The character of a row in a time line.
fn shown(row: Option<u8>) -> u8 {
    row.map_or(b'.', |k| b'0'.saturating_add(k))
}

// Whether the next steps of a run show these time lines, one for each resource: a character for each step, the row below
// 10 that is served, or a point. The finished rows are told by step, row and response.
fn shows<A, B, P: Feed>(
    rt: &impl Abort,
    run: &mut Run<A, B, P>,
    memory: &[u8],
    processor: &[u8],
    finished: &[(u32, u8, u32)],
) -> Result<(), Fail> {
    assert_eq!(rt; memory.len(), processor.len());
    let mut ends = finished.iter();
    for (m, p) in memory.iter().zip(processor) {
        let answer = run.step()?;
        let served = (shown(answer.memory), shown(answer.processor));
        assert_eq!(rt; served, (*m, *p), "{}", answer.step);
        if let Some((k, response)) = answer.finished {
            assert_eq!(rt; ends.next().copied(), Some((answer.step, k, response)));
        }
    }
    assert_eq!(rt; ends.next().copied(), None);
    Ok(())
}
