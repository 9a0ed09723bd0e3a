use super::dice::Dice;
use feeds::clockwork::Clockwork;
use feeds::feed::Feed;
use feeds::mark::Mark;
use layers::cutoff::CutOff;
use layers::gate::Gate;
use rating::rating::Rating;
use rows::row::Row;
use std::alloc::{AllocError, Global};
use std::test::*;

// A clockwork that fits a rating and offers less than it may: offsets, longer intervals and lower costs.
pub(super) fn fewer<A, B>(rating: &Rating<A, B>, mut dice: Dice) -> Result<Clockwork, Fail> {
    let mut clock = Clockwork::new();
    for (k, row) in Mark::all().into_iter().zip(rating.rows()) {
        let offset = dice.below(row.period);
        let interval = row.period.saturating_add(dice.below(3));
        let memory = dice.below(row.memory.saturating_add(1));
        let compute = dice.below(row.compute).saturating_add(1);
        clock.set(k, offset, interval, memory, compute)?;
    }
    Ok(clock)
}

// A feed under a cut-off at each row's costs and a gate at its period, so that it fits.
pub(super) fn fitted<F: Feed + Drop, A, B>(
    below: F,
    rating: &Rating<A, B>,
) -> Result<Gate<CutOff<F>>, Fail> {
    let mut cut = CutOff::new(below);
    for (k, row) in Mark::all().into_iter().zip(rating.rows()) {
        cut.set(k, row.memory, row.compute)?;
    }
    spaced(cut, rating)
}

// A feed under a gate at each row's period.
fn spaced<F: Feed + Drop, A, B>(below: F, rating: &Rating<A, B>) -> Result<Gate<F>, Fail> {
    let mut gate = Gate::new(below);
    for (k, row) in Mark::all().into_iter().zip(rating.rows()) {
        gate.set(k, row.period)?;
    }
    Ok(gate)
}

// A feed under a gate of some distances.
pub(super) fn shut<F: Feed + Drop>(below: F, mut dice: Dice) -> Result<Gate<F>, Fail> {
    let mut gate = Gate::new(below);
    for k in Mark::all() {
        gate.set(k, dice.below(200).saturating_add(1))?;
    }
    Ok(gate)
}

// The bytes of a list of 300 arrivals, which also come too early, skip, and cost up to twice what the row may. Some are
// for a row that isn't there.
pub(super) fn arrivals<A, B>(
    heap: Global,
    rating: &Rating<A, B>,
    mut dice: Dice,
) -> Result<Vec<u8>, Fail> {
    let mut bytes = Vec::new(heap);
    let mut step: u32 = 0;
    let rows = rating.rows();
    for _ in 0..300 {
        step = step.saturating_add(dice.below(6));
        let k = dice.byte() % (rows.len() as u8 + 1);
        let (memory, compute) = costs(rows, k);
        let m = dice.below(memory.saturating_mul(2).saturating_add(1));
        let c = dice.below(compute.saturating_mul(2)).saturating_add(1);
        write(&mut bytes, step, m, c, k.min(31))?;
    }
    Ok(bytes)
}

// The full costs of a row, 1 and 1 for one that isn't there.
fn costs(rows: &[Row], k: u8) -> (u32, u32) {
    rows.get(k as usize)
        .map_or((1, 1), |row| (row.memory, row.compute))
}

// Adds a record to a list.
// Stays: one for this crate and feed_tests would be a public function of one more crate, with a contract and an edit.
fn write(bytes: &mut Vec<u8>, step: u32, m: u32, c: u32, k: u8) -> Result<(), AllocError> {
    for word in [step, m, c] {
        bytes.extend_from_slice(&word.to_be_bytes())?;
    }
    bytes.extend_from_slice(&[k, 0, 0, 0])
}
