use rating::rating::Rating;
use rating::verdict::Phase;
use rows::row::Row;
use std::test::*;

// The figure of a row that an order goes by.
// Stays: limits are found apart from what is tested, so without its `Figure`.
#[derive(Clone, Copy)]
pub(super) enum Figure {
    MemoryRank,
    ProcessorRank,
    Deadline,
    Period,
}

impl Figure {
    fn of(self, row: &Row) -> u32 {
        match self {
            Figure::MemoryRank => u32::from(row.memory_rank),
            Figure::ProcessorRank => u32::from(row.processor_rank),
            Figure::Deadline => row.deadline,
            Figure::Period => row.period,
        }
    }
}

// What a row of an accepted rating keeps: its costs, its period, the bound of its loading and that of its response, and
// the figures that the two orders go by.
#[derive(Clone, Copy, Default)]
pub(super) struct Limit {
    memory: u32,
    compute: u32,
    period: u32,
    pub(super) load: u32,
    pub(super) response: u32,
    memory_figure: u32,
    processor_figure: u32,
}

impl Limit {
    // The figure that a resource's order goes by.
    pub(super) fn figure(&self, phase: Phase) -> u32 {
        match phase {
            Phase::Memory => self.memory_figure,
            Phase::Processor => self.processor_figure,
        }
    }

    // The most steps, of so many in a row, in which the row holds a resource.
    pub(super) fn share(&self, phase: Phase, steps: usize) -> u64 {
        match phase {
            Phase::Memory => most(self.memory, self.load, self.period, steps),
            Phase::Processor => most(self.compute, self.response, self.period, steps),
        }
    }
}

// The cost of a job times the quotient, rounded up, of the steps and the bound less 1 by the period.
fn most(cost: u32, bound: u32, period: u32, steps: usize) -> u64 {
    let span = (steps as u64)
        .saturating_add(bound as u64)
        .saturating_sub(1);
    rounded_up(span, period as u64).saturating_mul(cost as u64)
}

// Stays: a limit is found apart from what is tested.
fn rounded_up(a: u64, b: u64) -> u64 {
    if b == 0 {
        return 0;
    }
    a.div_ceil(b)
}

// The limits of each row of a rating, with the figures that its orders go by.
pub(super) fn limits<A, B>(
    rating: &Rating<A, B>,
    figures: (Figure, Figure),
) -> Result<[Limit; 32], Fail> {
    let (memory, processor) = figures;
    let mut table = [Limit::default(); 32];
    for ((i, row), limit) in (0..32u8).zip(rating.rows()).zip(&mut table) {
        let (load, rest) = rating.bounds(i).ok_or("no bounds")?;
        *limit = Limit {
            memory: row.memory,
            compute: row.compute,
            period: row.period,
            load,
            response: load.saturating_add(rest),
            memory_figure: memory.of(row),
            processor_figure: processor.of(row),
        };
    }
    Ok(table)
}
