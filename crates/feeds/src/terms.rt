ghost use Rattle.std.specs.Prelude.{◌≤◌};

mod rules;

// The least number of steps between two arrivals: from 1 to 1,000,000.
#[derive(Clone, Copy)]
pub struct Distance {
    steps: u32,
    ghost range: { (1 ≤ steps) × (steps ≤ 1000000) },
}

// The most that an arrival costs: at most 1,000,000 memory steps, and from 1 to 1,000,000 processor steps.
#[derive(Clone, Copy)]
pub struct Ceilings {
    memory: u32,
    processor: u32,
    ghost memories: { memory ≤ 1000000 },
    ghost processors: { (1 ≤ processor) × (processor ≤ 1000000) },
}

// What is pledged for one mark.
#[derive(Clone, Copy)]
pub(crate) struct Terms {
    pub(crate) distance: Distance,
    pub(crate) ceilings: Ceilings,
}
