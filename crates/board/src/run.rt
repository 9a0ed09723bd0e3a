ghost use Rattle.std.specs.Prelude.{◌≤◌};

use rating::rating::Rating;
pub use schedule::place::Slot;

mod admission;
mod begin;
mod readings;
mod service;
mod step;

// What a step answers: its number, the row on each resource, and the row that finished with its response, the steps from
// its admission to the end of this step.
#[derive(Clone, Copy, Default, PartialEq, Eq, Debug)]
pub struct Answer {
    pub step: u32,
    pub memory: Option<u8>,
    pub processor: Option<u8>,
    pub finished: Option<(u8, u32)>,
}

// A run of the board: a rating, the pile that its jobs come from, the number of the next step, and a place for each row.
// It is moved, never copied; ending it gives its rating back.
// Stays: one place for each row by its number, in fixed memory.
#[derive(Drop)]
pub struct Run<A, B, P> {
    rating: Rating<A, B>,
    pile: P,
    number: u32,
    places: [Slot; 32],
    ghost time: { number ≤ 2000000000 },
}
