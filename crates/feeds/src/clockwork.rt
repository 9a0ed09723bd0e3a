mod full;
mod rules;

use crate::per_mark::PerMark;
use crate::terms::Terms;

// The steps until a mark's next arrival may come.
#[derive(Clone, Copy)]
struct Rest {
    steps: u32,
}

// A clockwork: a feed of regular arrivals at each mark that is set, one at each interval, all of the same cost. The rests
// stand in a table of their own, so that an advance goes over numbers alone; that of a mark that is not set says nothing.
#[derive(Drop)]
pub struct Clockwork {
    terms: PerMark<Option<Terms>>,
    rests: PerMark<Rest>,
}
