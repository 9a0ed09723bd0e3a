mod rules;

use feeds::per_mark::PerMark;
use feeds::terms::Distance;

// What a gate keeps of a mark: its own distance, and the steps for which it still stays shut.
#[derive(Clone, Copy)]
struct Spacing {
    distance: Distance,
    rest: u32,
}

// A layer over a feed that keeps the arrivals at each mark apart by a distance of its own.
#[derive(Drop)]
pub struct Gate<F> {
    below: F,
    spacings: PerMark<Spacing>,
}
