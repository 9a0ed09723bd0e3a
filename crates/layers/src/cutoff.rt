mod rules;

use feeds::per_mark::PerMark;
use feeds::terms::Ceilings;

// A layer over a feed that cuts the cost of each arrival down to ceilings of its own.
#[derive(Drop)]
pub struct CutOff<F> {
    below: F,
    cuts: PerMark<Ceilings>,
}
