mod rules;

use crate::per_mark::PerMark;
use crate::terms::Terms;

// A data sheet: a pledge for each mark, with no arrivals of its own.
#[derive(Drop)]
pub struct DataSheet {
    entries: PerMark<Terms>,
}
