ghost use Rattle.std.specs.Prelude.{◌≡◌, length};
ghost use Rattle.rows.specs.Drafts.{rows_of};

use crate::ranking::Ranking;
use rows::draft::Draft;

pub(crate) mod rules;

// A draft with its rows in each phase's order.
#[derive(Drop)]
pub(crate) struct RankedDraft {
    pub draft: Draft,
    pub memory: Ranking,
    pub processor: Ranking,
    ghost memory_rows: { memory.count ≡ length (rows_of draft) },
    ghost processor_rows: { processor.count ≡ length (rows_of draft) },
}
