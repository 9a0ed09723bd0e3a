ghost use Rattle.std.specs.Prelude.{◌≡◌, ℕ, ◌<◌, ◌≤◌, true, length, slice_index_or};
ghost use Rattle.rows.specs.Rows.{is_valid};
ghost use Rattle.rows.specs.declared.row.Row.{Row as Line};

use crate::table::Table;

// A draft: a table of rows under edit. Its first `count` rows are written, and each of them is valid.
// It is moved, never copied: a closed draft is gone until its rating is reopened.
// Stays: a table of 32 rows without an invariant, and a draft that has it, is a form of the project.
#[derive(Drop)]
pub struct Draft {
    table: Table,
    count: u8,
    ghost full: { length table.rows ≡ 32 },
    ghost few: { count ≤ 32 },
    ghost valid: { (i : ℕ) (d : Line) → i < count → is_valid (slice_index_or table.rows i d) ≡ true },
}

pub mod rules;
