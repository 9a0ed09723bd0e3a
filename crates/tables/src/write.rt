ghost use Rattle.rows.specs.Drafts.{rows_of};
ghost use Rattle.std.specs.Prelude.{◌≡◌, IfOk, Ok as Read};
ghost use Rattle.tables.specs.Tables.{table_of};
ghost use Rattle.tables.specs.Written.{table_text};

use lines::print::put_row;
use rows::draft::Draft;
use std::alloc::{AllocError, Global};

// The table of a draft's rows: a header and a line for each row. Reading it gives these rows back.
pub fn write_table(heap: Global, draft: &Draft) -> Result<Vec<u8>, AllocError>
    ensures value { IfOk result (λ table. table.items ≡ table_text (rows_of draft.now)) }
    ensures back { IfOk result (λ table. table_of table.items ≡ Read (rows_of draft.now)) }
{
    let mut table = Vec::new(heap);
    table.extend_from_slice(
        b"# LABEL       M       C       D       T MEMORY-RANK PROCESSOR-RANK\n",
    )?;
    for row in draft.rows() {
        put_row(heap, &mut table, *row)?;
        table.push(b'\n')?;
    }
    Ok(table)
}
