ghost use Rattle.lines.specs.Prints.{ParsesBack, numbers_text, row_text};
ghost use Rattle.std.specs.Prelude.{◌≡◌, ◌++◌, IfOk, OnOk, string_bytes};

use rows::row::Row;
use std::alloc::{AllocError, Global};

// The numbers of a row in decimal, each at the end of a column, behind at least one space.
fn numbers(heap: Global, row: Row) -> Result<String, AllocError>
    ensures { IfOk result (λ text. string_bytes text ≡ numbers_text row) }
{
    let Row {
        memory,
        compute,
        deadline,
        period,
        memory_rank,
        processor_rank,
        ..
    } = row;
    format!(in heap;
        " {memory:>10} {compute:>7} {deadline:>7} {period:>7} {memory_rank:>11} {processor_rank:>14}"
    )
}

// Puts the line of a row, without a line's end: its label and its numbers, in columns for reading. Parsing the line gives
// the row back.
pub fn put_row(heap: Global, out: &mut Vec<u8>, row: Row) -> Result<(), AllocError>
    ensures text { OnOk result (out.new.items ≡ out.old.items ++ row_text row) }
    ensures back { OnOk result (ParsesBack row) }
{
    let numbers = numbers(heap, row)?;
    out.extend_from_slice(&<[u8; 4]>::from(row.label))?;
    out.extend_from_slice(numbers.as_bytes())?;
    Ok(())
}
