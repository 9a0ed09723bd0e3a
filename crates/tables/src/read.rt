ghost use Rattle.lines.specs.Lines.{line_of};
ghost use Rattle.rows.specs.Drafts.{rows_of};
ghost use Rattle.tables.specs.Tables.{after_line, drafted, in_line, table_of, told};
ghost use Rattle.std.specs.Prelude.{◌≡◌};

use crate::fault::{BadLine, LineFault};
use lines::parse::parse_line;
use rows::draft::Draft;

// Adds the row of a line, if it writes one.
fn take_words(draft: &mut Draft, line: &[u8]) -> Result<(), LineFault>
    ensures { told (rows_of draft.new) result ≡ after_line (rows_of draft.old) (line_of line.now) }
{
    if let Some(row) = parse_line(line)? {
        draft.add(row)?;
    }
    Ok(())
}

// The same, and tells the line's number with its fault. Empty lines are many in some tables, so none is looked at for
// words. A `map_err` would move each line's answer through memory, which more than doubles the time of a short line.
fn take_line(draft: &mut Draft, number: usize, line: &[u8]) -> Result<(), BadLine>
    ensures { told (rows_of draft.new) result ≡ in_line number (after_line (rows_of draft.old) (line_of line.now)) }
{
    if line.is_empty() {
        return Ok(());
    }
    let Err(fault) = take_words(draft, line) else {
        return Ok(());
    };
    Err(BadLine {
        line: number,
        fault,
    })
}

// The rows that a table writes, as a draft; the first faulty line decides.
pub fn read_table(text: &[u8]) -> Result<Draft, BadLine>
    ensures { drafted result ≡ table_of text.now }
{
    let mut draft = Draft::new();
    for (passed, line) in text.split(|byte| *byte == b'\n').enumerate() {
        take_line(&mut draft, passed + 1, line)?;
    }
    Ok(draft)
}
