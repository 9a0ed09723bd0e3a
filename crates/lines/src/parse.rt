ghost use Rattle.lines.specs.Faults.{placed};
ghost use Rattle.lines.specs.Lines.{is_comment, line_of, row_in};
ghost use Rattle.lines.specs.Words.{word_in};
ghost use Rattle.std.specs.Fn.{FnOnceReturnsAt};
ghost use Rattle.std.specs.Prelude.{◌≡◌};

use crate::fault::{BadWord, Reason};
use crate::field::{end, label, number, rank};
use crate::word::word;
use rows::row::Row;

// What a word of a line reads as; a fault is told with the word's number.
fn field<T, F: FnOnce(&[u8]) -> Result<T, Reason>>(
    line: &[u8],
    at: usize,
    read: F,
) -> Result<T, BadWord>
    requires { F.IsAlwaysCallable read }
    ensures { (value : _) × FnOnceReturnsAt F.FnOnce read (word_in line.now at) value × (result ≡ placed at value) }
{
    read(word(line, at)).map_err(|reason| BadWord { word: at, reason })
}

// The row that the words of a line write, whatever its figures; the first faulty word decides.
fn row(line: &[u8]) -> Result<Row, BadWord>
    ensures { result ≡ row_in line.now }
{
    let label = field(line, 0, label)?;
    let memory = field(line, 1, number)?;
    let compute = field(line, 2, number)?;
    let deadline = field(line, 3, number)?;
    let period = field(line, 4, number)?;
    let memory_rank = field(line, 5, rank)?;
    let processor_rank = field(line, 6, rank)?;
    field(line, 7, end)?;
    Ok(Row {
        memory,
        compute,
        deadline,
        period,
        memory_rank,
        processor_rank,
        label,
    })
}

// Whether a first word is none, or begins a comment.
fn is_comment(first: &[u8]) -> bool
    ensures { result ≡ is_comment first.now }
{
    matches!(first, [] | [b'#'])
}

// What a line of a table writes: no row if it is empty or a comment, otherwise a row or the first faulty word.
pub fn parse_line(line: &[u8]) -> Result<Option<Row>, BadWord>
    ensures { result ≡ line_of line.now }
{
    if is_comment(word(line, 0)) {
        return Ok(None);
    }
    row(line).map(Some)
}
