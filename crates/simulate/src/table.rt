ghost use Rattle.std.specs.Prelude.{◌≡◌, ◌<◌, ◌∷◌, ◌++◌, map, length, IfOk, string_bytes, OnOk};
ghost use Rattle.rating.specs.Ratings.{draft_in};
ghost use Rattle.rows.specs.Drafts.{rows_of};
ghost use Rattle.simulate.specs.Tables.{at_right, cell_in, columns, figure_at, head_in, head_of, header_text, holder_of, in_turn, letter_of, line_of, name_of, note_of, report_text, row_text, up_to, width_in};

use crate::column::Column;
use crate::journal::Journal;
use crate::text::{put_figure, put_row_head, word_width};
use board::run::Answer;
use rating::rating::Rating;
use rating::verdict::{Phase, Verdict};
use std::alloc::{AllocError, Global};

const COLUMNS: [Column; 8] = [
    Column::Admitted,
    Column::Finished,
    Column::Load,
    Column::MemoryBound,
    Column::Response,
    Column::WholeBound,
    Column::Memory,
    Column::Processor,
];

// What is shown of a run behind its listing: its rating, and the journal of its steps.
#[derive(Drop)]
pub(crate) struct Report<'a, A, B> {
    pub(crate) rating: &'a Rating<A, B>,
    pub(crate) journal: &'a Journal,
}

impl<A, B> Report<'_, A, B> {
    // What the journal has in a column of a row.
    fn figure(&self, k: u8, column: Column) -> Option<u32>
        ensures { result ≡ figure_at self.now.rating.now self.now.journal.now column k }
    {
        let tally = self.journal.tallies.get(k as usize);
        column.figure(&tally.copied().unwrap_or_default(), self.rating.bounds(k))
    }

    // How wide a column is: as its longest word.
    // Stays: a fold over the rows' numbers takes the loop's invariant as a lemma, and is no plainer.
    fn width(&self, column: Column) -> usize
        ensures { result ≡ width_in self.now.rating.now self.now.journal.now column }
    {
        let mut widest = column.head().len();
        for k in 0..self.rating.rows().len() {
            widest = widest.max(word_width(self.figure(k as u8, column)));
        }
        widest
    }

    // Puts the line above the rows.
    fn put_header(&self, text: &mut String) -> Result<(), AllocError>
        ensures { OnOk result (string_bytes text.new ≡ string_bytes text.old ++ header_text self.now.rating.now self.now.journal.now) }
    {
        text.push_str("no label")?;
        self.put_heads(text)?;
        text.push('\n')?;
        Ok(())
    }

    // Puts the words above the columns.
    fn put_heads(&self, text: &mut String) -> Result<(), AllocError>
        ensures { OnOk result (string_bytes text.new ≡ string_bytes text.old ++ in_turn (head_in self.now.rating.now self.now.journal.now) columns) }
    {
        for column in &COLUMNS {
            put_head(text, *column, self.width(*column))?;
        }
        Ok(())
    }

    // Puts the figures of a row.
    fn put_cells(&self, text: &mut String, k: u8) -> Result<(), AllocError>
        ensures { OnOk result (string_bytes text.new ≡ string_bytes text.old ++ in_turn (cell_in self.now.rating.now self.now.journal.now k) columns) }
    {
        for column in &COLUMNS {
            put_figure(text, self.figure(k, *column), self.width(*column))?;
        }
        Ok(())
    }

    // Puts the line of every row: number, label and columns.
    fn put_rows(&self, text: &mut String) -> Result<(), AllocError>
        ensures { OnOk result (string_bytes text.new ≡ string_bytes text.old ++ up_to (row_text self.now.rating.now self.now.journal.now) (length (rows_of (draft_in self.now.rating.now)))) }
    {
        let rows = self.rating.rows();
        for (k, row) in rows.iter().enumerate() {
            put_row_head(text, k as u8, row.label)?;
            self.put_cells(text, k as u8)?;
            text.push('\n')?;
        }
        Ok(())
    }

    // All that is printed behind the listing: the table, the two time lines and, for a late rating, a note.
    pub(crate) fn text(&self, heap: Global) -> Result<String, AllocError>
        ensures { IfOk result (λ t. string_bytes t ≡ report_text self.now.rating.now self.now.journal.now) }
    {
        let answers = self.journal.timeline.answers();
        let mut text = String::from_str(heap, "\n")?;
        self.put_header(&mut text)?;
        self.put_rows(&mut text)?;
        text.push('\n')?;
        put_line(&mut text, Phase::Memory, answers)?;
        put_line(&mut text, Phase::Processor, answers)?;
        text.push_str(note(self.rating.verdict()))?;
        Ok(text)
    }
}

// Puts the word above a column at the right of a field, with a space before it.
fn put_head(text: &mut String, column: Column, width: usize) -> Result<(), AllocError>
    ensures { OnOk result (string_bytes text.new ≡ string_bytes text.old ++ (32 ∷ at_right width (head_of column))) }
{
    let head = column.head();
    write!(text, " {head:>width$}")
}

// The character of the row that holds a resource: 0 to 9, then a to v, or a point for none.
fn letter(row: Option<u8>) -> char
    ensures value { result ≡ letter_of row }
    ensures ascii { result < 128 }
{
    let Some(k) = row else {
        return '.';
    };
    char::from_digit(k as u32, 32).unwrap_or('?')
}

// The row that holds a resource in a step.
// Stays: the phase as a closure that reads the answer would have to be handed, with its contract, through two functions.
fn holder(phase: Phase, answer: &Answer) -> Option<u8>
    ensures { result ≡ holder_of phase answer.now }
{
    match phase {
        Phase::Memory => answer.memory,
        Phase::Processor => answer.processor,
    }
}

// The name before the time line of a resource.
// Stays: two words with their spaces; a listing has other spaces, so a `Display` of a phase would serve neither.
fn name(phase: Phase) -> &'static str
    ensures { result.now ≡ name_of phase }
{
    match phase {
        Phase::Memory => "memory    ",
        Phase::Processor => "processor ",
    }
}

// Puts a character for each step.
fn put_letters(text: &mut String, phase: Phase, answers: &[Answer]) -> Result<(), AllocError>
    ensures { OnOk result (string_bytes text.new ≡ string_bytes text.old ++ map (λ a. letter_of (holder_of phase a)) answers.now) }
{
    for answer in answers {
        text.push(letter(holder(phase, answer)))?;
    }
    Ok(())
}

// Puts the time line of a resource.
fn put_line(text: &mut String, phase: Phase, answers: &[Answer]) -> Result<(), AllocError>
    ensures { OnOk result (string_bytes text.new ≡ string_bytes text.old ++ line_of phase answers.now) }
{
    text.push_str(name(phase))?;
    put_letters(text, phase, answers)?;
    text.push('\n')?;
    Ok(())
}

// What is said of a late rating.
fn note(verdict: Verdict) -> &'static str
    ensures { result.now ≡ note_of verdict }
{
    match verdict {
        Verdict::Accepted => "",
        Verdict::Late(_, _) => "\nnothing is promised for a late rating\n",
    }
}
