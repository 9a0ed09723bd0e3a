ghost use Rattle.filter.specs.Convert.{Makes, Shows};

use crate::fault::ConvertFault;
use encoding::record::encode_draft;
use rows::draft::Draft;
use rows::fault::LoadFault;
use std::alloc::Global;
use tables::fault::BadLine;
use tables::read::read_table;
use tables::write::write_table;

// The book of the rows that a table writes.
pub fn make_book(heap: Global, text: &[u8]) -> Result<Vec<u8>, ConvertFault<BadLine>>
    ensures { Makes text.now result }
{
    let draft = read_table(text)?;
    let book = encode_draft(heap, &draft)?;
    Ok(book)
}

// The table of the rows of a book.
pub fn show_book(heap: Global, book: &[u8]) -> Result<Vec<u8>, ConvertFault<LoadFault>>
    ensures { Shows book.now result }
{
    let mut draft = Draft::new();
    draft.load(book)?;
    let table = write_table(heap, &draft)?;
    Ok(table)
}
