ghost use Rattle.encoding.specs.Records.{LoadsAs, LoadsBack, SameBook, bytes_of, record_of};
ghost use Rattle.rows.specs.Books.{row_at};
ghost use Rattle.rows.specs.Drafts.{rows_of};
ghost use Rattle.std.specs.Prelude.{◌≡◌, IfOk};

use rows::draft::Draft;
use rows::row::Row;
use std::alloc::{AllocError, Global};

// A record of a book.
pub type Record = [u8; 24];

// The 24 bytes that write a row down in a book, whatever its figures. Decoding them gives the row back, and loading the
// records of any list of at most 32 valid rows takes in exactly these rows.
pub fn encode_row(row: Row) -> Record
    ensures value { result ≡ record_of row }
    ensures back { row_at result 0 ≡ row }
    ensures any { LoadsBack }
{
    let mut record = [0; 24];
    record[0..4].copy_from_slice(&row.memory.to_be_bytes());
    record[4..8].copy_from_slice(&row.compute.to_be_bytes());
    record[8..12].copy_from_slice(&row.deadline.to_be_bytes());
    record[12..16].copy_from_slice(&row.period.to_be_bytes());
    record[16] = row.memory_rank;
    record[17] = row.processor_rank;
    record[20..24].copy_from_slice(&<[u8; 4]>::from(row.label));
    record
}

// The book of a draft's rows: their records, one behind the other. Loading it into an empty draft takes in exactly these
// rows, and it is the very book that they were loaded from, if they were.
pub fn encode_draft(heap: Global, draft: &Draft) -> Result<Vec<u8>, AllocError>
    ensures value { IfOk result (λ book. book.items ≡ bytes_of (rows_of draft.now)) }
    ensures loads { IfOk result (λ book. LoadsAs book.items (rows_of draft.now)) }
    ensures same { IfOk result (λ book. SameBook book.items (rows_of draft.now)) }
{
    let mut book = Vec::new(heap);
    for row in draft.rows() {
        book.extend_from_slice(&encode_row(*row))?;
    }
    Ok(book)
}
