ghost use Rattle.std.specs.Prelude.{◌≡◌, ◌/◌, true, [], ◌∷◌, ◌++◌, length, is_ok, is_err, IfOk, if◌then◌else◌};
ghost use Rattle.rows.specs.Books.{Loads, book_of, first_rows, load_of, read_at, row_at, taken};
ghost use Rattle.rows.specs.Drafts.{has_room, rows_of};
ghost use Rattle.rows.specs.Rows.{Valid};

use crate::draft::Draft;
use crate::fault::{BadRecord, BookFault, LoadFault, RecordFault};
use crate::row::{Label, Row};
use crate::word::word_at;

impl Draft {
    // Adds the records of a book at the end, all or none. The first fault decides.
    pub fn load(&mut self, bytes: &[u8]) -> Result<(), LoadFault>
        ensures value { result ≡ load_of (length (rows_of self.old)) bytes.now }
        ensures first { Loads (length (rows_of self.old)) bytes.now result }
        ensures rows { rows_of self.new ≡ (if is_ok result then rows_of self.old ++ first_rows bytes.now (length bytes.now / 24) else rows_of self.old) }
        ensures refused { is_err result ≡ true → self.new ≡ self.old }
    {
        let mut trial = self.copied();
        trial.take_book(bytes)?;
        *self = trial;
        Ok(())
    }

    // Adds records until one is faulty, which may leave the draft half loaded.
    fn take_book(&mut self, bytes: &[u8]) -> Result<(), BookFault>
        ensures value { result ≡ book_of (length (rows_of self.old)) bytes.now }
        ensures rows { is_ok result ≡ true → rows_of self.new ≡ rows_of self.old ++ first_rows bytes.now (length bytes.now / 24) }
    {
        let (records, rest) = bytes.as_chunks::<24>();
        if !rest.is_empty() {
            return Err(BookFault::Length);
        }
        for (number, entry) in records.iter().enumerate() {
            self.take_record(entry)
                .map_err(|fault| BadRecord { number, fault })?;
        }
        Ok(())
    }

    // Adds one record: room is asked for first, then the record is read.
    fn take_record(&mut self, bytes: &[u8; 24]) -> Result<(), RecordFault>
        ensures value { result ≡ taken (has_room (rows_of self.old)) (read_at bytes.now 0) }
        ensures rows { rows_of self.new ≡ (if is_ok result then rows_of self.old ++ row_at bytes.now 0 ∷ [] else rows_of self.old) }
    {
        self.room()?;
        let row = read_record(bytes)?;
        self.push(row);
        Ok(())
    }
}

// The row that a record writes down, if the record is without fault.
fn read_record(bytes: &[u8; 24]) -> Result<Row, RecordFault>
    ensures value { result ≡ read_at bytes.now 0 }
    ensures valid { IfOk result Valid }
    ensures row { IfOk result (λ row. row ≡ row_at bytes.now 0) }
{
    let row = row_of(bytes);
    row.check()?;
    if bytes[18] != 0 || bytes[19] != 0 {
        return Err(RecordFault::Reserved);
    }
    Ok(row)
}

// The row of a record, whatever its figures.
fn row_of(bytes: &[u8; 24]) -> Row
    ensures { result ≡ row_at bytes.now 0 }
{
    Row {
        memory: word_at(bytes, 0),
        compute: word_at(bytes, 4),
        deadline: word_at(bytes, 8),
        period: word_at(bytes, 12),
        memory_rank: bytes[16],
        processor_rank: bytes[17],
        label: Label::from([bytes[20], bytes[21], bytes[22], bytes[23]]),
    }
}
