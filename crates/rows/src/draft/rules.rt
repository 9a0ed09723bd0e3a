ghost use Rattle.std.specs.Prelude.{◌≡◌, ◌<◌, ◌≤◌, true, [], ◌∷◌, ◌++◌, length, is_ok, is_err, IfOk, if◌then◌else◌, slice_set};
ghost use Rattle.rows.specs.Drafts.{EachValid, OthersStay, gotten, has_room, has_row, permitted, rows_of, without};
ghost use Rattle.rows.specs.Rows.{Valid, checked};

use super::Draft;
use crate::fault::{DraftFault, EditFault, RowFault};
use crate::row::Row;
use crate::table::Table;

impl Draft {
    // A draft without rows.
    pub fn new() -> Draft
        ensures { rows_of result ≡ [] }
    {
        Draft {
            table: Table::default(),
            count: 0,
        }
    }

    // How many rows there are.
    pub fn count(&self) -> u8
        ensures value { result ≡ length (rows_of self.now) }
        ensures few { result ≤ 32 }
    {
        self.count
    }

    // The rows themselves, for whoever goes through all of them.
    pub fn rows(&self) -> &[Row]
        ensures value { result.now ≡ rows_of self.now }
        ensures few { length result.now ≤ 32 }
        ensures valid { EachValid result.now }
    {
        &self.table.rows[0..self.count as usize]
    }

    // The row of a number.
    pub fn row(&self, i: u8) -> Result<Row, DraftFault>
        ensures value { result ≡ gotten (rows_of self.now) i }
        ensures valid { IfOk result Valid }
    {
        self.rows()
            .get(i as usize)
            .copied()
            .ok_or(DraftFault::NoSuchRow)
    }

    // Adds a row at the end.
    pub fn add(&mut self, row: Row) -> Result<(), EditFault>
        ensures value { result ≡ permitted (has_room (rows_of self.old)) (checked row) }
        ensures rows { rows_of self.new ≡ (if is_ok result then rows_of self.old ++ row ∷ [] else rows_of self.old) }
        ensures refused { is_err result ≡ true → self.new ≡ self.old }
    {
        self.room()?;
        row.check()?;
        self.push(row);
        Ok(())
    }

    // Puts a row in the place of row i.
    pub fn change(&mut self, i: u8, row: Row) -> Result<(), EditFault>
        ensures value { result ≡ permitted (has_row (rows_of self.old) i) (checked row) }
        ensures rows { rows_of self.new ≡ (if is_ok result then slice_set (rows_of self.old) i row else rows_of self.old) }
        ensures others { OthersStay (rows_of self.old) (rows_of self.new) i }
        ensures refused { is_err result ≡ true → self.new ≡ self.old }
    {
        self.row(i)?;
        row.check()?;
        self.table.put(i, row);
        Ok(())
    }

    // Takes row i out, and answers it; the later rows move down by one.
    pub fn remove(&mut self, i: u8) -> Result<Row, DraftFault>
        ensures value { result ≡ gotten (rows_of self.old) i }
        ensures rows { rows_of self.new ≡ (if is_ok result then without (rows_of self.old) i else rows_of self.old) }
        ensures refused { is_err result ≡ true → self.new ≡ self.old }
    {
        let gone = self.row(i)?;
        self.table.close_gap(i, self.count);
        self.count -= 1;
        Ok(gone)
    }

    // The same rows again, to try a load on.
    // Stays: a draft is moved and never cloned, which is a form of the project.
    pub(crate) fn copied(&self) -> Draft
        ensures { rows_of result ≡ rows_of self.now }
    {
        let table = self.table;
        Draft {
            table,
            count: self.count,
        }
    }

    // Whether there is room for one more row.
    pub(crate) fn room(&self) -> Result<(), DraftFault>
        ensures { result ≡ has_room (rows_of self.now) }
    {
        if self.count < 32 {
            Ok(())
        } else {
            Err(DraftFault::Full)
        }
    }

    // Adds a valid row at the end of a draft that has room.
    pub(crate) fn push(&mut self, row: Row)
        requires room { length (rows_of self.old) < 32 }
        requires valid { Valid row }
        ensures { rows_of self.new ≡ rows_of self.old ++ row ∷ [] }
    {
        self.table.put(self.count, row);
        self.count += 1;
    }
}
