ghost use Rattle.std.specs.Prelude.{◌≡◌, ◌-◌, ◌<◌, ◌≤◌, slice_set};
ghost use Rattle.rows.specs.Tables.{GapClosed};

use crate::row::Row;

// Room for 32 rows. Which of them count, and that these are valid, is the draft's matter.
#[derive(Clone, Copy, Default)]
pub struct Table {
    pub rows: [Row; 32],
}

impl Table {
    // Writes one row; every other stays.
    pub(crate) fn put(&mut self, i: u8, row: Row)
        requires { i < 32 }
        ensures { self.new.rows ≡ slice_set self.old.rows i row }
    {
        self.rows[i as usize] = row;
    }

    // Moves the rows behind place i, of the first n, down by one.
    pub(crate) fn close_gap(&mut self, i: u8, n: u8)
        requires { (i < n) × (n ≤ 32) }
        ensures { GapClosed self.old.rows self.new.rows i (n - 1) }
    {
        self.rows
            .copy_within(i as usize + 1..n as usize, i as usize);
    }
}
