ghost use Rattle.std.specs.Prelude.{◌≡◌, ◌+◌, ◌<◌, ◌≤◌, [], ◌++◌, length, IfSome};
ghost use Rattle.listing.specs.Lines.{figure, line_of};
ghost use Rattle.listing.specs.Listings.{bound_line, count_text};
ghost use Rattle.listing.specs.Text.{two_digits, written};
ghost use Rattle.rows.specs.Refusals.{record_text};
ghost use Rattle.rows.specs.Rows.{Valid, label_bytes};

use arrayvec::ArrayVec;
use itoa::{Buffer, Integer};
use rows::row::{Label, Row};

// What the longest listing takes: 32 lines of 40 bytes, and the 12 of `accepted 32`.
pub(crate) const LONGEST: usize = 1292;

// A listing while it is written, with room for the longest.
#[derive(Drop)]
pub(crate) struct Page {
    pub(crate) bytes: ArrayVec<u8, LONGEST>,
}

impl Page {
    pub(crate) fn new() -> Page
        ensures { result.bytes.items ≡ [] }
    {
        Page {
            bytes: ArrayVec::new(),
        }
    }

    // Puts a text at the end.
    pub(crate) fn put(&mut self, text: &[u8])
        requires { length self.old.bytes.items + length text.now ≤ 1292 }
        ensures text { self.new.bytes.items ≡ self.old.bytes.items ++ text.now }
        ensures at { self.new.bytes.items ≡ written self.old.bytes.items (length self.old.bytes.items) text.now }
    {
        self.bytes.try_extend_from_slice(text).unwrap();
    }

    // Puts a number below 100 in two digits.
    // Stays: there is no heap here, and no contract says that `write!` to fixed memory succeeds where there is room.
    pub(crate) fn put_two_digits(&mut self, n: u8)
        requires { (n < 100) × (length self.old.bytes.items + 2 ≤ 1292) }
        ensures text { self.new.bytes.items ≡ self.old.bytes.items ++ two_digits n }
        ensures at { self.new.bytes.items ≡ written self.old.bytes.items (length self.old.bytes.items) (two_digits n) }
    {
        self.put(&[b'0' + n / 10, b'0' + n % 10]);
    }

    // Puts a number in decimal with no leading zeros.
    pub(crate) fn put_decimal<I: Integer>(&mut self, n: I)
        requires { length self.old.bytes.items + length (I.text n) ≤ 1292 }
        ensures text { self.new.bytes.items ≡ self.old.bytes.items ++ I.text n }
        ensures at { self.new.bytes.items ≡ written self.old.bytes.items (length self.old.bytes.items) (I.text n) }
    {
        let mut digits = Buffer::new();
        self.put(digits.format(n).as_bytes());
    }

    // Puts a label's four bytes.
    fn put_label(&mut self, label: Label)
        requires { length self.old.bytes.items + 4 ≤ 1292 }
        ensures text { self.new.bytes.items ≡ self.old.bytes.items ++ label_bytes label }
        ensures at { self.new.bytes.items ≡ written self.old.bytes.items (length self.old.bytes.items) (label_bytes label) }
    {
        self.put(&<[u8; 4]>::from(label));
    }

    // Puts a space and a number in decimal.
    fn put_figure(&mut self, n: u32)
        requires { length self.old.bytes.items + length (figure n) ≤ 1292 }
        ensures text { self.new.bytes.items ≡ self.old.bytes.items ++ figure n }
        ensures at { self.new.bytes.items ≡ written self.old.bytes.items (length self.old.bytes.items) (figure n) }
    {
        self.put(b" ");
        self.put_decimal(n);
    }

    // Puts the line of a row with its two bounds: `NN LABL RM RC SUM D`, with single spaces and a line's end.
    fn put_line(&mut self, number: u8, row: &Row, bounds: (u32, u32))
        requires number { number < 100 }
        requires both { bounds.0 + bounds.1 ≤ 1000000 }
        requires room { length self.old.bytes.items + length (line_of number row.now bounds) ≤ 1292 }
        ensures text { self.new.bytes.items ≡ self.old.bytes.items ++ line_of number row.now bounds }
        ensures at { self.new.bytes.items ≡ written self.old.bytes.items (length self.old.bytes.items) (line_of number row.now bounds) }
    {
        let (memory, processor) = bounds;
        self.put_two_digits(number);
        self.put(b" ");
        self.put_label(row.label);
        self.put_figure(memory);
        self.put_figure(processor);
        self.put_figure(memory + processor);
        self.put_figure(row.deadline);
        self.put(b"\n");
    }

    // Puts the line of a row, if it has bounds.
    pub(crate) fn put_row(&mut self, number: u8, row: &Row, bounds: Option<(u32, u32)>)
        requires number { number < 100 }
        requires valid { Valid row.now }
        requires within { IfSome bounds (λ b. b.0 + b.1 ≤ row.now.deadline) }
        requires room { length self.old.bytes.items + 40 ≤ 1292 }
        ensures text { self.new.bytes.items ≡ self.old.bytes.items ++ bound_line number row.now bounds }
        ensures most { length self.new.bytes.items ≤ length self.old.bytes.items + 40 }
    {
        if let Some(bounds) = bounds {
            self.put_line(number, row, bounds);
        }
    }

    // Puts the last line of an accepted rating, the count of its rows.
    pub(crate) fn put_count(&mut self, rows: usize)
        requires { (rows ≤ 32) × (length self.old.bytes.items + 12 ≤ 1292) }
        ensures { self.new.bytes.items ≡ self.old.bytes.items ++ count_text rows }
    {
        self.put(b"accepted ");
        self.put_decimal(rows);
        self.put(b"\n");
    }

    // Puts the number of a record, if there is one.
    pub(crate) fn put_record(&mut self, number: Option<usize>)
        requires { length self.old.bytes.items + 28 ≤ 1292 }
        ensures text { self.new.bytes.items ≡ self.old.bytes.items ++ record_text number }
        ensures most { length self.new.bytes.items ≤ length self.old.bytes.items + 28 }
    {
        if let Some(number) = number {
            self.put(b" record ");
            self.put_decimal(number);
        }
    }
}
