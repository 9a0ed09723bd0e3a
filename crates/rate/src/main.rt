#![tactic(auto)]

ghost use Rattle.std.specs.Prelude.{◌≡◌, ◌≤◌, length, IfOk};
ghost use Rattle.rate.specs.Listed.{Shows};
ghost use Rattle.rows.specs.Books.{load_of};

use listing::fault::ListingFault;
use listing::listing::{list_fault, list_rating};
use rating::order::{ByMemoryRank, ByProcessorRank};
use rating::rating::close;
use rows::draft::Draft;
use std::io;
use std::io::{Read, Write};

// Lists the rating of a book under the two rank orders, or why the book is turned down.
fn list_book(book: &[u8], out: &mut [u8]) -> Result<usize, ListingFault>
    ensures shows { Shows (load_of 0 book.now) book.now out.old out.new result }
    ensures most { IfOk result (λ n. n ≤ 1292) }
    ensures long { length out.new ≡ length out.old }
{
    let mut draft = Draft::new();
    match draft.load(book) {
        Ok(()) => {
            let rating = close(draft, ByMemoryRank, ByProcessorRank);
            list_rating(&rating, out)
        }
        Err(fault) => list_fault(&fault, out),
    }
}

// Reads at most 65,520 bytes of standard input as a book, and prints its listing.
fn main(rt: HostRuntime) -> io::Result<()> {
    let mut book = Vec::new(rt.alloc());
    rt.stdin().take(65_520).read_to_end(&mut book)?;
    let mut out = [0; 1292];
    match list_book(&book, &mut out) {
        Ok(n) => rt.stdout().write_all(&out[0..n]),
        Err(_) => Ok(()),
    }
}
