ghost use Rattle.std.specs.Prelude.{◌≡◌, ◌<◌, ◌≤◌, [], length};
ghost use Rattle.listing.specs.Listings.{accepted_text, late_text, lines_of, phase_word, rating_text};
ghost use Rattle.rating.specs.Ratings.{draft_in};
ghost use Rattle.rows.specs.Drafts.{rows_of};

use crate::listing::Listed;
use crate::page::Page;
use rating::rating::Rating;
use rating::verdict::{Phase, Verdict};

impl<A, B> Listed for Rating<A, B> {
    ghost text = { λ rating. rating_text rating };

    #[tactic(auto, unfolding(crate::specs::Listings::rating_text))]
    fn write(&self, page: &mut Page) {
        match self.verdict() {
            Verdict::Accepted => put_accepted(page, self),
            Verdict::Late(phase, row) => put_late(page, phase, row),
        }
    }
}

// Puts what an accepted rating shows on an empty page: the lines of its rows, and their count.
fn put_accepted<A, B>(page: &mut Page, rating: &Rating<A, B>)
    requires { page.old.bytes.items ≡ [] }
    ensures { page.new.bytes.items ≡ accepted_text rating.now }
{
    put_rows(page, rating);
    page.put_count(rating.rows().len());
}

// Puts the lines of all rows on an empty page.
#[tactic(auto, unfolding(crate::specs::Listings::lines_of))]
fn put_rows<A, B>(page: &mut Page, rating: &Rating<A, B>)
    requires { page.old.bytes.items ≡ [] }
    ensures text { page.new.bytes.items ≡ lines_of rating.now (length (rows_of (draft_in rating.now))) }
    ensures most { length page.new.bytes.items ≤ 1280 }
{
    for (i, row) in rating.rows().iter().enumerate() {
        page.put_row(i as u8, row, rating.bounds(i as u8));
    }
}

// Puts what a late rating shows on an empty page.
fn put_late(page: &mut Page, phase: Phase, row: u8)
    requires empty { page.old.bytes.items ≡ [] }
    requires row { row < 100 }
    ensures { page.new.bytes.items ≡ late_text phase row }
{
    page.put(b"late ");
    page.put(word_of(phase));
    page.put_two_digits(row);
    page.put(b"\n");
}

// The word for a phase, with a space behind it.
fn word_of(phase: Phase) -> &'static [u8]
    ensures { result.now ≡ phase_word phase }
{
    match phase {
        Phase::Memory => b"memory ",
        Phase::Processor => b"processor ",
    }
}
