ghost use Rattle.std.specs.Prelude.{◌≡◌, ℕ, ◌≤◌, List, [], length, IfOk};
ghost use Rattle.listing.specs.Listings.{answer_of, buffer_after, fault_text, rating_text};
ghost use Rattle.listing.specs.Text.{written};

use crate::fault::ListingFault;
use crate::page::{LONGEST, Page};
use rating::rating::Rating;
use rows::fault::LoadFault;

// What has a listing.
pub(crate) trait Listed {
    // its lines
    ghost text: { Self → List ℕ };

    // Puts its lines on an empty page.
    fn write(&self, page: &mut Page)
        requires { page.old.bytes.items ≡ [] }
        ensures { page.new.bytes.items ≡ text self.now };
}

// Writes what a rating found: the line of every row and their count, or what is late. Answers the length written; a
// buffer that might be too short is left as it is.
pub fn list_rating<A, B>(rating: &Rating<A, B>, out: &mut [u8]) -> Result<usize, ListingFault>
    ensures value { result ≡ answer_of (rating_text rating.now) out.old }
    ensures buffer { out.new ≡ buffer_after (rating_text rating.now) out.old }
    ensures most { IfOk result (λ n. n ≤ 1292) }
{
    list(rating, out)
}

// Writes why a load was turned down. Answers the length written; a buffer that might be too short is left as it is.
pub fn list_fault(fault: &LoadFault, out: &mut [u8]) -> Result<usize, ListingFault>
    ensures value { result ≡ answer_of (fault_text fault.now) out.old }
    ensures buffer { out.new ≡ buffer_after (fault_text fault.now) out.old }
    ensures most { IfOk result (λ n. n ≤ 1292) }
{
    list(fault, out)
}

// Writes the listing of either at the start of a buffer.
fn list<L: Listed>(listed: &L, out: &mut [u8]) -> Result<usize, ListingFault>
    ensures value { result ≡ answer_of (L.text listed.now) out.old }
    ensures buffer { out.new ≡ buffer_after (L.text listed.now) out.old }
    ensures most { IfOk result (λ n. n ≤ 1292) }
{
    if out.len() < LONGEST {
        return Err(ListingFault::ShortBuffer);
    }
    let mut page = Page::new();
    listed.write(&mut page);
    let text = page.bytes.as_slice();
    put_front(out, text);
    Ok(text.len())
}

// Puts a text at the start of a buffer; what stands behind it stays.
fn put_front(out: &mut [u8], text: &[u8])
    requires { length text.now ≤ length out.old }
    ensures { out.new ≡ written out.old 0 text.now }
{
    out[..text.len()].copy_from_slice(text);
}
