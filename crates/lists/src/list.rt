ghost use Rattle.std.specs.Prelude.{◌≡◌, ℕ, ◌*◌, ◌<◌, ◌≤◌, length};
ghost use Rattle.lists.specs.ListRecords.{sound_count, sought};
ghost use Rattle.lists.specs.Places.{place_of};

use feeds::per_mark::PerMark;
use places::Place;

mod places;
mod rules;

// A list feed: arrivals as a file writes them down, read where the file lies. The records count up to the first faulty
// one. Each mark stands at its next untaken record, or at the end, so that nothing is looked for twice.
// Stays: that the struct has the file's bytes itself is a form of the project; `records` reads them as what they are.
#[derive(Drop)]
pub struct List<'a> {
    bytes: &'a [u8],
    count: usize,
    clock: u32,
    places: PerMark<Place>,
    ghost counted: { count ≡ sound_count bytes.now },
    ghost within: { 16 * count ≤ length bytes.now },
    ghost standing: { (k : ℕ) → k < 32 → sought bytes.now count k (place_of places k).cursor ≡ (place_of places k).cursor },
}
