ghost use Rattle.board.specs.Calls.{place_at};
ghost use Rattle.std.specs.Prelude.{◌≡◌};

use super::{Run, Slot};
use rating::rating::Rating;

impl<A, B, P> Run<A, B, P> {
    // The number of the next step.
    pub fn number(&self) -> u32
        ensures { result ≡ self.now.number }
    {
        self.number
    }

    // What the place of a row holds, or none without such a row.
    pub fn place(&self, k: u8) -> Option<Slot>
        ensures { result ≡ place_at self.now k }
    {
        let rows = self.rating.rows().len();
        self.places[..rows].get(k as usize).copied()
    }

    // The rating that the run was begun with.
    pub fn rating(&self) -> &Rating<A, B>
        ensures { result.now ≡ self.now.rating }
    {
        &self.rating
    }
}
