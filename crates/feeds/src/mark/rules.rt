ghost use Rattle.std.specs.Prelude.{◌≡◌, ◌<◌, ℕ, slice_index_or};
ghost use Rattle.feeds.specs.Marks.{MarkMade};

use super::Mark;
use crate::fault::MarkFault;
use std::array;

impl TryFrom<u8> for Mark {
    type Error = MarkFault;

    // The mark of a number.
    fn try_from(value: u8) -> Result<Mark, MarkFault>
        ensures { MarkMade value result }
    {
        if value < 32 {
            Ok(Mark { value })
        } else {
            Err(MarkFault::Above)
        }
    }
}

impl From<Mark> for usize {
    // The number of a mark, to index a table of 32 with.
    fn from(k: Mark) -> usize
        ensures { result ≡ k.value }
    {
        k.value as usize
    }
}

impl Mark {
    // The mark of a number.
    pub fn new(value: u8) -> Result<Mark, MarkFault>
        ensures { MarkMade value result }
    {
        Mark::try_from(value)
    }

    // All marks, from 0 upward.
    pub fn all() -> [Mark; 32]
        ensures { (d : Mark) (k : ℕ) → k < 32 → (slice_index_or result k d).value ≡ k }
    {
        array::from_fn(Mark::at)
    }

    // The mark of a place of a table of 32.
    pub(crate) fn at(place: usize) -> Mark
        requires { place < 32 }
        ensures { result.value ≡ place }
    {
        Mark { value: place as u8 }
    }

    // The number of the mark, to index a table of 32 with.
    pub fn index(&self) -> usize
        ensures value { result ≡ self.now.value }
        ensures small { result < 32 }
    {
        usize::from(*self)
    }
}
