ghost use Rattle.std.specs.Prelude.{◌≡◌, cond, map, nat_lt, slice_set, ℕ};
ghost use Rattle.feeds.specs.PerMarks.{at_mark};

use super::PerMark;
use crate::mark::Mark;
use crate::timed::Timed;

impl<T: Copy> PerMark<T> {
    // The same value for each mark.
    pub fn new(value: T) -> PerMark<T>
        ensures { (d : T) (k : ℕ) → at_mark d result k ≡ cond (nat_lt k 32) value d }
    {
        PerMark {
            entries: [value; 32],
        }
    }

    // The value of a mark.
    pub fn get(&self, k: Mark) -> T
        ensures { (d : T) → result ≡ at_mark d self.now k.value }
    {
        self.entries[k.index()]
    }

    // Puts a value at a mark.
    pub fn set(&mut self, k: Mark, value: T)
        ensures { self.new.entries ≡ slice_set self.old.entries k.value value }
    {
        let i = k.index();
        self.entries[i] = value;
    }
}

impl<T: Timed> PerMark<T> {
    // Goes on by one step: each value becomes what it is one step later.
    pub fn advance(&mut self)
        ensures { self.new.entries ≡ map T.Timed.later self.old.entries }
    {
        for own in &mut self.entries {
            own.pass();
        }
    }
}
