ghost use Rattle.std.specs.Prelude.{◌≡◌, ℕ};
ghost use Rattle.feeds.specs.Meanings.{View};

use crate::mark::Mark;

// A pledge: what is promised of the arrivals at each mark. No two of them come closer than the distance, and none costs
// more than the ceilings. What it shows, and the facts that hold of every pledge, stand in its view.
pub trait Pledge {
    // The letter of its kind; `initial` says it in contracts, and `kind` answers it.
    // Stays: tried, and not proved: a `ghost LETTER` of this constant, which an impl with a lifetime, a list's, can't give.
    const LETTER: u8;

    ghost initial: { ℕ };

    ghost view: { Self → View };

    fn kind(&self) -> u8
        ensures { result ≡ initial };

    // The least number of steps between two arrivals.
    fn distance(&self, k: Mark) -> u32
        ensures { result ≡ (view self.now).distance k.value };

    // The memory steps of an arrival, at most.
    fn memory_ceiling(&self, k: Mark) -> u32
        ensures { result ≡ (view self.now).memory k.value };

    // Its processor steps, at most.
    fn processor_ceiling(&self, k: Mark) -> u32
        ensures { result ≡ (view self.now).processor k.value };
}
