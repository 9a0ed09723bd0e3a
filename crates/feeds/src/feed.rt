ghost use Rattle.feeds.specs.Meanings.{Advanced, Taken};
ghost use Rattle.std.specs.Prelude.{◌≡◌, None};

use crate::mark::Mark;
use crate::pledge::Pledge;

// A feed: a pledge that also delivers arrivals. At each mark it offers nothing or a pair, the memory and the processor
// steps of the next arrival. What it offers later is free, but for what every view keeps.
pub trait Feed: Pledge {
    // The offer at a mark; alters nothing.
    fn look(&self, k: Mark) -> Option<(u32, u32)>
        ensures { result ≡ (Self.Pledge.view self.now).offer k.value };

    // Takes the offer at a mark, if there is one, and rests that mark for its distance.
    fn take(&mut self, k: Mark) -> Option<(u32, u32)>
        ensures taken { Taken (Self.Pledge.view self.old) k.value result (Self.Pledge.view self.new) }
        ensures idle { (Self.Pledge.view self.old).offer k.value ≡ None → self.new ≡ self.old };

    // Goes on by one step: every rest above 0 is lowered by one.
    fn advance(&mut self)
        ensures { Advanced (Self.Pledge.view self.old) (Self.Pledge.view self.new) };
}
