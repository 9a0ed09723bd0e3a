ghost use Rattle.std.specs.Prelude.{◌≡◌, None};
ghost use Rattle.layers.specs.Gates.{GateAdvanced, GateMade, GateSet, GateTaken, Spaced, gate_view, spacing_later};
ghost use Rattle.feeds.specs.Meanings.{Advanced, Taken};
ghost use Rattle.feeds.specs.Settings.{distance_checked};

use super::{Gate, Spacing};
use feeds::fault::SettingFault;
use feeds::feed::Feed;
use feeds::mark::Mark;
use feeds::per_mark::PerMark;
use feeds::pledge::Pledge;
use feeds::terms::Distance;
use feeds::timed::Timed;

// Stays: tried, and not proved: `kind` by `Self::LETTER`, of which nothing is known in an impl over any feed.
const LETTER: u8 = b'G';

impl Timed for Spacing {
    ghost later = { spacing_later };

    fn pass(&mut self) {
        self.rest = self.rest.saturating_sub(1);
    }
}

impl Spacing {
    // The same distance, for which it stays shut.
    fn shut(self) -> Spacing
        ensures { Spaced result self.distance.steps self.distance.steps }
    {
        Spacing {
            rest: self.distance.steps(),
            ..self
        }
    }
}

impl<F: Feed> Gate<F> {
    // A gate over a feed, with distance 1 and rest 0 at every mark.
    pub fn new(below: F) -> Gate<F>
        ensures { GateMade below result }
    {
        Gate {
            below,
            spacings: PerMark::new(Spacing {
                distance: Distance::LEAST,
                rest: 0,
            }),
        }
    }

    // Sets the distance of a mark; its rest stays.
    pub fn set(&mut self, k: Mark, distance: u32) -> Result<(), SettingFault>
        ensures answered { result ≡ distance_checked distance }
        ensures done { GateSet self.old k.value distance result self.new }
    {
        let distance = Distance::new(distance)?;
        let own = self.spacings.get(k);
        self.spacings.set(k, Spacing { distance, ..own });
        Ok(())
    }

    // Gives back the feed below.
    pub fn into_inner(self) -> F
        ensures { result ≡ self.below }
    {
        let Gate { below, spacings: _ } = self;
        below
    }
}

impl<F: Feed> Pledge for Gate<F> {
    const LETTER: u8 = LETTER;

    ghost initial = { 71 };

    ghost view = { gate_view F.Pledge.view };

    fn kind(&self) -> u8 {
        LETTER
    }

    fn distance(&self, k: Mark) -> u32 {
        let own = self.spacings.get(k);
        own.distance.steps().max(self.below.distance(k))
    }

    fn memory_ceiling(&self, k: Mark) -> u32 {
        self.below.memory_ceiling(k)
    }

    fn processor_ceiling(&self, k: Mark) -> u32 {
        self.below.processor_ceiling(k)
    }
}

impl<F: Feed> Feed for Gate<F> {
    fn look(&self, k: Mark) -> Option<(u32, u32)> {
        let own = self.spacings.get(k);
        if own.rest == 0 {
            self.below.look(k)
        } else {
            None
        }
    }

    // The gate rests for its own distance, and the feed below for its own.
    fn take(&mut self, k: Mark) -> Option<(u32, u32)>
        ensures taken { Taken (gate_view F.Pledge.view self.old) k.value result (gate_view F.Pledge.view self.new) }
        ensures idle { (gate_view F.Pledge.view self.old).offer k.value ≡ None → self.new ≡ self.old }
        ensures parts { GateTaken F.Pledge.view self.old k.value result self.new }
    {
        let own = self.spacings.get(k);
        if own.rest > 0 {
            return None;
        }
        let arrival = self.below.take(k)?;
        self.spacings.set(k, own.shut());
        Some(arrival)
    }

    fn advance(&mut self)
        ensures advanced { Advanced (gate_view F.Pledge.view self.old) (gate_view F.Pledge.view self.new) }
        ensures parts { GateAdvanced F.Pledge.view self.old self.new }
    {
        self.below.advance();
        self.spacings.advance();
    }
}
