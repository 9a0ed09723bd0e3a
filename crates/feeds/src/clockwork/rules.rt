ghost use Rattle.std.specs.Prelude.{◌≡◌, ℕ, false, None};
ghost use Rattle.feeds.specs.Clocks.{ClockAdvanced, ClockSet, ClockTaken, Has, clock_view, entry_of, rest_later, terms_of};
ghost use Rattle.feeds.specs.Meanings.{Advanced, Taken};
ghost use Rattle.feeds.specs.Settings.{Figures, timing_checked};

use super::{Clockwork, Rest};
use crate::fault::SettingFault;
use crate::feed::Feed;
use crate::mark::Mark;
use crate::per_mark::PerMark;
use crate::pledge::Pledge;
use crate::terms::{Ceilings, Distance, Terms};
use crate::timed::Timed;

impl Timed for Rest {
    ghost later = { rest_later };

    fn pass(&mut self) {
        self.steps = self.steps.saturating_sub(1);
    }
}

impl Clockwork {
    // A clockwork with no mark set: each has the highest distance, the lowest ceilings and no arrivals.
    pub fn new() -> Clockwork
        ensures { (k : ℕ) → Has (entry_of result k) false 0 1000000 0 1 }
    {
        Clockwork {
            terms: PerMark::new(None),
            rests: PerMark::new(Rest { steps: 0 }),
        }
    }

    // Starts the arrivals of one mark: after the offset, and then at each interval.
    // Stays: told figure by figure, since each may be refused with a number of its own, a rule of the project.
    pub fn set(
        &mut self,
        k: Mark,
        offset: u32,
        interval: u32,
        memory: u32,
        processor: u32,
    ) -> Result<(), SettingFault>
        ensures answer { result ≡ timing_checked offset interval memory processor }
        ensures set { ClockSet self.old k.value offset interval memory processor result self.new }
    {
        if offset > 1_000_000 {
            return Err(SettingFault::Offset);
        }
        let terms = Terms::new(interval, memory, processor)?;
        self.terms.set(k, Some(terms));
        self.rests.set(k, Rest { steps: offset });
        Ok(())
    }

    // The terms of a mark, set or not.
    fn terms(&self, k: Mark) -> Terms
        ensures { Figures result (terms_of (entry_of self.now k.value)).distance.steps (terms_of (entry_of self.now k.value)).ceilings.memory (terms_of (entry_of self.now k.value)).ceilings.processor }
    {
        match self.terms.get(k) {
            Some(terms) => terms,
            None => Terms {
                distance: Distance::GREATEST,
                ceilings: Ceilings::LOWEST,
            },
        }
    }
}

impl Pledge for Clockwork {
    const LETTER: u8 = b'K';

    ghost initial = { 75 };

    ghost view = { clock_view };

    fn kind(&self) -> u8 {
        Self::LETTER
    }

    fn distance(&self, k: Mark) -> u32 {
        self.terms(k).distance.steps()
    }

    fn memory_ceiling(&self, k: Mark) -> u32 {
        self.terms(k).ceilings.memory()
    }

    fn processor_ceiling(&self, k: Mark) -> u32 {
        self.terms(k).ceilings.processor()
    }
}

impl Feed for Clockwork {
    fn look(&self, k: Mark) -> Option<(u32, u32)> {
        if self.rests.get(k).steps > 0 {
            return None;
        }
        let terms = self.terms.get(k)?;
        Some((terms.ceilings.memory(), terms.ceilings.processor()))
    }

    fn take(&mut self, k: Mark) -> Option<(u32, u32)>
        ensures taken { Taken (clock_view self.old) k.value result (clock_view self.new) }
        ensures idle { (clock_view self.old).offer k.value ≡ None → self.new ≡ self.old }
        ensures entries { ClockTaken self.old k.value self.new }
    {
        let offer = self.look(k)?;
        let steps = self.distance(k);
        self.rests.set(k, Rest { steps });
        Some(offer)
    }

    fn advance(&mut self)
        ensures advanced { Advanced (clock_view self.old) (clock_view self.new) }
        ensures entries { ClockAdvanced self.old self.new }
    {
        self.rests.advance();
    }
}
