ghost use Rattle.layers.specs.Cuts.{CutOffAdvanced, CutOffMade, CutOffSet, CutOffTaken, cut_off_view, trimmed};
ghost use Rattle.feeds.specs.Meanings.{Advanced, Taken};
ghost use Rattle.feeds.specs.Settings.{ceilings_checked};
ghost use Rattle.std.specs.Prelude.{◌≡◌, None};

use super::CutOff;
use feeds::fault::SettingFault;
use feeds::feed::Feed;
use feeds::mark::Mark;
use feeds::per_mark::PerMark;
use feeds::pledge::Pledge;
use feeds::terms::Ceilings;

// Stays: tried, and not proved: `kind` by `Self::LETTER`, of which nothing is known in an impl over any feed.
const LETTER: u8 = b'C';

// What ceilings leave of an offer.
fn trim(own: Ceilings, offer: Option<(u32, u32)>) -> Option<(u32, u32)>
    ensures { result ≡ trimmed own offer }
{
    let (memory, processor) = offer?;
    Some((own.memory().min(memory), own.processor().min(processor)))
}

impl<F: Feed> CutOff<F> {
    // A cut-off over a feed, with both ceilings 1,000,000 at every mark.
    pub fn new(below: F) -> CutOff<F>
        ensures { CutOffMade below result }
    {
        CutOff {
            below,
            cuts: PerMark::new(Ceilings::HIGHEST),
        }
    }

    // Sets the ceilings of a mark.
    // Stays: told figure by figure, since each may be refused with a number of its own, a rule of the project.
    pub fn set(&mut self, k: Mark, memory: u32, processor: u32) -> Result<(), SettingFault>
        ensures answered { result ≡ ceilings_checked memory processor }
        ensures done { CutOffSet self.old k.value memory processor result self.new }
    {
        let ceilings = Ceilings::new(memory, processor)?;
        self.cuts.set(k, ceilings);
        Ok(())
    }

    // Gives back the feed below.
    // Stays: one of these for gate and cut-off would be a trait, with a ghost member and two impls, for two lines.
    pub fn into_inner(self) -> F
        ensures { result ≡ self.below }
    {
        let CutOff { below, cuts: _ } = self;
        below
    }
}

impl<F: Feed> Pledge for CutOff<F> {
    const LETTER: u8 = LETTER;

    ghost initial = { 67 };

    ghost view = { cut_off_view F.Pledge.view };

    fn kind(&self) -> u8 {
        LETTER
    }

    fn distance(&self, k: Mark) -> u32 {
        self.below.distance(k)
    }

    fn memory_ceiling(&self, k: Mark) -> u32 {
        let own = self.cuts.get(k);
        own.memory().min(self.below.memory_ceiling(k))
    }

    fn processor_ceiling(&self, k: Mark) -> u32 {
        let own = self.cuts.get(k);
        own.processor().min(self.below.processor_ceiling(k))
    }
}

impl<F: Feed> Feed for CutOff<F> {
    fn look(&self, k: Mark) -> Option<(u32, u32)> {
        trim(self.cuts.get(k), self.below.look(k))
    }

    // Only the feed below is altered.
    fn take(&mut self, k: Mark) -> Option<(u32, u32)>
        ensures taken { Taken (cut_off_view F.Pledge.view self.old) k.value result (cut_off_view F.Pledge.view self.new) }
        ensures idle { (cut_off_view F.Pledge.view self.old).offer k.value ≡ None → self.new ≡ self.old }
        ensures parts { CutOffTaken F.Pledge.view self.old k.value self.new }
    {
        trim(self.cuts.get(k), self.below.take(k))
    }

    fn advance(&mut self)
        ensures advanced { Advanced (cut_off_view F.Pledge.view self.old) (cut_off_view F.Pledge.view self.new) }
        ensures parts { CutOffAdvanced F.Pledge.view self.old self.new }
    {
        self.below.advance();
    }
}
