ghost use Rattle.std.specs.Prelude.{◌≡◌, ℕ};
ghost use Rattle.feeds.specs.Settings.{Figures, setting_checked};
ghost use Rattle.feeds.specs.Sheets.{SheetSet, entry_of, sheet_view};

use super::DataSheet;
use crate::fault::SettingFault;
use crate::mark::Mark;
use crate::per_mark::PerMark;
use crate::pledge::Pledge;
use crate::terms::{Ceilings, Distance, Terms};

impl DataSheet {
    // A sheet with no mark set: each has distance 1 and the highest ceilings.
    pub fn new() -> DataSheet
        ensures { (k : ℕ) → Figures (entry_of result k) 1 1000000 1000000 }
    {
        DataSheet {
            entries: PerMark::new(Terms {
                distance: Distance::LEAST,
                ceilings: Ceilings::HIGHEST,
            }),
        }
    }

    // Pledges for one mark that arrivals keep this distance and cost no more than this.
    // Stays: told figure by figure, since each may be refused with a number of its own, a rule of the project.
    pub fn set(
        &mut self,
        k: Mark,
        distance: u32,
        memory: u32,
        processor: u32,
    ) -> Result<(), SettingFault>
        ensures answer { result ≡ setting_checked distance memory processor }
        ensures set { SheetSet self.old k.value distance memory processor result self.new }
    {
        let terms = Terms::new(distance, memory, processor)?;
        self.entries.set(k, terms);
        Ok(())
    }
}

impl Pledge for DataSheet {
    const LETTER: u8 = b'S';

    ghost initial = { 83 };

    ghost view = { sheet_view };

    fn kind(&self) -> u8 {
        Self::LETTER
    }

    fn distance(&self, k: Mark) -> u32 {
        self.entries.get(k).distance.steps()
    }

    fn memory_ceiling(&self, k: Mark) -> u32 {
        self.entries.get(k).ceilings.memory()
    }

    fn processor_ceiling(&self, k: Mark) -> u32 {
        self.entries.get(k).ceilings.processor()
    }
}
