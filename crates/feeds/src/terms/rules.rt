ghost use Rattle.std.specs.Prelude.{◌≡◌};
ghost use Rattle.feeds.specs.Settings.{CeilingsMade, DistanceMade, TermsMade};

use super::{Ceilings, Distance, Terms};
use crate::fault::SettingFault;

impl Distance {
    pub const LEAST: Distance = Distance { steps: 1 };

    pub const GREATEST: Distance = Distance { steps: 1_000_000 };

    // A distance of so many steps.
    pub fn new(steps: u32) -> Result<Distance, SettingFault>
        ensures { DistanceMade steps result }
    {
        if !(1..=1_000_000).contains(&steps) {
            return Err(SettingFault::Distance);
        }
        Ok(Distance { steps })
    }

    // Its steps.
    pub fn steps(self) -> u32
        ensures { result ≡ self.steps }
    {
        self.steps
    }
}

impl Ceilings {
    pub const LOWEST: Ceilings = Ceilings {
        memory: 0,
        processor: 1,
    };

    pub const HIGHEST: Ceilings = Ceilings {
        memory: 1_000_000,
        processor: 1_000_000,
    };

    // Ceilings of these figures. The memory figure is checked first.
    pub fn new(memory: u32, processor: u32) -> Result<Ceilings, SettingFault>
        ensures { CeilingsMade memory processor result }
    {
        if memory > 1_000_000 {
            return Err(SettingFault::Memory);
        }
        if !(1..=1_000_000).contains(&processor) {
            return Err(SettingFault::Processor);
        }
        Ok(Ceilings { memory, processor })
    }

    // The memory steps, at most.
    pub fn memory(self) -> u32
        ensures { result ≡ self.memory }
    {
        self.memory
    }

    // The processor steps, at most.
    pub fn processor(self) -> u32
        ensures { result ≡ self.processor }
    {
        self.processor
    }
}

impl Terms {
    // The terms of these figures. The distance is checked before the ceilings.
    pub(crate) fn new(distance: u32, memory: u32, processor: u32) -> Result<Terms, SettingFault>
        ensures { TermsMade distance memory processor result }
    {
        Ok(Terms {
            distance: Distance::new(distance)?,
            ceilings: Ceilings::new(memory, processor)?,
        })
    }
}
