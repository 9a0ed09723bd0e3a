ghost use Rattle.feeds.specs.Faults.{mark_number, setting_number};
ghost use Rattle.std.specs.Prelude.{◌≡◌};

// Why a number is no row mark.
#[derive(Clone, Copy, PartialEq, Eq, Debug)]
pub enum MarkFault {
    // It is above 31.
    Above,
}

// Why a setting is refused, in the order of checking.
#[derive(Clone, Copy, PartialEq, Eq, Debug)]
pub enum SettingFault {
    // The offset is above 1,000,000.
    Offset,
    // The distance, or the interval, is not from 1 to 1,000,000.
    Distance,
    // The memory figure is above 1,000,000.
    Memory,
    // The processor figure is not from 1 to 1,000,000.
    Processor,
}

// Stays: the numbers of refusals are a rule of the project.
impl MarkFault {
    pub fn number(&self) -> u8
        ensures { result ≡ mark_number self.now }
    {
        match self {
            MarkFault::Above => 23,
        }
    }
}

impl SettingFault {
    pub fn number(&self) -> u8
        ensures { result ≡ setting_number self.now }
    {
        match self {
            SettingFault::Offset => 54,
            SettingFault::Distance => 51,
            SettingFault::Memory => 52,
            SettingFault::Processor => 53,
        }
    }
}
