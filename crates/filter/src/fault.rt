ghost use Rattle.filter.specs.declared.fault.ConvertFault.TheVariants.{Input as InInput, Memory as NoMemory};
ghost use Rattle.std.specs.Prelude.{◌≡◌};

use rows::fault::LoadFault;
use std::alloc::AllocError;
use tables::fault::BadLine;

// Why a file is not converted, whatever faults its kind of file has.
#[derive(Clone, Copy, PartialEq, Eq, Debug)]
pub enum ConvertFault<F> {
    // The file is turned down.
    Input(F),
    // There is not enough memory.
    Memory,
}

impl From<BadLine> for ConvertFault<BadLine> {
    ghost from_gives = { λ bad fault. fault ≡ InInput bad };

    fn from(bad: BadLine) -> ConvertFault<BadLine> {
        ConvertFault::Input(bad)
    }
}

impl From<LoadFault> for ConvertFault<LoadFault> {
    ghost from_gives = { λ load fault. fault ≡ InInput load };

    fn from(load: LoadFault) -> ConvertFault<LoadFault> {
        ConvertFault::Input(load)
    }
}

impl<F> From<AllocError> for ConvertFault<F> {
    ghost from_gives = { λ _ fault. fault ≡ NoMemory };

    fn from(_value: AllocError) -> ConvertFault<F> {
        ConvertFault::Memory
    }
}
