// Why bytes are refused as a packed hour.
use sig_base::NoMemory;
use std::alloc::{AllocError, AllocFailed};
use thiserror::Error;

/// Why bytes are refused as a packed hour: the first fault from the front.
#[derive(Clone, Copy, Debug, PartialEq, Eq, Error)]
pub enum PackError {
    /// The first four bytes aren't the mark of a packed hour.
    #[error("not a packed hour")]
    NotPacked,
    /// The bytes end before the last row is whole.
    #[error("ends too early")]
    Short,
    /// A byte differs from those of the signal that was asked for.
    #[error("another signal")]
    WrongSignal,
    /// A byte differs from those of the hour that was asked for.
    #[error("another hour")]
    WrongHour,
    /// The count is over 400,000.
    #[error("too many rows")]
    TooManyRows,
    /// The row of this place, from 1, has a number that isn't spelled as numbers are, lies past the
    /// hour, has a parameter over 65,535 or is a repeat.
    #[error("row {0} can't be one")]
    Row(u32),
    /// A byte follows the last row.
    #[error("goes on after the last row")]
    Extra,
    /// Memory ran out. No transcript has it: such a run ends with `Memory`.
    #[error("out of memory")]
    Memory,
}

impl From<NoMemory> for PackError {
    ghost use Rattle.std.specs.Prelude.{◌≡◌};
    ghost use Rattle.hour_pack.specs.declared.pack_error.PackError.TheVariants.{Memory};

    ghost from_gives = { λ _ e. e ≡ Memory };

    fn from(_: NoMemory) -> Self {
        PackError::Memory
    }
}

impl From<AllocError> for PackError {
    ghost use Rattle.std.specs.Prelude.{◌≡◌};
    ghost use Rattle.hour_pack.specs.declared.pack_error.PackError.TheVariants.{Memory};

    ghost from_gives = { λ _ e. e ≡ Memory };

    fn from(_: AllocError) -> Self {
        PackError::Memory
    }
}

impl<T: Drop> From<AllocFailed<T>> for PackError {
    ghost use Rattle.std.specs.Prelude.{◌≡◌};
    ghost use Rattle.hour_pack.specs.declared.pack_error.PackError.TheVariants.{Memory};

    ghost from_gives = { λ _ e. e ≡ Memory };

    fn from(_: AllocFailed<T>) -> Self {
        PackError::Memory
    }
}
