// Why a log file is refused.
use sig_base::NoMemory;
use std::alloc::{AllocError, AllocFailed};
use thiserror::Error;

/// Why a log file is refused. The number is that of the first bad record, as `csv` gives records,
/// counted from 1 with the header; the variant is the first test that this record fails, in the
/// order of the variants.
#[derive(Clone, Copy, Debug, PartialEq, Eq, Error)]
pub enum RowError {
    /// The file has a row 400,001 after the header.
    #[error("too many rows")]
    TooManyRows,
    /// The record hasn't four fields.
    #[error("record {0}: not four fields")]
    Fields(u32),
    /// The signal is another one than that asked for.
    #[error("record {0}: another signal")]
    WrongSignal(u32),
    /// The stamp isn't readable, or names a day or a time that there isn't.
    #[error("record {0}: not a stamp")]
    Stamp(u32),
    /// The stamp lies outside the hour.
    #[error("record {0}: outside the hour")]
    OutsideHour(u32),
    /// The code isn't one to nine digits with a value of at most 255.
    #[error("record {0}: not a code")]
    Code(u32),
    /// The parameter isn't one to nine digits with a value of at most 65,535.
    #[error("record {0}: not a parameter")]
    Param(u32),
    /// Memory ran out. No transcript has it: such a run ends with `Memory`.
    #[error("out of memory")]
    Memory,
}

impl From<NoMemory> for RowError {
    ghost use Rattle.std.specs.Prelude.{◌≡◌};
    ghost use Rattle.row_reader.specs.declared.row_error.RowError.TheVariants.{Memory};

    ghost from_gives = { λ _ e. e ≡ Memory };

    fn from(_: NoMemory) -> Self {
        RowError::Memory
    }
}
