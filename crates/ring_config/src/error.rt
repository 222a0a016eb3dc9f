// Why a configuration is refused, and where.
ghost use Rattle.std.specs.Prelude.{◌≡◌};
ghost use Rattle.ring_config.specs.declared.error.ConfigError.TheVariants.{Memory};
ghost use Rattle.ring_config.specs.Reading.{key_text};

use std::alloc::{AllocError, AllocFailed};
use thiserror::Error;

/// A table of a configuration; `Top` is the document itself.
#[derive(Clone, Copy, Debug, PartialEq, Eq)]
pub enum TableName {
    Top,
    Phase,
    Ped,
    Overlap,
    Preempt,
    Conflict,
    Allow,
    Floor,
    Interval,
    Approach,
}

/// A key of a configuration. `Phase` is both the array of phases and the phase of an approach;
/// `Other` stands for a key that the format doesn't know.
#[derive(Clone, Copy, Debug, PartialEq, Eq)]
pub enum KeyName {
    Signal,
    Start,
    Hours,
    Coordination,
    Phase,
    Ped,
    Overlap,
    Preempt,
    Conflict,
    Allow,
    Floor,
    Interval,
    Approach,
    Number,
    Ring,
    Side,
    Parents,
    A,
    B,
    Channel,
    Colour,
    Tenths,
    AtLeast,
    AtMost,
    Name,
    Advance,
    StopBar,
    Travel,
    HighNum,
    HighDen,
    Other,
}

impl KeyName {
    /// The key as it stands in the file, `?` for `Other`.
    pub fn text(self) -> &'static str
        ensures { result.now ≡ key_text self }
    {
        match self {
            KeyName::Signal => "signal",
            KeyName::Start => "start",
            KeyName::Hours => "hours",
            KeyName::Coordination => "coordination",
            KeyName::Phase => "phase",
            KeyName::Ped => "ped",
            KeyName::Overlap => "overlap",
            KeyName::Preempt => "preempt",
            KeyName::Conflict => "conflict",
            KeyName::Allow => "allow",
            KeyName::Floor => "floor",
            KeyName::Interval => "interval",
            KeyName::Approach => "approach",
            KeyName::Number => "number",
            KeyName::Ring => "ring",
            KeyName::Side => "side",
            KeyName::Parents => "parents",
            KeyName::A => "a",
            KeyName::B => "b",
            KeyName::Channel => "channel",
            KeyName::Colour => "colour",
            KeyName::Tenths => "tenths",
            KeyName::AtLeast => "at_least",
            KeyName::AtMost => "at_most",
            KeyName::Name => "name",
            KeyName::Advance => "advance",
            KeyName::StopBar => "stop_bar",
            KeyName::Travel => "travel",
            KeyName::HighNum => "high_num",
            KeyName::HighDen => "high_den",
            KeyName::Other => "?",
        }
    }
}

/// A place in a configuration: a key of an entry of a table.
#[derive(Clone, Copy, Debug, PartialEq, Eq)]
pub struct KeyAt {
    pub table: TableName,
    /// The place of the entry in its table, from 0; the table's limit where it has too many.
    pub entry: u32,
    pub key: KeyName,
}

/// The first thing that is wrong with a configuration, in the order that `docs/FORMATS.md` gives,
/// or that memory ran out.
#[derive(Clone, Copy, Debug, PartialEq, Eq, Error)]
pub enum ConfigError {
    /// The bytes aren't UTF-8, or the text isn't TOML.
    #[error("the configuration is not TOML")]
    NotToml,
    /// A required key isn't there.
    #[error("missing: {0:?}")]
    Missing(KeyAt),
    /// The value isn't what the key wants.
    #[error("bad value: {0:?}")]
    BadValue(KeyAt),
    /// The entry has a key that its table doesn't have.
    #[error("unknown key: {0:?}")]
    Unknown(KeyAt),
    /// The entry repeats an earlier one.
    #[error("repeated: {0:?}")]
    Repeated(KeyAt),
    /// The table has more entries than it may have.
    #[error("too many entries: {0:?}")]
    TooMany(KeyAt),
    /// Memory ran out. No transcript has it: such a run ends with `Memory`.
    #[error("out of memory")]
    Memory,
}

impl From<AllocError> for ConfigError {
    ghost from_gives = { λ _ e. e ≡ Memory };

    fn from(_: AllocError) -> ConfigError {
        ConfigError::Memory
    }
}

impl<T: Drop> From<AllocFailed<T>> for ConfigError {
    ghost from_gives = { λ _ e. e ≡ Memory };

    fn from(_: AllocFailed<T>) -> ConfigError {
        ConfigError::Memory
    }
}
