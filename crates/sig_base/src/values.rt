/// A tenth of a second, counted from the start of the window. Entries from before the window are
/// negative.
pub type Tenth = i64;

/// An hour, counted from the start of the window.
pub type Hour = u32;

/// One event of the log: a tenth of the window, a code and its parameter.
#[derive(Clone, Copy, Debug, PartialEq, Eq)]
pub struct Row {
    /// Tenths since the start of the window.
    pub at: u32,
    pub code: u8,
    pub param: u16,
}

/// A fraction, printed as it stands and never reduced.
#[derive(Clone, Copy, Debug, PartialEq, Eq)]
pub struct Frac {
    pub num: u64,
    pub den: u64,
}

/// What the log says of one obligation: nothing to judge, kept in all agreeing histories, in none,
/// or in only some of them.
#[derive(Clone, Copy, Debug, PartialEq, Eq)]
pub enum Verdict {
    Idle,
    Kept,
    Broken,
    Undecided,
}

/// A phase with its ring and its side of the barrier.
#[derive(Clone, Copy, Debug, PartialEq, Eq)]
pub struct PhaseItem {
    /// 1 to 16.
    pub number: u8,
    /// 1 to 4.
    pub ring: u8,
    /// 1 to 4.
    pub side: u8,
}

/// The hours that an accepted edit moves, `to` left out: those that it touches, and those that a
/// carry or a future at their points has changed for.
#[derive(Clone, Copy, Debug, PartialEq, Eq)]
pub struct Applied {
    pub from: u32,
    pub to: u32,
}

/// Why an edit was refused.
#[derive(Clone, Copy, Debug, PartialEq, Eq)]
pub enum EditError {
    /// The hour or the range isn't in the window.
    OutOfWindow,
    /// A load of an hour that is held.
    AlreadyHeld,
    /// A replacement or a withdrawal of an hour that isn't held.
    NotHeld,
    /// A range that ends where it begins, or before.
    EmptyRange,
    /// More rows than a session holds.
    TooManyRows,
    /// More blanked ranges than a session holds.
    TooManyBlanks,
    /// No history agrees with the log up to this row.
    Contradiction(Row),
    /// Memory ran out. No transcript has it: such a run ends with `Memory`.
    Memory,
}
