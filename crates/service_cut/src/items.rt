// What an hour lists.
use sig_base::Row;

/// Why a green ended, by the last row that said so.
#[derive(Clone, Copy, Debug, PartialEq, Eq)]
pub enum Termination {
    GapOut,
    MaxOut,
    ForceOff,
    /// No row said why.
    Unlogged,
}

/// A whole service of a phase. All times are tenths since the window's start.
#[derive(Clone, Copy, Debug, PartialEq, Eq)]
pub struct Service {
    pub phase: u8,
    /// The begin of green.
    pub b: u32,
    /// The end of green: its termination, or the begin of yellow if that comes first.
    pub g: u32,
    /// The begin of yellow.
    pub y: u32,
    /// The end of yellow, or the begin of red clearance if that comes first.
    pub r: u32,
    pub end: Termination,
}

/// The four rows of a whole service of a phase.
#[derive(Clone, Copy, Debug, PartialEq, Eq)]
pub struct Served {
    pub phase: u8,
    /// The begin of green.
    pub b: Row,
    /// The end of green: its termination, or the begin of yellow if that comes first.
    pub g: Row,
    /// The begin of yellow.
    pub y: Row,
    /// The end of yellow, or the begin of red clearance if that comes first.
    pub r: Row,
}

/// A whole cycle of a phase, from one end of yellow to the next.
#[derive(Clone, Copy, Debug, PartialEq, Eq)]
pub struct Cycle {
    pub phase: u8,
    /// Tenths since the window's start.
    pub from: u32,
    /// Tenths since the window's start.
    pub to: u32,
    /// Tenths from `from` to the last begin of green of the cycle, 0 where there is none.
    pub green: u32,
    /// Tenths from `from` to the last begin of yellow of the cycle, 0 where there is none.
    pub yellow: u32,
}

/// A service that isn't over at the point after the hour, with every tenth since known.
#[derive(Clone, Copy, Debug, PartialEq, Eq)]
pub struct OpenService {
    pub phase: u8,
    /// The begin of green, in tenths since the window's start.
    pub b: u32,
    /// The end of green, where it has come.
    pub g: Option<u32>,
}

/// The last end of yellow of a phase before the point after the hour, where every tenth since is
/// known: a cycle that isn't over.
#[derive(Clone, Copy, Debug, PartialEq, Eq)]
pub struct OpenCycle {
    pub phase: u8,
    /// Tenths since the window's start.
    pub from: u32,
}
