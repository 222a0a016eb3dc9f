//! One channel's way through an hour: a list of moves, each a letter of one of its rows or a gap
//! of the log, the states that are possible before each move and after the last, and what these
//! places say of a test.
//!
//! Nothing here speaks of rows of other channels or of how a row becomes a letter, and all of it
//! holds for every machine. Tenths count from the window's start.
#![tactic(auto)]

mod ahead;
mod leg;
mod moves;
mod near;
mod past;
mod path;
mod places;
mod sure;

pub use ahead::{move_ahead, walk_ahead};
pub use moves::{Move, runs_are_moves};
pub use near::ahead_near;
pub use past::{end_run, walk_past};
pub use path::Path;
