//! Ways through one channel's moves of an hour: from a state after them back to one before them,
//! or over a state at a place between them, with the letters that fill their gaps.
//!
//! - `pasts`: the possible states before each letter; `back`: the way back over a list of moves.
//! - `onward`: on to a state that can be completed; `clamp`: back from a state of a clamped set.
//! - `passage`: over a place at which a test is met, or isn't.
//! - `laws`: fillings are walks, and hours are joined.
//!
//! A gap gets at most sixteen letters. Tenths are tenths of a second from the window's start.
#![tactic(auto)]

mod back;
mod clamp;
mod laws;
mod onward;
mod passage;
mod pasts;

pub use back::walk_source;
pub use clamp::clamped_source;
pub use laws::{alike_goes_on, fillings_are_walks, hours_join};
pub use onward::walk_end;
pub use passage::{Passage, Passing, passage_source, passage_state};
