//! Ways through the tenths that aren't known, for one machine: from a state after a gap or a row
//! back to one before it, with the letters of the gap that lead from the one to the other.
//!
//! - `states`: a state, and a letter at a tenth of a gap.
//! - `ask`: what is asked of the possible states; `narrow`: some of them taken out.
//! - `rounds`: by which tenths the colours can be entered in a gap, round by round.
//! - `edges`: changes of colour; `gap` and `row`: the way back over a gap and over a row.
//! - `choose`: a state that answers a test, or that can be completed.
//!
//! Tenths are tenths of a second from the window's start, and lie within -2^39 and 2^39.
#![tactic(auto)]

mod ask;
mod choose;
mod edges;
mod gap;
mod narrow;
mod rounds;
mod row;
mod states;

pub use ask::entry_by;
pub use choose::{admitted_state, possible_state};
pub use gap::gap_source;
pub use narrow::only_state;
pub use row::row_source;
pub use states::{Entered, Fill};
