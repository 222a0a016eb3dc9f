//! What one machine may have done where the log has a hole: the states that are possible after a
//! row and after a gap, those from which what comes later can still be met, and whether a test
//! holds in all, none or some of the states that are both.
//!
//! A state is a colour and the tenth at which it was entered; its age at a tenth is that tenth
//! minus the entry. Tenths count from the window's start, and lie within -2^39 and 2^39.
#![tactic(auto)]

mod ahead;
mod before_gap;
mod before_holes;
mod before_keep;
mod before_row;
mod gap;
mod holes;
mod keep;
mod past;
mod put;
mod row;
mod run;
mod seen;
mod sets;
mod sure;

pub use ahead::Ahead;
pub use before_gap::ahead_gap;
pub use before_holes::{ahead_holes, ahead_in, places_are_gaps};
pub use before_keep::ahead_meet;
pub use before_row::ahead_row;
pub use gap::{arrivals, leaves, past_gap, relax};
pub use holes::{holes_are_gaps, past_holes};
pub use keep::{past_is_some, past_keep, past_only};
pub use past::{Past, Single};
pub use put::{Times, ahead_raise, past_leave, past_put};
pub use row::{past_row, row_single};
pub use run::past_run;
pub use seen::{AgeBound, Seen, Test, is_sure, possible};
pub use sure::{seen_alone, single_goes_on};
