//! Pedestrian delays, preempt delays and dwells, how long pedestrian detectors, preempts and the
//! coordination were in each state, and the rows of the coordination, of one hour.
//!
//! A delay or a dwell counts in the hour of its last row, so the numbers of a log are the sums of
//! its hours' numbers. Where a tenth between its rows isn't known it is partial. What crosses the
//! points between hours is kept in an `OtherCarry`.
#![tactic(auto)]

mod carry;
mod coordination_sums;
mod hour;
mod last_rows;
mod laws;
mod ped_sums;
mod peds;
mod preempt_sums;
mod preempts;
mod same;
mod states;
mod sums;

pub use carry::OtherCarry;
pub use hour::{OtherSums, others_hour, others_unseen};
pub use laws::{hours_add_up, numbers_add_up};
pub use sums::{CoordSum, PedSum, PreemptSum};
