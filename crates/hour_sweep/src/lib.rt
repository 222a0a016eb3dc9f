//! One pass over an hour, for any measure of it, or for two at once: the hour's known rows in order,
//! and its gaps.
//!
//! A measure says what a row and a gap make of what it keeps (`Watch`). One that keeps a part for
//! each of some numbers, as phases or pedestrian signals have, says it for one part (`Track`), and
//! a row of the log then reaches the part of its parameter alone, however many there are.
//!
//! Measures are numbers that are added over rows, over hours and over the whole log: `sums` and `each`
//! have counts and sums that stand still at the last value of a u64, the least and the greatest.
#![tactic(auto)]

mod both;
mod each;
mod sums;
mod track;
mod watch;

pub use both::{Both, sweep_both};
pub use each::{Sum, add_each};
pub use sums::{greatest_of, least_of, total};
pub use track::{Track, Tracked, track_hour, tracked_of};
pub use watch::{Watch, sweep};
