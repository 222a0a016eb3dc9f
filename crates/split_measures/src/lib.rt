//! The split monitor, and split failures: of each phase the numbers of an hour's whole services and
//! whole cycles, and whether a service is a split failure.
//!
//! A split is what a whole service takes, from the begin of green to the end of yellow, in tenths
//! of a second. A service or a cycle counts in the hour of its last row, so the numbers of a log
//! are the sums of its hours' numbers, a least the least of the leasts and a greatest the greatest.
//!
//! A service is a split failure where its stop bar's detector was on long enough in its green, and
//! in the 50 tenths from the end of its yellow on: demand lasted through the green and was still
//! there after it. Where tenths are unknown, that may be so in some histories only.
#![tactic(auto)]

mod bars;
mod carry;
mod failures;
mod hour;
mod laws;
mod sums;
mod verdict;

pub use carry::SplitCarry;
pub use failures::{SplitSum, verdict_sum};
pub use hour::{SplitSums, splits_hour};
pub use laws::{numbers_add_up, numbers_tell, split_sums_are_one, verdicts_tell};
pub use sums::PhaseSum;
pub use verdict::{SplitVerdict, split_verdict};
