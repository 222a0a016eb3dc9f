//! How many vehicles would have met green, had they come some seconds later in their cycles.
//! Whoever retimes a corridor asks for it: a shift of the offset moves the whole platoon.
//!
//! `shift_counts` has the count for every shift, and `Shifts::best` names the least shift that no
//! other exceeds; the list of counts is what proves it.
#![tactic(auto)]

mod arrival;
mod search;
mod shifts;
mod steps;

pub use arrival::Arrival;
pub use search::shift_counts;
pub use shifts::Shifts;
