//! Vehicles that come while a phase is green or red: arrivals at advance detectors, actuations of
//! stop bar detectors, and the arrivals of whole cycles for the platoon ratio and for diagrams.
//!
//! An arrival or an actuation is a known row 82 of the detector, but not while the detector is sure
//! to have a fault. It is judged by what its phase shows at the end of its tenth: in all histories
//! that agree with the log, in none, or only in some. The tenth of an arrival is later than its row
//! by the travel time to the stop bar, so it may be one of a later hour; those that are on their way
//! at a point between hours are carried over it. In a whole cycle the rows alone say what the phase
//! shows, so what a cycle gives is added up row by row and carried over the points too.
//! For diagrams the view of the hour says which rows are arrivals; for the numbers the detector's own
//! rows do.
//!
//! What a cycle gives is an `Open`: the vehicles that come in it, those of them that come while the
//! phase is green, and how long it is green. It is added to range by range, in whichever hours the
//! cycle lies.
//!
//! An approach goes over its own rows alone: one pass puts the rows of an hour into chains, from
//! each row of a phase or of a detector to the next one.
//!
//! What crosses the point after an hour is had without the hour's numbers too: of an approach only
//! the rows since its open cycle began are gone over, and where no detector can have a fault each
//! known row at which one goes on is an arrival.
#![tactic(auto)]

mod ahead;
mod approach;
mod arrivals;
mod carry;
mod carry_over;
mod chains;
mod cycles;
mod faults;
mod hour;
mod in_tenth;
mod judged;
mod laws;
mod open;
mod points;
mod same;
mod sources;
mod sums;
mod under_way;

pub use arrivals::arrival_points;
pub use carry::ArrivalCarry;
pub use carry_over::arrivals_carried;
pub use hour::{ArrivalSums, arrivals_hour, arrivals_unseen};
pub use laws::diagrams_fit;
pub use open::Open;
pub use points::{Diagram, Point, Points, diagrams};
pub use sums::ArrivalSum;
