//! Services and cycles of phases, cut hour by hour.
//!
//! A whole service of a phase is its green and what ends it: the begin of green, the first end of
//! green, the first begin of yellow, and the first end of yellow after that, with no other begin
//! of green between and every tenth between known. A whole cycle runs from one end of yellow to
//! the next. Both may cross the points between hours: what is under way at a point is kept in a
//! `CutCarry`, and each service and cycle is listed in the hour of its last row. The four rows of
//! each service are listed beside it: those whose red window isn't over at a point cross it too,
//! as `Closing`.
#![tactic(auto)]

mod carry;
mod closing;
mod cycles;
mod endings;
mod hour;
mod items;
mod laws;
mod parts;
mod same;
mod services;
mod signs;

pub use carry::CutCarry;
pub use closing::Closing;
pub use hour::{Cuts, cut_hour};
pub use items::{Cycle, OpenCycle, OpenService, Served, Service, Termination};
pub use laws::{
    closing_is_of_the_hour, cycles_are_whole, cycles_fit, hours_add_up, hours_count,
    served_are_services, services_are_whole,
};
