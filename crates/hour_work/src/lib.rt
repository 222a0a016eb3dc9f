//! One hour of the log, forward, backward and summed up.
//!
//! Going over the hours from the window's start, `forward` carries what the hours so far say to the
//! next hour point, or names the row at which the log contradicts itself; with the states of each
//! channel go the services, cycles, stop bars' windows, walks, preempts and arrivals that are under
//! way, and the rows of the services whose red window isn't over. Going back from the window's end,
//! `backward` carries which states can still be completed.
//! Between the two stand the numbers of an hour (`partial`) and the lines of its audit
//! (`audit_lines`), both over all histories of the whole window that agree with the log. A `Report`
//! has the numbers of all hours. `phase_cycles` and `phase_points` list an hour's whole cycles of a
//! phase and its arrivals.
//!
//! Most of these calls have another, `partial_over` and so on, over an hour that is opened already;
//! `work_over` gives what is kept at the point after such an hour and its numbers in one go.
//!
//! `fault_laws` tie what `arrival_measures` tells by the known rows alone to the histories: before a
//! known row a detector is faulty so exactly where it is in a fault in all that agree with the log.
//!
//! A tenth is known where its hour is held and the tenth isn't blanked. Held rows count at blanked
//! tenths too.
#![tactic(auto)]

mod again;
mod carry;
mod counts;
mod fault_laws;
mod hour;
mod laws;
mod lists;
mod measures;
mod numbers;
mod points;
mod reported;
mod seen;
mod steps;
mod stop_bars;
mod work;

pub use again::backward_again;
pub use carry::{Between, Carry, Future};
pub use counts::RuleCount;
pub use fault_laws::{fault_rows_are_sure, faulty_by_states, faulty_is_sure};
pub use hour::{audit_lines, audit_over, partial, partial_over};
pub use laws::{
    cycles_show_green, green_before_yellow, hours_make_up_the_log, points_are_one, reports_are_one,
    totals_are_of_the_log,
};
pub use lists::{pick, put_in};
pub use numbers::Partial;
pub use points::{cycles_over, phase_cycles, phase_points, points_over};
pub use reported::{Report, Sums};
pub use steps::{
    ForwardError, backward, backward_over, backward_through, carry_over, forward, forward_error,
};
pub use work::{Known, Worked, work_over};
