//! Laws of the sums that measures are: the verdicts of services, and those of arrivals, add up, and
//! their totals over the hours of a report are those of the whole log; none of them stands still at
//! the last value of a u64. And laws of the green of cycles, which the rows alone tell.
//!
//! Each law is the contract of a function that does nothing.
#![tactic(auto)]

mod laws;

pub use laws::{
    arrival_totals_are_of_the_log, arrivals_add_up, green_is_of_all_histories,
    open_cycles_show_green, parts_are_one, rule_totals_are_of_the_log, split_totals_are_of_the_log,
    splits_add_up, state_totals_are_of_the_log, sums_are_plain, sums_keep_adding_up,
};
