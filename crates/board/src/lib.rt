//! All channels of one hour: the states after it and those before it, and what each known place of
//! it says of a test or of a clause, over all histories that agree with the log.
//!
//! A history gives each channel a state before the hour and each tenth a list of events. It agrees
//! with the log where no event is illegal for its channel and each known tenth has exactly the
//! events of its rows, in order. The rows are cut into each channel's own moves once; all else goes
//! one channel at a time.
//!
//! Tenths are tenths of a second from the window's start.
#![tactic(auto)]

mod about;
mod again;
mod aheads;
mod between;
mod clause;
mod courses;
mod finder;
mod marks;
mod meeting;
mod pasts;
mod repeat;
mod slice_view;
mod spec_table;
mod view;

pub use about::About;
pub use again::{aheads_again, pasts_again};
pub use aheads::{Aheads, aheads_along, aheads_hour};
pub use between::aheads_between;
pub use clause::{Clause, Term, clause_verdict, clause_verdict_from, has_spec};
pub use courses::{Course, Courses, count_before, courses_of};
pub use pasts::{Pasts, PastsError, pasts_along, pasts_hour};
pub use spec_table::SpecTable;
pub use view::HourView;
