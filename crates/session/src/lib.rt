//! A session over the log of one signal: edits that load, replace and withdraw hours or blank and
//! unblank tenths, and the report of what is held, which is exact at every moment.
//!
//! An edit is made whole, or it is refused and the session is as before. One that is made answers
//! the hours that it moves: only their numbers and verdicts can be others than before. The stretch
//! that decides a broken line of another hour can be another too, where it reaches into these.
//!
//! A `Draft` makes the same edits where nobody asks for numbers between them: those of the hours
//! that change wait until they are asked for.
#![tactic(auto)]

mod audit;
mod backward;
mod begin;
mod blanks;
mod draft;
mod edit;
mod forward;
mod hours;
mod marks;
mod pairs;
mod points;
mod renew;
mod session;
mod settle;
mod steps;

pub use draft::Draft;
pub use edit::Edit;
pub use session::Session;
