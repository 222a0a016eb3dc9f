//! The audit rules of a configuration, and what an hour of the log says of them.
//!
//! A rule is an interval, a conflict of two phases, a companion of a pedestrian signal or the
//! parents of an overlap. At certain places of the hour it is to be judged: kept where all histories
//! that agree with the log keep it, broken where none does, undecided where only some do.
//!
//! - `rules`: the rules with their numbers; `terms`: the clauses that they say.
//! - `lines`: what an audit answers.
//! - `interval`: the verdict of an interval rule before a row; `due`: the channels that a row is of;
//!   `tenth`: all verdicts of one tenth; `next`: which clause comes next at its end.
//! - `index`: the rules by channel; `owners`: of which channel each row is.
//! - `hour`, `walk`, `audit`: the pass over the tenths of an hour, and the call.
//! - `laws`: each rule is of the channels that it names.
//!
//! Tenths are tenths of a second from the window's start.
#![tactic(auto)]

mod audit;
mod due;
mod hour;
mod index;
mod interval;
mod laws;
mod lines;
mod next;
mod owners;
mod rules;
mod tenth;
mod terms;
mod walk;

pub use audit::audit_rows;
pub use laws::rules_are_of_their_channels;
pub use lines::{AuditLine, Place};
pub use rules::{Rule, rules_of};
