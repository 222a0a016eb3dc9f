//! Laws of delays: how long pedestrians waited for a walk and a preempt for its entry, and how
//! long it dwelt, in terms of rows and of tenths.
//!
//! Each law is the contract of a function that does nothing, and nothing stands on the crate.
#![tactic(auto)]

mod laws;

pub use laws::{delays_are_whole, events_are_whole};
