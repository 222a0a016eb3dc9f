//! Laws of edits: what each makes of a store, in terms of hours and of tenths, what it is refused
//! for, and what is known after it.
//!
//! Each law is the contract of a function that does nothing, and nothing stands on the crate.
#![tactic(auto)]

mod laws;

pub use laws::{edits_make_stores, knowledge_moves, refusals_in_order};
