//! Laws of the lines of a script: what each says, by its words.
//!
//! Each law is the contract of a function that does nothing, and nothing stands on the crate.
#![tactic(auto)]

mod laws;

pub use laws::lines_are_said;
