//! Laws of numbers and stamps: which texts of a log file are read as which number and as which
//! tenth, in the words and with the numbers of the format.
//!
//! Each law is the contract of a function that does nothing. `docs/FORMATS.md` has the format.
#![tactic(auto)]

mod laws;

pub use laws::{dates_are_read, hours_are_read, numbers_are_read, stamps_are_read, times_are_read};
