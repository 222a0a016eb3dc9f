//! Laws of log files: which records give which rows, and which record is refused for what.
//!
//! Each law is the contract of a function that does nothing, and nothing stands on the crate.
//! `docs/FORMATS.md` has the format.
#![tactic(auto)]

mod laws;

pub use laws::{
    fields_are_trimmed, first_refusal_decides, records_are_refused, records_are_rows,
    records_give_rows,
};
