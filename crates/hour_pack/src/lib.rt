//! The rows of one hour as bytes, for archives: small, read without a date parser, and with one
//! spelling alone, so that two archives can be compared byte for byte.
//!
//! A number is one to three bytes of seven bits each, the lowest first: every byte but the last is
//! at least 0x80, the last is less, and isn't 0 unless it is alone. A packed hour of a signal and
//! an hour is, in this order:
//!
//! | Part | Bytes |
//! |---|---|
//! | mark | 00 53 47 50 |
//! | signal | one byte with the length of the signal's identifier, then the identifier |
//! | hour | the 13 bytes `YYYY-MM-DDTHH` of the hour's first tenth |
//! | count | four bytes, the highest first, at most 400,000 |
//! | row | a number, the tenths since the row before or the hour's start |
//! | | one byte, the code |
//! | | a number, the parameter |
//! | .. | and so on, for each row |
//!
//! The rows lie in the hour, parameters are at most 65,535, no row is a repeat, and nothing
//! follows the last row.
#![tactic(auto)]

mod head;
mod laws;
mod number;
mod pack_error;
mod packing;
mod repeats;
mod row;
mod unpacking;

pub use laws::{
    cuts_are_short, faults_have_causes, none_begins_another, numbers_have_one_spelling,
    outer_faults, reading_is_exact,
};
pub use pack_error::PackError;
pub use packing::pack;
pub use repeats::has_repeat;
pub use unpacking::unpack;
