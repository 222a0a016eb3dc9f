//! Laws of configurations: which files are accepted, in the words and with the numbers of the
//! format, and that these are exactly the files that the definition of a configuration accepts.
//!
//! Each law is the contract of a function that does nothing. `docs/FORMATS.md` has the format.
#![tactic(auto)]

mod laws;

pub use laws::{configurations_are_accepted, first_table_decides, tables_are_accepted};
