//! The lines of a script and what each of them says. A line is an edit, a report, a line to pass
//! over or a bad line; the rules are those of `docs/FORMATS.md`.
#![tactic(auto)]

mod lines;
mod words;

pub use lines::split_line;
pub use words::{Line, PlainEdit, read_line};
