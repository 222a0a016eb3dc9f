//! Audits the high-resolution log of a traffic signal: one run of the program `sigaudit`.
//!
//! `run` does all the work over a shelf of files and a sink of bytes: it reads a configuration and a
//! script, holds the hours that the script loads, and writes what it asks for.
#![tactic(auto)]

mod audit;
mod demo_shelf;
mod file;
mod hour_file;
mod offsets;
mod one_run;
mod pairs;
mod points;
mod purpose;
mod quiet_sink;
mod refused;
mod script;
mod status;
mod words;

pub use one_run::{run, transcripts_are_one};
pub use status::{Status, exit_code};
pub use words::Words;
