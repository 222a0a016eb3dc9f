//! The configuration of one signal, read from TOML: the hours that are looked at, the phases with
//! ring and side, pedestrian signals, overlaps, preempts, conflicts, floors, interval rules and
//! approaches.
//!
//! A text is accepted with exactly the configuration that it describes, or refused with the first
//! thing that is wrong in it and the place of that: tables in their order, entries one by one, keys
//! in their order, and repetitions last. Each table is described once, as its keys and what a good
//! value of each is; one walk reads them all.
//!
//! It has two halves. `format` reads the file, table by table. `config` is what was read, with its
//! questions: its tracked channels with their floors (`channels`), and its approaches by name
//! (`named`). Both speak of `items`, the entries of the tables, and a refusal is an `error` with its
//! place. `read` is the call that joins them.
#![tactic(auto)]

mod channels;
mod config;
mod error;
mod format;
mod items;
mod named;
mod read;

pub use config::Config;
pub use error::{ConfigError, KeyAt, KeyName, TableName};
pub use items::{Approach, IntervalItem, Name, OverlapItem};
pub use read::read_config;
