//! The demonstration of so many hours: a configuration, an hour file for each hour and a script,
//! made of two sequences of draws and of nothing else. `docs/FORMATS.md` has their form.
#![tactic(auto)]

mod demo;
mod order;
mod records;
mod rows;
mod script;

pub use demo::Demo;
