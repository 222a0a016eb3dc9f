//! What is held of a signal's log: the rows of each hour of the window, and the blanked tenths.
//!
//! A tenth is known where its hour is held and the tenth isn't blanked. Blanked tenths may lie in
//! hours that aren't held; they come into force when the hour is.
#![tactic(auto)]

mod store;

pub use store::HourStore;
