//! An hour cut into the stretches of tenths that are known and those that are not. A tenth is
//! known where its hour is held and it isn't blanked.
#![tactic(auto)]

mod stretch;

pub use stretch::{Stretch, first_of, stretches};
