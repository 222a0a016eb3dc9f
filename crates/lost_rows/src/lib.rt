//! How many rows of a signal's log would have to be lost for a broken line to be false: the least
//! number with which some history keeps the line's rule at its place.
//!
//! A row can be lost at a known tenth alone; at other tenths anything may have been, and nothing is
//! lost there. Tenths count from the window's start.
#![tactic(auto)]

mod aheads;
mod asked;
mod clamp;
mod decision;
mod explain;
mod line;
mod pasts;
mod start;
mod still;

pub use aheads::{LostAheads, walk_aheads};
pub use asked::Asked;
pub use clamp::{hours_are_one, older_is_alike};
pub use decision::decide;
pub use explain::lost_at;
pub use line::{LinePlace, LineRule, Lost, RuleWalk};
pub use pasts::{LostPasts, walk_pasts};
pub use still::{Still, put_ahead, put_past};
