//! What the log of one signal over its whole window means.
//!
//! A history gives each channel a state before the window and each tenth of the window a list of
//! events. It agrees with the log where no event is illegal for its channel and each known tenth
//! has exactly the events of its rows, in order. Where no history agrees, the log contradicts
//! itself at one row: the first with which, the later rows left out, none agrees.
//!
//! An hour point stands before an hour's first tenth, or at the window's end. From one point to the
//! next go the states of each channel, and back the states that can still be completed; between two
//! points the view of one hour says what the histories of the whole window say.
#![tactic(auto)]

mod again;
mod aheads;
mod laws;
mod pasts;
mod place;

pub use again::{aheads_over_again, pasts_over_again};
pub use aheads::{aheads_before, aheads_over, aheads_through};
pub use laws::{
    alike_meet_same, channels_combine, hours_tell, less_is_known, nothing_contradicts,
    only_what_comes_up_counts, points_at_both_ends, points_see_one_side, some_history_agrees,
};
pub use pasts::{pasts_after, pasts_over, pasts_through};
pub use place::Place;
