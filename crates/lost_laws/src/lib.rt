//! Laws of lost rows: what the histories of which rows were lost say of a broken line, channel by
//! channel.
//!
//! Each law is the contract of a function that does nothing, and nothing stands on the crate.
#![tactic(auto)]

mod laws;

pub use laws::{
    channels_walk, less_needs_no_more, needs_are_of_channels, none_lost_is_agreement,
    one_channel_is_enough, other_rows_need_not_be_lost, parts_tell_the_number,
    sturdy_clauses_hold_none, sturdy_intervals_are_broken, the_window_tells_the_number,
};
