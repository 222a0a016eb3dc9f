//! Runs of a rule's channels through the tenths that aren't known, each with the events that fill
//! them: what keeps a rule at a line of an audit, and what breaks it.
//!
//! A strand is one channel's start before the window and its events at unknown tenths. With the
//! known rows they are legal for the channel from its start to the window's end.
//!
//! - `strands`: fills, strands and pairs of strands, as lists.
//! - `step`: one event of a channel; `walk`: rows with fills between them; `hours`: the whole
//!   window, with the state at a line's place noted on the way.
//! - `stands`: one strand; `channels`: one for each channel of a rule; `keeps`: what a rule says of
//!   a channel's state.
//! - `asks`: what is asked of the channels, and strands that answer; `pair`: the call that finds
//!   strands of both kinds.
//! - `check`: the call that judges strands. `laws`: what holds of every log.
//!
//! Tenths are tenths of a second from the window's start.
#![tactic(auto)]

mod asks;
mod channels;
mod check;
mod hours;
mod keeps;
mod laws;
mod pair;
mod stands;
mod step;
mod strands;
mod walk;

pub use check::check_strands;
pub use laws::{kept_by_states, obligations_have_lines, strands_are_of_history};
pub use pair::find_pair;
pub use strands::{Fill, Fills, Pair, Pairs, Strand, Strands};
