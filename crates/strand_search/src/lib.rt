//! One channel's run over a whole window that comes, at a known place, to a state that answers a
//! question: with the letters, as rows at unknown tenths, that lead it there and on to the window's
//! end.
//!
//! - `events`: letters of a channel as rows.
//! - `part`: some tenths with their rows and stretches; `cut`: an hour cut at a place.
//! - `ways`: one channel's ways over moves; `over`: the same over a part, as rows.
//! - `points`: the states at the hour points before the place, and those after it that can be
//!   completed.
//! - `crossing`: the hour of the place; `onward`: the hours after it; `back`: those before it.
//! - `search`: the call. `laws`: letters in the gaps of an hour's moves lead a channel as the same
//!   letters do as rows, tenth by tenth.
//!
//! Tenths are tenths of a second from the window's start.
#![tactic(auto)]

mod back;
mod crossing;
mod cut;
mod events;
mod laws;
mod onward;
mod over;
mod part;
mod points;
mod search;
mod ways;

pub use laws::fillings_agree;
pub use search::{Asked, Found, find_run};
