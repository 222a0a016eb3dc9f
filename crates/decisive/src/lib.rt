//! How little of a log still breaks an obligation: the decisive window of a broken line.
//!
//! The candidates are the line's own tenth, the tenths of known rows of its rule's channels, tenth 0
//! and the window's last tenth. The window ends with the least candidate from the own tenth on up to
//! which the log, from tenth 0 on, breaks the obligation. It begins with the greatest candidate up to
//! the own tenth from which on the log up to that end breaks it.
//!
//! The rows of a line's hour are cut into each channel's moves once for all its lines. The begin is
//! looked for back from the place, with the own tenth as the end, by growing steps and then by
//! halving; only where the hour has none are hours looked at one by one. So a line costs the rows
//! back to where it is decided, and a few tries over the moves between.
//!
//! - `parts`: what a rule asks of each of its channels; it is broken where none of them has such a
//!   state.
//! - `cuts`: a channel's moves cut at a tenth or at a place.
//! - `judge`: whether it is broken over some tenths alone, by the moves of these channels.
//! - `rows`, `search`: the candidates among the rows, and the nearest that will do.
//! - `hours`, `within`: an hour's moves; hour by hour, on from the line's own hour and back from it.
//! - `channel_keep`, `channel_judge`: what the state of one channel at a place between its moves is to
//!   be, and how few of the moves still leave it no such state; `channel_laws`: what holds of all
//!   moves.
//! - `window`: the calls. `laws`: what holds of every log.
//!
//! Tenths are tenths of a second from the window's start.
#![tactic(auto)]

mod channel_judge;
mod channel_keep;
mod channel_laws;
mod cuts;
mod hours;
mod judge;
mod laws;
mod parts;
mod rows;
mod search;
mod window;
mod within;

pub use channel_judge::{is_broken_after, is_broken_from, moves_to_end};
pub use channel_keep::Keep;
pub use channel_laws::end_decides;
pub use hours::HourMoves;
pub use laws::{channel_alone, clause_by_terms, more_is_known, window_is_one};
pub use window::{decisive_window, window_in};
