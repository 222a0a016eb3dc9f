//! Which colours a channel has at the end of each tenth of an hour, and for how long.
//!
//! - `state_count`: how many known tenths there are at whose end a channel has a colour in all
//!   histories that agree with the log, and at whose end no colour is certain. What holds at the end
//!   of a tenth changes only at a row of the channel and at a gap, so whole ranges between two of
//!   these are counted at once.
//! - `free_laws`: a detector, a pedestrian detector and a preempt input take every row in every
//!   colour. So the states of such a channel at a tenth follow from what came before, whatever comes
//!   after. Its colours have an order that no row turns round, so that one agreeing history has it on
//!   at the fewest tenths of all ranges at once, and one at the most.
//! - `hour`, `count`: an hour of such a channel is cut into ranges, each with the set of the colours
//!   that are possible at the ends of its tenths. `least_on` counts the tenths at which it can't be
//!   else than on, `greatest_on` those at which it may be on; `sure_fault` asks for a tenth at which a
//!   detector can't be else than in a fault.
//! - `tenths`: `OnTenths` adds these up over ranges that cross hours. All of it says what is reached by
//!   the tenths so far, so it stays true whatever is known of later ones.
#![tactic(auto)]

mod asked;
mod colours;
mod count;
mod free_laws;
mod hour;
mod laws;
mod part;
mod state_asked;
mod state_count;
mod tenths;

pub use count::{greatest_on, least_on, sure_fault};
pub use free_laws::{
    colours_stay, colours_tell, extremes, look_back, look_back_among_rows, numbers_are_one,
    numbers_bound, numbers_reached, numbers_stay, stores_tell, tables_are_ordered,
};
pub use hour::{switched, switched_along};
pub use laws::{hours_fit, switches_are_ordered};
pub use part::Switched;
pub use state_asked::Asked;
pub use state_count::tenths_of;
pub use tenths::OnTenths;
