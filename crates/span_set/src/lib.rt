//! Sets of tenths of a second, kept as sorted ranges that neither overlap nor touch: the blanked
//! tenths of a log, or the tenths at which a machine may have entered a colour.
//!
//! All tenths lie within -2^40 and 2^40. Tenths before the window are negative.
#![tactic(auto)]

mod change;
mod search;
mod set;

pub use set::{Span, SpanSet};
