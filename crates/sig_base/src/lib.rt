//! What every crate of sigaudit speaks of: the window of hours and its tenths of a second, the
//! rows of one hour, the counts of how often each hour's rows were handed out, and a few small
//! values that layers hand to one another.
//!
//! A tenth is counted from the start of the window; hour `h` has the tenths `36000 * h` to
//! `36000 * h + 35999`.
#![tactic(auto)]

mod hour_rows;
mod memory;
mod numbers;
mod reads;
mod stamp;
mod values;
mod window;

pub use hour_rows::HourRows;
pub use memory::NoMemory;
pub use numbers::{has_number, has_phase};
pub use reads::Reads;
pub use values::{Applied, EditError, Frac, Hour, PhaseItem, Row, Tenth, Verdict};
pub use window::Window;
