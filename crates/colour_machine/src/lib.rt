//! Machines of colours: which letter is legal in which colour, where it leads, and how old a
//! colour must be before it may be left. A phase, a pedestrian signal, an overlap, a detector, a
//! preempt and the coordination are each such a machine, so what is proved here for every machine
//! holds for each of them.
//!
//! A colour's floor, the least age at which it may be left, is in tenths of a second. The search
//! over changes of colour leaves floors aside.
#![tactic(auto)]

mod after;
mod machine;
mod mask;

pub use after::{after_any, with_change};
pub use machine::Machine;
pub use mask::Mask;
