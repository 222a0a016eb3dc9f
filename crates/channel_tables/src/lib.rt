//! The machines of the channels: for each kind of channel its table of colours and letters, the
//! floors of a channel, the letter that a row of the log is, and the names of the colours.
//!
//! The tables stand in `specs/`, each in a file of its own, by the codes of the log; each machine's
//! `step` is proved equal to its table. Floors are in tenths of a second.
#![tactic(auto)]

mod any;
mod coordination;
mod detector;
mod letters;
mod names;
mod overlap;
mod ped;
mod phase;
mod preempt;
mod spec;
mod switch;

pub use any::{AnyMachine, machine_of, same_machine};
pub use coordination::CoordMachine;
pub use detector::DetectorMachine;
pub use letters::{letter_of, letter_of_kind};
pub use names::{colour_name, colour_named};
pub use overlap::OverlapMachine;
pub use ped::PedMachine;
pub use phase::PhaseMachine;
pub use preempt::PreemptMachine;
pub use spec::Spec;
pub use switch::SwitchMachine;
