// How often a channel was on, over ranges of several hours.
ghost use Rattle.std.specs.Prelude.{ℕ};
ghost use Rattle.signal_log.specs.Log.{Log};
ghost use Rattle.detector_state.specs.Hours.{AreTenths, GoesOn};

use crate::count::{ending_after, fault_among, greatest_among, least_among};
use crate::part::Switched;

/// Of a range of tenths: at how many the channel was sure to be on, at how many it may have been,
/// and whether it was sure at one of them that the detector has a fault.
#[derive(Clone, Copy, Debug, PartialEq, Eq)]
pub struct OnTenths {
    pub least: u32,
    pub greatest: u32,
    pub fault: bool,
}

impl OnTenths {
    /// Those of no tenths.
    pub fn none() -> OnTenths
        ensures { (log : Log) (i a : ℕ) → AreTenths log i a a result }
    {
        OnTenths {
            least: 0,
            greatest: 0,
            fault: false,
        }
    }

    /// Those of a range that goes on, in this hour, from tenth `from` up to tenth `to`.
    pub fn on(self, switched: &Switched, from: u32, to: u32) -> OnTenths
        ensures { GoesOn switched.now from to self result }
    {
        let parts = ending_after(switched.parts(), from);
        OnTenths {
            least: self.least.saturating_add(least_among(parts, from, to)),
            greatest: self
                .greatest
                .saturating_add(greatest_among(parts, from, to)),
            fault: self.fault || fault_among(parts, from, to),
        }
    }
}
