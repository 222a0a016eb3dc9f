// The numbers of one approach.
ghost use Rattle.std.specs.Prelude.{◌≡◌};
ghost use Rattle.arrival_measures.specs.Hours.{added};

use hour_sweep::{Sum, total};

/// The numbers of one approach. Those up to `cycle_tenths` are 0 where it has no advance detector,
/// the others where it has no stop bar detector. Times are in tenths of a second. Adding stops at
/// the last value of a u64, which no report reaches.
#[derive(Clone, Copy, Debug, PartialEq, Eq)]
pub struct ArrivalSum {
    /// The arrivals whose arrival tenth is one of the hour; in the window's last hour also those at a
    /// later one.
    pub arrivals: u64,
    /// The arrivals at whose arrival tenth's end the phase is green in all histories.
    pub green: u64,
    /// Those at whose tenth's end it is green in none.
    pub not_green: u64,
    /// Those at whose tenth's end it is green only in some.
    pub undecided: u64,
    /// Those whose arrival tenth isn't known, or is past the window.
    pub unseen: u64,
    /// The rows at which the advance detector goes on while it is sure to have a fault.
    pub fault: u64,
    /// The arrivals of known rows in whole cycles. One whose row lies before the cycle, at an unknown
    /// tenth, is missing.
    pub cycle_arrivals: u64,
    /// Those of them at whose arrival tenth's end the phase is green.
    pub cycle_green: u64,
    /// The tenths of whole cycles at whose end the phase is green.
    pub green_tenths: u64,
    /// The lengths of all whole cycles.
    pub cycle_tenths: u64,
    pub actuations: u64,
    /// The actuations at whose tenth's end the phase is Red, YellowDone, Clear or ClearDone in all
    /// histories; On isn't counted as red.
    pub red: u64,
    /// Those at whose tenth's end it is so in none.
    pub not_red: u64,
    /// Those at whose tenth's end it is so only in some.
    pub red_undecided: u64,
    /// The rows at which the stop bar detector goes on while it is sure to have a fault.
    pub red_fault: u64,
}

impl Sum for ArrivalSum {
    ghost both = { added };

    /// The numbers of both.
    fn sum(&self, other: &ArrivalSum) -> ArrivalSum {
        ArrivalSum {
            arrivals: total(self.arrivals, other.arrivals),
            green: total(self.green, other.green),
            not_green: total(self.not_green, other.not_green),
            undecided: total(self.undecided, other.undecided),
            unseen: total(self.unseen, other.unseen),
            fault: total(self.fault, other.fault),
            cycle_arrivals: total(self.cycle_arrivals, other.cycle_arrivals),
            cycle_green: total(self.cycle_green, other.cycle_green),
            green_tenths: total(self.green_tenths, other.green_tenths),
            cycle_tenths: total(self.cycle_tenths, other.cycle_tenths),
            actuations: total(self.actuations, other.actuations),
            red: total(self.red, other.red),
            not_red: total(self.not_red, other.not_red),
            red_undecided: total(self.red_undecided, other.red_undecided),
            red_fault: total(self.red_fault, other.red_fault),
        }
    }
}
