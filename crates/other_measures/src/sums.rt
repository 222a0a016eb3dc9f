// The numbers of a pedestrian signal, of a preempt and of the coordination.
ghost use Rattle.std.specs.Prelude.{◌≡◌, slice_index_or, ◌<◌, ℕ};
ghost use Rattle.hour_sweep.specs.Sums.{capped};
ghost use Rattle.other_measures.specs.Sums.{coord_added, ped_added, preempt_added};

use hour_sweep::{Sum, greatest_of, total};

/// The numbers of one pedestrian signal. Adding stops at the last value of a u64, which no report
/// reaches.
#[derive(Clone, Copy, Debug, PartialEq, Eq)]
pub struct PedSum {
    pub walks: u64,
    /// The walks of whose delay all tenths are known.
    pub delays: u64,
    /// Of all delays, in tenths of a second.
    pub sum: u64,
    /// The longest delay, in tenths of a second; `None` where there is none.
    pub greatest: Option<u32>,
    /// The walks that no call came before.
    pub uncalled: u64,
    /// The walks without an earlier one since which every tenth is known.
    pub partial: u64,
    /// The known tenths at whose end the detector is on in all histories.
    pub detector_on: u64,
    /// The known tenths at whose end it is neither on in all histories nor off in all of them.
    pub detector_undecided: u64,
}

/// The numbers of one preempt. Times are in tenths of a second. Adding stops at the last value of a
/// u64, which no report reaches.
#[derive(Clone, Copy, Debug, PartialEq, Eq)]
pub struct PreemptSum {
    pub entries: u64,
    /// The entries whose call is known.
    pub delays: u64,
    pub sum: u64,
    /// The entries before which no call is known since the last entry, also where there was none.
    pub partial: u64,
    /// The exits that a dwell came before.
    pub dwells: u64,
    pub dwell_sum: u64,
    /// The exits without an earlier entry or exit since which every tenth is known.
    pub dwell_partial: u64,
    /// The known tenths at whose end the call input is on in all histories.
    pub input_on: u64,
    pub input_undecided: u64,
    /// The known tenths at whose end the service is in this state in all histories.
    pub rest: u64,
    pub entry: u64,
    pub track: u64,
    pub dwell: u64,
    pub undecided: u64,
}

/// The numbers of the coordination, all 0 where it isn't on. Adding stops at the last value of a
/// u64, which no report reaches.
#[derive(Clone, Copy, Debug, PartialEq, Eq)]
pub struct CoordSum {
    /// The known tenths at whose end it is in each state in all histories.
    pub tenths: [u64; 7],
    pub undecided: u64,
    /// The rows of code 131, 132, 151 and 152, whatever their parameter.
    pub patterns: u64,
    pub cycle_changes: u64,
    pub yields: u64,
    pub begins: u64,
}

impl Sum for PedSum {
    ghost both = { ped_added };

    /// The numbers of both: sums add, and the greatest is the greatest of both.
    fn sum(&self, other: &PedSum) -> PedSum {
        PedSum {
            walks: total(self.walks, other.walks),
            delays: total(self.delays, other.delays),
            sum: total(self.sum, other.sum),
            greatest: greatest_of(self.greatest, other.greatest),
            uncalled: total(self.uncalled, other.uncalled),
            partial: total(self.partial, other.partial),
            detector_on: total(self.detector_on, other.detector_on),
            detector_undecided: total(self.detector_undecided, other.detector_undecided),
        }
    }
}

impl Sum for PreemptSum {
    ghost both = { preempt_added };

    /// The numbers of both.
    fn sum(&self, other: &PreemptSum) -> PreemptSum {
        PreemptSum {
            entries: total(self.entries, other.entries),
            delays: total(self.delays, other.delays),
            sum: total(self.sum, other.sum),
            partial: total(self.partial, other.partial),
            dwells: total(self.dwells, other.dwells),
            dwell_sum: total(self.dwell_sum, other.dwell_sum),
            dwell_partial: total(self.dwell_partial, other.dwell_partial),
            input_on: total(self.input_on, other.input_on),
            input_undecided: total(self.input_undecided, other.input_undecided),
            rest: total(self.rest, other.rest),
            entry: total(self.entry, other.entry),
            track: total(self.track, other.track),
            dwell: total(self.dwell, other.dwell),
            undecided: total(self.undecided, other.undecided),
        }
    }
}

impl Sum for CoordSum {
    ghost both = { coord_added };

    /// The numbers of both.
    fn sum(&self, other: &CoordSum) -> CoordSum {
        let a = &self.tenths;
        let b = &other.tenths;
        CoordSum {
            tenths: [
                total(a[0], b[0]),
                total(a[1], b[1]),
                total(a[2], b[2]),
                total(a[3], b[3]),
                total(a[4], b[4]),
                total(a[5], b[5]),
                total(a[6], b[6]),
            ],
            undecided: total(self.undecided, other.undecided),
            patterns: total(self.patterns, other.patterns),
            cycle_changes: total(self.cycle_changes, other.cycle_changes),
            yields: total(self.yields, other.yields),
            begins: total(self.begins, other.begins),
        }
    }
}
