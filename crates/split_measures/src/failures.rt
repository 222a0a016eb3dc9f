// How many services have which verdict.
ghost use Rattle.std.specs.Prelude.{◌≡◌, ◌<◌, ◌^◌, [], ◌∷◌};
ghost use Rattle.split_measures.specs.Failures.{both_sums, is_verdict, split_sum_of};
ghost use Rattle.hour_sweep.specs.Sums.{one_if};
ghost use Rattle.split_measures.specs.Verdicts.{verdicts_by};

use crate::verdict::{SplitVerdict, windows_verdict};
use hour_sweep::{Sum, total};
use sig_base::Frac;
use stop_bar::Windows;

/// How many services of an approach's phase have which verdict at its stop bar's detector. Adding
/// stops at the last value of a u64, which no report reaches.
#[derive(Clone, Copy, Debug, PartialEq, Eq)]
pub struct SplitSum {
    pub fail: u64,
    pub pass: u64,
    pub undecided: u64,
    /// The services whose red window isn't over at the window's end.
    pub left_open: u64,
    /// The services at which the detector is sure to have had a fault.
    pub fault: u64,
}

impl Sum for SplitSum {
    ghost both = { both_sums };

    fn sum(&self, other: &SplitSum) -> SplitSum {
        SplitSum {
            fail: total(self.fail, other.fail),
            pass: total(self.pass, other.pass),
            undecided: total(self.undecided, other.undecided),
            left_open: total(self.left_open, other.left_open),
            fault: total(self.fault, other.fault),
        }
    }
}

// The numbers of no verdict.
#[tactic(auto, unfolding(crate::specs::Failures::split_sum_of, hour_sweep::specs::Sums::capped))]
pub(crate) fn no_verdict() -> SplitSum
    ensures { result ≡ split_sum_of [] }
{
    SplitSum {
        fail: 0,
        pass: 0,
        undecided: 0,
        left_open: 0,
        fault: 0,
    }
}

// 1 where the verdict is this one, else 0.
fn is_verdict(asked: SplitVerdict, verdict: SplitVerdict) -> u64
    ensures { result ≡ one_if (is_verdict asked verdict) }
{
    if verdict == asked { 1 } else { 0 }
}

// The numbers of one verdict.
fn of_verdict(verdict: SplitVerdict) -> SplitSum
    ensures { result ≡ split_sum_of (verdict ∷ []) }
{
    SplitSum {
        fail: is_verdict(SplitVerdict::Fail, verdict),
        pass: is_verdict(SplitVerdict::Pass, verdict),
        undecided: is_verdict(SplitVerdict::Undecided, verdict),
        left_open: is_verdict(SplitVerdict::Open, verdict),
        fault: is_verdict(SplitVerdict::Fault, verdict),
    }
}

/// How many of the services, whose windows are over, have which verdict; none of them is open.
pub fn verdict_sum(windows: &[Windows], high: &Frac) -> SplitSum
    requires num { high.now.num < 2 ^ 32 }
    requires den { high.now.den < 2 ^ 32 }
    ensures { result ≡ split_sum_of (verdicts_by high.now windows.now) }
{
    let mut sum = no_verdict();
    for one in windows {
        sum = sum.sum(&of_verdict(windows_verdict(one, high)));
    }
    sum
}
