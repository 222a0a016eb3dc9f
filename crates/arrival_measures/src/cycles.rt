// The numbers of whole cycles, and the cycles that cross the next point.
ghost use Rattle.std.specs.Prelude.{◌≡◌, ◌==◌, find, ◌+◌, ◌++◌, ℕ, Bool, List};
ghost use Rattle.sig_base.specs.declared.values.Row.{Row};
ghost use Rattle.hour_sweep.specs.Sums.{own};
ghost use Rattle.hour_sweep.specs.Rows.{known_rows};
ghost use Rattle.arrival_measures.specs.Cycles.{numbers_of};
ghost use Rattle.arrival_measures.specs.Steps.{AreUnderWay, GiveSame, IsOpenAfter, no_cycle, numbers_in, sum_with};

use crate::open::Open;
use crate::under_way::cycle_given;
use hour_sweep::total;
use service_cut::{Cuts, Cycle, OpenCycle};
use sig_base::Row;

/// What the whole cycles of a phase give for one detector.
#[derive(Clone, Copy)]
pub(crate) struct CycleSum {
    pub(crate) arrivals: u64,
    pub(crate) green: u64,
    pub(crate) green_tenths: u64,
    /// The lengths of the cycles, in tenths.
    pub(crate) tenths: u64,
}

/// Of no cycle.
pub(crate) fn no_cycles() -> CycleSum
    ensures { result ≡ no_cycle }
{
    CycleSum {
        arrivals: 0,
        green: 0,
        green_tenths: 0,
        tenths: 0,
    }
}

impl CycleSum {
    // One cycle more, which gives this.
    fn with(self, cycle: &Cycle, given: Open) -> CycleSum
        ensures { result ≡ sum_with self cycle.now given }
    {
        CycleSum {
            arrivals: total(self.arrivals, given.arrivals),
            green: total(self.green, given.green),
            green_tenths: total(self.green_tenths, u64::from(given.green_tenths)),
            tenths: total(self.tenths, u64::from(cycle.to.saturating_sub(cycle.from))),
        }
    }
}

/// Of the cycles those of the phase, in the hour that has its first tenth here. The rows are the
/// approach's own.
pub(crate) fn cycle_sum(
    phase: u8,
    detector: u8,
    begun: Option<Open>,
    cycles: &[Cycle],
    rows: &[Row],
    first: u32,
) -> CycleSum
    ensures { (known : ℕ → Bool) (before told : List Row) (end : ℕ)
        → AreUnderWay known phase detector before rows.now first end begun cycles.now
        → GiveSame phase detector (before ++ known_rows known rows.now) told cycles.now
        → numbers_in result ≡ numbers_of phase detector told (own (λ x. x.phase) phase cycles.now) }
{
    let mut sum = no_cycles();
    for cycle in cycles {
        if cycle.phase == phase {
            let given = cycle_given(phase, detector, begun, rows, first, cycle.from, cycle.to);
            sum = sum.with(cycle, given);
        }
    }
    sum
}

/// The cycle of the phase among these.
pub(crate) fn open_cycle_of(cycles: &[OpenCycle], phase: u8) -> Option<OpenCycle>
    ensures { result ≡ find (λ y. y.phase == phase) cycles.now }
{
    cycles.iter().copied().find(|one| one.phase == phase)
}

/// The cycle of the phase that has begun at the end of the hour, which has its first tenth here. The
/// rows are the approach's own.
pub(crate) fn open_after(
    phase: u8,
    detector: u8,
    begun: Option<Open>,
    cuts: &Cuts,
    rows: &[Row],
    first: u32,
) -> Option<Open>
    ensures { IsOpenAfter phase detector begun (find (λ y. y.phase == phase) cuts.now.open_cycles)
        rows.now first result }
{
    let cycle = open_cycle_of(cuts.open_cycles(), phase)?;
    let end = first.saturating_add(36_000);
    Some(cycle_given(phase, detector, begun, rows, first, cycle.from, end))
}
