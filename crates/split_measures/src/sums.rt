// The numbers of one phase.
ghost use Rattle.std.specs.Prelude.{◌≡◌, [], ◌∷◌, None};
ghost use Rattle.split_measures.specs.Phases.{added, ends_by, phase_sum_of};

use hour_sweep::{Sum, greatest_of, least_of, total};
use service_cut::{Cycle, Service, Termination};

/// What the whole services and the whole cycles of one phase give. Sums are in tenths of a second.
/// Adding stops at the last value of a u64, which no report reaches.
#[derive(Clone, Copy, Debug, PartialEq, Eq)]
pub struct PhaseSum {
    pub services: u64,
    /// The shortest split, in tenths of a second; `None` where there is no service.
    pub least: Option<u32>,
    /// The longest split.
    pub greatest: Option<u32>,
    /// Of all splits.
    pub sum: u64,
    /// The services whose green gapped out.
    pub gap_out: u64,
    pub max_out: u64,
    pub force_off: u64,
    /// The services of whose end no row says why.
    pub unlogged: u64,
    pub cycles: u64,
    /// Of the lengths of all cycles.
    pub cycle_sum: u64,
}

/// The numbers of no services and no cycles.
#[tactic(auto, unfolding(crate::specs::Phases::phase_sum_of, hour_sweep::specs::Sums::capped))]
pub(crate) fn nothing() -> PhaseSum
    ensures { result ≡ phase_sum_of [] [] }
{
    PhaseSum {
        services: 0,
        least: None,
        greatest: None,
        sum: 0,
        gap_out: 0,
        max_out: 0,
        force_off: 0,
        unlogged: 0,
        cycles: 0,
        cycle_sum: 0,
    }
}

fn is_end(service: &Service, end: Termination) -> u64
    ensures { result ≡ ends_by end service.now }
{
    if service.end == end { 1 } else { 0 }
}

pub(crate) fn of_service(service: &Service) -> PhaseSum
    ensures { result ≡ phase_sum_of (service.now ∷ []) [] }
{
    let split = service.r.saturating_sub(service.b);
    PhaseSum {
        services: 1,
        least: Some(split),
        greatest: Some(split),
        sum: u64::from(split),
        gap_out: is_end(service, Termination::GapOut),
        max_out: is_end(service, Termination::MaxOut),
        force_off: is_end(service, Termination::ForceOff),
        unlogged: is_end(service, Termination::Unlogged),
        cycles: 0,
        cycle_sum: 0,
    }
}

pub(crate) fn of_cycle(cycle: &Cycle) -> PhaseSum
    ensures { result ≡ phase_sum_of [] (cycle.now ∷ []) }
{
    PhaseSum {
        services: 0,
        least: None,
        greatest: None,
        sum: 0,
        gap_out: 0,
        max_out: 0,
        force_off: 0,
        unlogged: 0,
        cycles: 1,
        cycle_sum: u64::from(cycle.to.saturating_sub(cycle.from)),
    }
}

impl Sum for PhaseSum {
    ghost both = { added };

    /// The numbers of both: sums add, a least is the least of both and a greatest the greatest.
    fn sum(&self, other: &PhaseSum) -> PhaseSum {
        PhaseSum {
            services: total(self.services, other.services),
            least: least_of(self.least, other.least),
            greatest: greatest_of(self.greatest, other.greatest),
            sum: total(self.sum, other.sum),
            gap_out: total(self.gap_out, other.gap_out),
            max_out: total(self.max_out, other.max_out),
            force_off: total(self.force_off, other.force_off),
            unlogged: total(self.unlogged, other.unlogged),
            cycles: total(self.cycles, other.cycles),
            cycle_sum: total(self.cycle_sum, other.cycle_sum),
        }
    }
}
