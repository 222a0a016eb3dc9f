// The numbers of an hour.
ghost use Rattle.std.specs.Prelude.{◌≡◌, ◌<◌, [], IfOk, OnErr, OnOk, length, slice_set, slice_index_or};
ghost use Rattle.sig_base.specs.Numbers.{has_phase};
ghost use Rattle.hour_sweep.specs.Sums.{AreSums, by_number};
ghost use Rattle.split_measures.specs.Hours.{AreHourSums, CrossesNext, no_splits, splits_added};
ghost use Rattle.split_measures.specs.Phases.{added, phase_sum_of, phase_sums, services_of, zero_sum};

use crate::bars::approach_sums;
use crate::carry::SplitCarry;
use crate::failures::SplitSum;
use crate::sums::{PhaseSum, nothing, of_cycle, of_service};
use detector_state::Switched;
use hour_sweep::{Sum, add_each};
use ring_config::Config;
use service_cut::{Cuts, Cycle, Service};
use sig_base::{Hour, NoMemory, PhaseItem, has_phase};
use std::alloc::Global;
use std::marker::Model;
use stop_bar::bars_hour;

/// The numbers of each phase in an hour, and of each approach.
#[derive(Drop)]
pub struct SplitSums {
    phases: Vec<PhaseSum>,
    approaches: Vec<SplitSum>,
}

impl Model for SplitSums {
    ghost use Rattle.split_measures.specs.Hours.{Splits};

    ghost Value = { Splits };

    ghost view = { λ s. record { phases = s.phases.items; approaches = s.approaches.items } };
}

impl SplitSums {
    /// The numbers of no phase and no approach. Can't run out of memory.
    pub fn new(alloc: Global) -> SplitSums
        ensures { result ≡ no_splits }
    {
        SplitSums {
            phases: Vec::new(alloc),
            approaches: Vec::new(alloc),
        }
    }

    /// Adds the numbers of each phase and of each approach to its own. Where memory ran out some of
    /// them may have been added.
    pub fn add(&mut self, more: &SplitSums) -> Result<(), NoMemory>
        ensures { OnOk result (self.new ≡ splits_added self.old more.now) }
    {
        add_each(&mut self.phases, &more.phases)?;
        add_each(&mut self.approaches, &more.approaches)
    }

    /// One entry for each phase, by number.
    pub fn phases(&self) -> &[PhaseSum]
        ensures { result.now ≡ self.now.phases }
    {
        self.phases.as_slice()
    }

    /// One entry for each approach, in file order; all 0 where it has no detector at its stop bar.
    pub fn approaches(&self) -> &[SplitSum]
        ensures { result.now ≡ self.now.approaches }
    {
        self.approaches.as_slice()
    }
}

// Adds to the numbers of this phase.
fn note(sums: &mut [PhaseSum], phase: u8, more: &PhaseSum)
    ensures { sums.new ≡ slice_set sums.old phase (added (slice_index_or sums.old phase zero_sum)
        more.now) }
{
    let place = usize::from(phase);
    if place < sums.len() {
        sums[place] = sums[place].sum(more);
    }
}

fn add_services(sums: &mut [PhaseSum], services: &[Service])
    requires empty { AreSums (λ s. s.phase) (λ p ss. phase_sum_of ss []) (length sums.old) []
        sums.old }
    ensures { AreSums (λ s. s.phase) (λ p ss. phase_sum_of ss []) (length sums.old) services.now
        sums.new }
{
    for service in services {
        note(sums, service.phase, &of_service(service));
    }
}

fn add_cycles(sums: &mut [PhaseSum], services: &[Service], cycles: &[Cycle])
    requires services { AreSums (λ s. s.phase) (λ p ss. phase_sum_of ss []) (length sums.old)
        services.now sums.old }
    ensures { AreSums (λ c. c.phase) (λ p cs. phase_sum_of (services_of p services.now) cs)
        (length sums.old) cycles.now sums.new }
{
    for cycle in cycles {
        note(sums, cycle.phase, &of_cycle(cycle));
    }
}

// The numbers of the phases, from a table by number.
fn of_phases(
    alloc: Global,
    phases: &[PhaseItem],
    table: &[PhaseSum; 17],
) -> Result<Vec<PhaseSum>, NoMemory>
    ensures { IfOk result (λ v. v.items ≡ by_number (has_phase phases.now)
        (λ p. slice_index_or table.now p zero_sum) 17) }
{
    let mut sums = Vec::new(alloc);
    for number in 0..17u8 {
        if has_phase(phases, number) {
            sums.push(table[usize::from(number)])?;
        }
    }
    Ok(sums)
}

fn table_of(services: &[Service], cycles: &[Cycle]) -> [PhaseSum; 17]
    ensures { AreSums (λ c. c.phase) (λ p cs. phase_sum_of (services_of p services.now) cs) 17
        cycles.now result }
{
    let mut table = [nothing(); 17];
    add_services(&mut table, services);
    add_cycles(&mut table, services, cycles);
    table
}

/// The numbers of the hour's whole services and whole cycles, phase by phase, and the verdicts of
/// the services whose red window ends in it, approach by approach; in the window's last hour those
/// are open whose red window isn't over. In `carry` comes what crosses the point after the hour in
/// place of what crosses the point before it. `detectors` has the tenths of the detector of each
/// stop bar, in file order.
pub fn splits_hour(
    alloc: Global,
    config: &Config,
    carry: &mut SplitCarry,
    cuts: &Cuts,
    detectors: &[Switched],
    hour: Hour,
) -> Result<SplitSums, NoMemory>
    requires { hour < 744 }
    ensures phases { IfOk result (λ s. s.phases
        ≡ phase_sums config.now.phases cuts.now.services cuts.now.cycles) }
    ensures approaches { IfOk result (λ s. AreHourSums config.now hour cuts.now detectors.now
        carry.old s.approaches) }
    ensures carry { IfOk result (λ s. CrossesNext config.now hour cuts.now detectors.now
        carry.old carry.new) }
    ensures err { OnErr result (carry.new ≡ carry.old) }
{
    let table = table_of(cuts.services(), cuts.cycles());
    let phases = of_phases(alloc, config.phases(), &table)?;
    let mut next = carry.bars.copy()?;
    let ended = bars_hour(alloc, config, &mut next, cuts, detectors, hour)?;
    let approaches = approach_sums(alloc, config, &ended, next.bars(), hour)?;
    carry.bars = next;
    Ok(SplitSums { phases, approaches })
}
