// The cycles of a phase in one hour, and its arrivals.
ghost use Rattle.std.specs.Prelude.{◌≡◌, ◌<◌, option_copied, IfOk, IfSome};
ghost use Rattle.sig_base.specs.HourRows.{AreRowsOf};
ghost use Rattle.hour_store.specs.Store.{Store, is_known};
ghost use Rattle.hour_sweep.specs.Sums.{own};
ghost use Rattle.signal_log.specs.Opened.{HasPlace};
ghost use Rattle.signal_log.specs.Points.{HasHour};
ghost use Rattle.arrival_measures.specs.Points.{points_from};
ghost use Rattle.hour_work.specs.Rows.{earlier_rows, own_rows};
ghost use Rattle.hour_work.specs.Measures.{cycles_in};
ghost use Rattle.hour_work.specs.Points.{IsCarryAt};
ghost use Rattle.hour_work.specs.Reports.{IsBetweenAt, IsHourBetween};

use crate::seen::view_over;
use crate::{Between, Carry, Future};
use arrival_measures::{Points, arrival_points};
use ring_config::Config;
use service_cut::{Cycle, cut_hour};
use sig_base::{Hour, NoMemory, Row};
use signal_log::Place;
use span_set::SpanSet;
use std::alloc::Global;

/// The arrivals of an hour, 0 to 743, at the advance detectors of a phase's approaches, in row
/// order, where these rows are held of the hour (`None`: it isn't held) and these tenths are
/// blanked, from what is kept at the points before and after it. An offset is here the arrival
/// tenth, of the window. Some history agrees with the log.
pub fn phase_points(
    alloc: Global,
    config: &Config,
    phase: u8,
    hour: Hour,
    before: &Carry,
    rows: Option<&[Row]>,
    blanked: &SpanSet,
    after: &Future,
) -> Result<Points, NoMemory>
    requires in_range { hour < 744 }
    requires of_hour { IfSome rows (λ r. AreRowsOf hour r.now) }
    requires agrees { (s : Store) × IsHourBetween config.now s hour before.now (option_copied rows)
        blanked.now after.now }
    ensures { IfOk result (λ p. (s : Store) → HasHour s hour (option_copied rows.entry) blanked.now
        → IsCarryAt config.now s hour before.now
        → p ≡ points_from (is_known s) config.now phase (earlier_rows s hour) (own_rows s hour)) }
{
    let place = Place::new(alloc, hour, rows, blanked)?;
    points_over(alloc, config, phase, &place, &Between { before, after })
}

/// `phase_points` of an hour that is opened.
pub fn points_over(
    alloc: Global,
    config: &Config,
    phase: u8,
    place: &Place<'_>,
    between: &Between<'_>,
) -> Result<Points, NoMemory>
    requires agrees { (s : Store)
        × IsBetweenAt config.now s place.now between.now.before.now between.now.after.now }
    ensures { IfOk result (λ p. (s : Store) → HasPlace s place.now
        → IsCarryAt config.now s place.now.hour between.now.before.now
        → p ≡ points_from (is_known s) config.now phase (earlier_rows s place.now.hour)
        (own_rows s place.now.hour)) }
{
    let parts = place.stretches();
    match view_over(alloc, config, place, between, None)? {
        Some(view) => arrival_points(alloc, config, phase, &view, place.rows(), parts),
        None => Ok(Points::new(alloc)),
    }
}

/// The whole cycles of a phase that end in an hour, 0 to 743, in their order, from what is kept at
/// the point before it.
pub fn phase_cycles(
    alloc: Global,
    config: &Config,
    phase: u8,
    hour: Hour,
    before: &Carry,
    rows: Option<&[Row]>,
    blanked: &SpanSet,
) -> Result<Vec<Cycle>, NoMemory>
    requires in_range { hour < 744 }
    requires of_hour { IfSome rows (λ r. AreRowsOf hour r.now) }
    ensures { IfOk result (λ v. (s : Store) → HasHour s hour (option_copied rows.entry) blanked.now
        → IsCarryAt config.now s hour before.now → v.items
        ≡ own (λ x. x.phase) phase (cycles_in config.now s hour)) }
{
    let place = Place::new(alloc, hour, rows, blanked)?;
    cycles_over(alloc, config, phase, &place, before)
}

/// `phase_cycles` of an hour that is opened.
pub fn cycles_over(
    alloc: Global,
    config: &Config,
    phase: u8,
    place: &Place<'_>,
    before: &Carry,
) -> Result<Vec<Cycle>, NoMemory>
    ensures { IfOk result (λ v. (s : Store) → HasPlace s place.now
        → IsCarryAt config.now s place.now.hour before.now
        → v.items ≡ own (λ x. x.phase) phase (cycles_in config.now s place.now.hour)) }
{
    let parts = place.stretches();
    let mut carry = before.cuts.copy()?;
    let cuts = cut_hour(alloc, config.phases(), &mut carry, place.rows(), parts)?;
    own_cycles(alloc, cuts.cycles(), phase)
}

// Those of one phase.
fn own_cycles(alloc: Global, cycles: &[Cycle], phase: u8) -> Result<Vec<Cycle>, NoMemory>
    ensures { IfOk result (λ v. v.items ≡ own (λ x. x.phase) phase cycles.now) }
{
    let own = cycles
        .iter()
        .filter(|cycle| cycle.phase == phase)
        .copied()
        .collect(alloc)?;
    Ok(own)
}
