// The services at stop bars in an hour of a store.
ghost use Rattle.std.specs.Prelude.{◌≡◌, ◌<◌, ◌+◌, ◌++◌, option_copied, IfOk, IfSome};
ghost use Rattle.hour_store.specs.Store.{Store};
ghost use Rattle.board.specs.Stops.{AreBefore};
ghost use Rattle.signal_log.specs.Log.{HasHistory, log_of};
ghost use Rattle.split_measures.specs.Phases.{phase_sums};
ghost use Rattle.split_measures.specs.Hours.{AreSplitSums};
ghost use Rattle.hour_work.specs.Rows.{earlier_rows, own_rows};
ghost use Rattle.hour_work.specs.Measures.{cycles_in, services_in};
ghost use Rattle.hour_work.specs.Points.{AreBarsAt};
ghost use Rattle.hour_work.specs.Reports.{AreToldAt, IsCutAtPlace, courses_at};

use crate::Carry;
use board::Courses;
use detector_state::Switched;
use ring_config::Config;
use service_cut::Cuts;
use sig_base::NoMemory;
use signal_log::Place;
use split_measures::{SplitCarry, SplitSums, splits_hour};
use std::alloc::Global;
use stop_bar::detectors_hour;

// The tenths of the detector of each stop bar in an hour, of which these are the courses.
fn detectors_over(
    alloc: Global,
    config: &Config,
    place: &Place<'_>,
    before: &Carry,
    courses: &Courses,
) -> Result<Vec<Switched>, NoMemory>
    requires shape { AreBefore config.now.specs before.now.pasts }
    requires courses { courses.now ≡ courses_at config.now place.now }
    ensures { IfOk result (λ v. AreToldAt config.now place.now before.now v.items) }
{
    let told = detectors_hour(alloc, config, &before.pasts, courses, place.hour())?;
    Ok(told)
}

/// The tenths of the detector of each stop bar in an hour. These are its courses, where they are made
/// already.
pub(crate) fn told_over(
    alloc: Global,
    config: &Config,
    place: &Place<'_>,
    before: &Carry,
    courses: Option<&Courses>,
) -> Result<Vec<Switched>, NoMemory>
    requires shape { AreBefore config.now.specs before.now.pasts }
    requires courses { IfSome (option_copied courses) (λ x. x ≡ courses_at config.now place.now) }
    ensures { IfOk result (λ v. AreToldAt config.now place.now before.now v.items) }
{
    if config.approach_count() == 0 {
        return Ok(Vec::new(alloc));
    }
    match courses {
        Some(courses) => detectors_over(alloc, config, place, before, courses),
        None => {
            let own = Courses::of(alloc, config.specs(), place.rows(), place.stretches())?;
            detectors_over(alloc, config, place, before, &own)
        }
    }
}

/// The numbers of the hour's phases, and of the services at the stop bars of approaches, and what
/// crosses the point after the hour there, by the tenths of their detectors.
pub(crate) fn splits_over(
    alloc: Global,
    config: &Config,
    place: &Place<'_>,
    before: &Carry,
    cuts: &Cuts,
    told: &[Switched],
) -> Result<(SplitSums, SplitCarry), NoMemory>
    requires { AreToldAt config.now place.now before.now told.now }
    ensures phases { IfOk result (λ v. (s : Store)
        → IsCutAtPlace config.now s place.now before.now cuts.now
        → v.0.phases ≡ phase_sums config.now.phases (services_in config.now s place.now.hour)
        (cycles_in config.now s place.now.hour)) }
    ensures verdicts { IfOk result (λ v. (s : Store) → HasHistory (log_of config.now.specs s)
        → IsCutAtPlace config.now s place.now before.now cuts.now
        → AreSplitSums (log_of config.now.specs s) config.now place.now.hour
        (earlier_rows s place.now.hour ++ own_rows s place.now.hour) v.0.approaches) }
    ensures carry { IfOk result (λ v. (s : Store)
        → IsCutAtPlace config.now s place.now before.now cuts.now
        → AreBarsAt config.now s (place.now.hour + 1) v.1) }
{
    let mut carry = before.splits.copy()?;
    let sums = splits_hour(alloc, config, &mut carry, cuts, told, place.hour())?;
    Ok((sums, carry))
}
