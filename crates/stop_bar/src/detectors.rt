// The detectors of all stop bars in one hour.
ghost use Rattle.std.specs.Prelude.{◌≡◌, ◌<◌, ℕ, Some, [], slice_index_or, IfOk};
ghost use Rattle.event_codes.specs.declared.channels.Kind.TheVariants.{Detector};
ghost use Rattle.board.specs.Stops.{AreBefore};
ghost use Rattle.hour_store.specs.Store.{Store};
ghost use Rattle.signal_log.specs.Log.{log_of};
ghost use Rattle.ring_config.specs.Settings.{spec_place};
ghost use Rattle.detector_state.specs.Hours.{TellsColours};
ghost use Rattle.stop_bar.specs.All.{AreTold, IsHourHeld};

use crate::bars::stop_bars;
use board::{Courses, Pasts};
use detector_state::{Switched, switched_along};
use event_codes::{Channel, Kind};
use ring_config::Config;
use sig_base::{Hour, NoMemory};
use std::alloc::Global;

/// The tenths of the detector of each stop bar in an hour, in file order: by what happens to each
/// channel in the hour, and the states in which each may be before it.
pub fn detectors_hour(
    alloc: Global,
    config: &Config,
    pasts: &Pasts,
    courses: &Courses,
    hour: Hour,
) -> Result<Vec<Switched>, NoMemory>
    requires before { AreBefore config.now.specs pasts.now }
    requires specs { courses.now.specs ≡ config.now.specs }
    requires hour { hour < 744 }
    ensures { IfOk result (λ v. (s : Store)
        → IsHourHeld config.now s hour courses.now.rows courses.now.stretches pasts.now
        → AreTold (log_of config.now.specs s) config.now hour v.items) }
{
    let list = stop_bars(alloc, config)?;
    let mut told = Vec::new(alloc);
    for bar in &list {
        told.push(detector_hour(alloc, config, bar.detector, pasts, courses, hour)?)?;
    }
    Ok(told)
}

// One of them. A detector that isn't tracked has no place, so nothing is said of it.
fn detector_hour(
    alloc: Global,
    config: &Config,
    number: u8,
    pasts: &Pasts,
    courses: &Courses,
    hour: Hour,
) -> Result<Switched, NoMemory>
    requires before { AreBefore config.now.specs pasts.now }
    requires specs { courses.now.specs ≡ config.now.specs }
    requires hour { hour < 744 }
    ensures { IfOk result (λ v. (i : ℕ)
        → spec_place config.now.specs (record { kind = Detector; number = number }) ≡ Some i
        → TellsColours (record { kind = Detector; number = number })
        (slice_index_or pasts.now i []) hour courses.now.rows courses.now.stretches v) }
{
    let channel = Channel {
        kind: Kind::Detector,
        number,
    };
    match config.spec_of(channel) {
        Some(spec) => {
            let told = switched_along(alloc, channel, pasts.at(spec), courses, spec, hour)?;
            Ok(told)
        }
        None => Ok(Switched::none(alloc)),
    }
}
