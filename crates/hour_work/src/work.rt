// All of one hour: what is kept at the point after it, and its numbers.
ghost use Rattle.std.specs.Prelude.{◌≡◌, ◌+◌, IfSome, IfOk};
ghost use Rattle.hour_store.specs.Store.{Store};
ghost use Rattle.board.specs.Logs.{first_tenth};
ghost use Rattle.board.specs.Places.{AllEarly};
ghost use Rattle.board.specs.Stops.{AreBefore};
ghost use Rattle.rule_audit.specs.Rules.{rules_for};
ghost use Rattle.signal_log.specs.Opened.{HasPlace};
ghost use Rattle.signal_log.specs.Over.{AreCoursesOver, ArePastsOver};
ghost use Rattle.hour_work.specs.Numbers.{FitHours};
ghost use Rattle.hour_work.specs.Points.{FitPoint, IsCarryAt};
ghost use Rattle.hour_work.specs.Reports.{IsBetweenAt, IsHourPart};

use crate::hour::{HourDone, hour_done};
use crate::steps::kept;
use crate::{Between, Carry, Partial};
use board::{Courses, Pasts};
use ring_config::Config;
use rule_audit::Rule;
use sig_base::NoMemory;
use signal_log::Place;
use std::alloc::Global;

/// What an hour gives: what is kept at the point after it, and its numbers.
#[derive(Drop)]
pub struct Worked {
    pub carry: Carry,
    pub part: Partial,
}

/// What is known of an hour before it is worked through: the states of each channel at the point
/// after it, and its courses where they are made already.
#[derive(Drop)]
pub struct Known {
    pub pasts: Pasts,
    pub courses: Option<Courses>,
}

/// What is kept at the point after an hour that is opened, and the hour's numbers, where this is
/// known of it. Some history agrees with the log.
pub fn work_over(
    alloc: Global,
    config: &Config,
    rules: &[Rule],
    place: &Place<'_>,
    between: &Between<'_>,
    known: Known,
) -> Result<Worked, NoMemory>
    requires rules { rules.now ≡ rules_for config.now }
    requires over { ArePastsOver config.now.specs place.now.hour place.now.rows place.now.blanks
        between.now.before.now.pasts known.pasts }
    requires shape { AreBefore config.now.specs known.pasts }
    requires early { AllEarly (first_tenth (place.now.hour + 1)) known.pasts }
    requires courses { IfSome known.courses (AreCoursesOver config.now.specs place.now.hour
        place.now.rows place.now.blanks) }
    requires agrees { (s : Store)
        × IsBetweenAt config.now s place.now between.now.before.now between.now.after.now }
    ensures fit { IfOk result (λ w. FitPoint config.now (place.now.hour + 1) w.carry) }
    ensures pasts { IfOk result (λ w. w.carry.pasts ≡ known.pasts) }
    ensures carry { IfOk result (λ w. (s : Store) → HasPlace s place.now
        → IsCarryAt config.now s place.now.hour between.now.before.now
        → IsCarryAt config.now s (place.now.hour + 1) w.carry) }
    ensures value { IfOk result (λ w. (s : Store)
        → IsBetweenAt config.now s place.now between.now.before.now between.now.after.now
        → IsHourPart config.now s place.now.hour w.part) }
    ensures small { IfOk result (λ w. FitHours 1 w.part) }
{
    let Known { pasts, courses } = known;
    let HourDone { part, way } = hour_done(alloc, config, rules, place, between, courses)?;
    let carry = kept(place, pasts, way);
    Ok(Worked { carry, part })
}
