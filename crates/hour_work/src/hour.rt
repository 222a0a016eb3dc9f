// The numbers of one hour, and the lines of its audit.
ghost use Rattle.std.specs.Prelude.{◌≡◌, ◌<◌, ◌+◌, option_copied, IfOk, IfSome};
ghost use Rattle.sig_base.specs.HourRows.{AreRowsOf};
ghost use Rattle.hour_store.specs.Store.{Store};
ghost use Rattle.ring_config.specs.Sound.{IsSound};
ghost use Rattle.signal_log.specs.Opened.{HasPlace, IsOpened};
ghost use Rattle.signal_log.specs.Over.{AreCoursesOver};
ghost use Rattle.rule_audit.specs.Rules.{rules_for};
ghost use Rattle.hour_work.specs.Numbers.{FitHours};
ghost use Rattle.hour_work.specs.Points.{AreUnderWayAt, IsCarryAt};
ghost use Rattle.hour_work.specs.Verdicts.{AreAuditLines};
ghost use Rattle.hour_work.specs.Reports.{IsBetweenAt, IsHourBetween, IsHourPart};

use crate::counts::counts_of;
use crate::measures::{Measured, UnderWay, measures_over};
use crate::seen::{held_courses, known_in, lines_over, view_over};
use crate::stop_bars::told_over;
use crate::{Between, Carry, Future, Partial};
use board::Courses;
use ring_config::Config;
use rule_audit::{AuditLine, Rule};
use sig_base::{Hour, NoMemory, Row};
use signal_log::Place;
use span_set::SpanSet;
use std::alloc::Global;

/// The numbers of an hour, 0 to 743, of which these rows are held, or which isn't held, from what is
/// kept at the points before and after it. Some history agrees with the log.
pub fn partial(
    alloc: Global,
    config: &Config,
    rules: &[Rule],
    hour: Hour,
    before: &Carry,
    rows: Option<&[Row]>,
    blanked: &SpanSet,
    after: &Future,
) -> Result<Partial, NoMemory>
    requires in_range { hour < 744 }
    requires of_hour { IfSome rows (λ r. AreRowsOf hour r.now) }
    requires rules { rules.now ≡ rules_for config.now }
    requires agrees { (s : Store) × IsHourBetween config.now s hour before.now (option_copied rows)
        blanked.now after.now }
    ensures value { IfOk result (λ p. (s : Store) → IsHourBetween config.now s hour before.now
        (option_copied rows.entry) blanked.now after.now → IsHourPart config.now s hour p) }
    ensures small { IfOk result (FitHours 1) }
{
    let place = Place::new(alloc, hour, rows, blanked)?;
    partial_over(alloc, config, rules, &place, &Between { before, after })
}

/// `partial` of an hour that is opened.
pub fn partial_over(
    alloc: Global,
    config: &Config,
    rules: &[Rule],
    place: &Place<'_>,
    between: &Between<'_>,
) -> Result<Partial, NoMemory>
    requires rules { rules.now ≡ rules_for config.now }
    requires agrees { (s : Store)
        × IsBetweenAt config.now s place.now between.now.before.now between.now.after.now }
    ensures value { IfOk result (λ p. (s : Store)
        → IsBetweenAt config.now s place.now between.now.before.now between.now.after.now
        → IsHourPart config.now s place.now.hour p) }
    ensures small { IfOk result (FitHours 1) }
{
    let HourDone { part, .. } = hour_done(alloc, config, rules, place, between, None)?;
    Ok(part)
}

/// The lines of the audit of an hour, in their order: the verdicts that aren't idle, over all
/// histories that agree with the log. Some history agrees. No line has a window.
pub fn audit_lines(
    alloc: Global,
    config: &Config,
    rules: &[Rule],
    hour: Hour,
    before: &Carry,
    rows: Option<&[Row]>,
    blanked: &SpanSet,
    after: &Future,
) -> Result<Vec<AuditLine>, NoMemory>
    requires in_range { hour < 744 }
    requires of_hour { IfSome rows (λ r. AreRowsOf hour r.now) }
    requires rules { rules.now ≡ rules_for config.now }
    requires agrees { (s : Store) × IsHourBetween config.now s hour before.now (option_copied rows)
        blanked.now after.now }
    ensures { IfOk result (λ v. (s : Store) → IsHourBetween config.now s hour before.now
        (option_copied rows.entry) blanked.now after.now
        → AreAuditLines config.now s hour v.items) }
{
    let place = Place::new(alloc, hour, rows, blanked)?;
    audit_over(alloc, config, rules, &place, &Between { before, after })
}

/// `audit_lines` of an hour that is opened.
pub fn audit_over(
    alloc: Global,
    config: &Config,
    rules: &[Rule],
    place: &Place<'_>,
    between: &Between<'_>,
) -> Result<Vec<AuditLine>, NoMemory>
    requires rules { rules.now ≡ rules_for config.now }
    requires agrees { (s : Store)
        × IsBetweenAt config.now s place.now between.now.before.now between.now.after.now }
    ensures { IfOk result (λ v. (s : Store)
        → IsBetweenAt config.now s place.now between.now.before.now between.now.after.now
        → AreAuditLines config.now s place.now.hour v.items) }
{
    let view = view_over(alloc, config, place, between, None)?;
    lines_over(alloc, config, rules, place, between.before, view.as_ref())
}

/// An hour's numbers, and what is under way of each measure at the point after it.
#[derive(Drop)]
pub(crate) struct HourDone {
    pub(crate) part: Partial,
    pub(crate) way: UnderWay,
}

/// All of an hour, held or not. These are its courses, where they are made already.
pub(crate) fn hour_done(
    alloc: Global,
    config: &Config,
    rules: &[Rule],
    place: &Place<'_>,
    between: &Between<'_>,
    courses: Option<Courses>,
) -> Result<HourDone, NoMemory>
    requires courses { IfSome courses (AreCoursesOver config.now.specs place.now.hour place.now.rows
        place.now.blanks) }
    requires rules { rules.now ≡ rules_for config.now }
    requires agrees { (s : Store)
        × IsBetweenAt config.now s place.now between.now.before.now between.now.after.now }
    ensures value { IfOk result (λ h. (s : Store)
        → IsBetweenAt config.now s place.now between.now.before.now between.now.after.now
        → IsHourPart config.now s place.now.hour h.part) }
    ensures small { IfOk result (λ h. FitHours 1 h.part) }
    ensures way { IfOk result (λ h. (s : Store) → HasPlace s place.now
        → IsCarryAt config.now s place.now.hour between.now.before.now
        → AreUnderWayAt config.now s (place.now.hour + 1) h.way) }
    ensures sound { IfOk result (λ _. IsSound config.now) }
    ensures opened { IfOk result (λ _. IsOpened place.now) }
{
    let before = between.before;
    let parts = place.stretches();
    let courses = held_courses(alloc, config, place, courses)?;
    let told = told_over(alloc, config, place, before, courses.as_ref())?;
    let view = view_over(alloc, config, place, between, courses)?;
    let lines = lines_over(alloc, config, rules, place, before, view.as_ref())?;
    let measured = measures_over(alloc, config, place, before, &told, view.as_ref())?;
    let Measured {
        splits,
        others,
        arrivals,
        way,
    } = measured;
    let part = Partial {
        held_hours: u64::from(place.is_held()),
        held_rows: place.rows().len() as u64,
        known_tenths: known_in(parts) as u64,
        rules: counts_of(alloc, rules.len(), &lines)?,
        splits,
        others,
        arrivals,
    };
    Ok(HourDone { part, way })
}
