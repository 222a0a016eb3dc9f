// What is seen of an hour: the view of it, and the lines of its audit.
ghost use Rattle.std.specs.Prelude.{option_copied, ◌≡◌, ◌+◌, ◌≤◌, ◌<◌, ◌^◌, All, sum_by, IfSome, IfOk};
ghost use Rattle.gap_map.specs.Stretches.{known_in};
ghost use Rattle.hour_store.specs.Store.{Store};
ghost use Rattle.signal_log.specs.Over.{AreCoursesOver};
ghost use Rattle.rule_audit.specs.Rules.{rules_for};
ghost use Rattle.hour_work.specs.Known.{known_len};
ghost use Rattle.hour_work.specs.Verdicts.{AreAuditLines};
ghost use Rattle.hour_work.specs.Reports.{IsBetweenAt, IsSeenBy};

use crate::{Between, Carry};
use board::{Courses, HourView};
use gap_map::Stretch;
use ring_config::Config;
use rule_audit::{AuditLine, Rule, audit_rows};
use sig_base::NoMemory;
use signal_log::Place;
use std::alloc::Global;

// The hour's courses: these, where they are made already.
fn courses_over(
    alloc: Global,
    config: &Config,
    place: &Place<'_>,
    courses: Option<Courses>,
) -> Result<Courses, NoMemory>
    requires { IfSome courses (AreCoursesOver config.now.specs place.now.hour place.now.rows
        place.now.blanks) }
    ensures { IfOk result (AreCoursesOver config.now.specs place.now.hour place.now.rows
        place.now.blanks) }
{
    match courses {
        Some(courses) => Ok(courses),
        None => place.courses(alloc, config.specs()),
    }
}

/// They, or where the hour isn't held these alone.
pub(crate) fn held_courses(
    alloc: Global,
    config: &Config,
    place: &Place<'_>,
    courses: Option<Courses>,
) -> Result<Option<Courses>, NoMemory>
    requires { IfSome courses (AreCoursesOver config.now.specs place.now.hour place.now.rows
        place.now.blanks) }
    ensures { IfOk result (λ o. IfSome o (AreCoursesOver config.now.specs place.now.hour
        place.now.rows place.now.blanks)) }
{
    if !place.is_held() {
        return Ok(courses);
    }
    let own = courses_over(alloc, config, place, courses)?;
    Ok(Some(own))
}

/// The view of an hour between the points before and after it, where it is held. These are its
/// courses, where they are made already.
pub(crate) fn view_over(
    alloc: Global,
    config: &Config,
    place: &Place<'_>,
    between: &Between<'_>,
    courses: Option<Courses>,
) -> Result<Option<HourView>, NoMemory>
    requires courses { IfSome courses (AreCoursesOver config.now.specs place.now.hour place.now.rows
        place.now.blanks) }
    requires agrees { (s : Store)
        × IsBetweenAt config.now s place.now between.now.before.now between.now.after.now }
    ensures { IfOk result (λ v. (s : Store)
        → IsBetweenAt config.now s place.now between.now.before.now between.now.after.now
        → IsSeenBy config.now s place.now between.now.before.now v) }
{
    if !place.is_held() {
        return Ok(None);
    }
    let before = between.before;
    let after = between.after;
    let courses = courses_over(alloc, config, place, courses)?;
    let view = HourView::along(
        alloc,
        config.specs(),
        &before.pasts,
        place.stretches(),
        &after.aheads,
        courses,
    )?;
    Ok(Some(view))
}

/// The lines of its audit, none where it isn't held.
pub(crate) fn lines_over(
    alloc: Global,
    config: &Config,
    rules: &[Rule],
    place: &Place<'_>,
    before: &Carry,
    view: Option<&HourView>,
) -> Result<Vec<AuditLine>, NoMemory>
    requires rules { rules.now ≡ rules_for config.now }
    requires seen { (s : Store)
        × IsSeenBy config.now s place.now before.now (option_copied view) }
    ensures { IfOk result (λ v. (s : Store)
        → IsSeenBy config.now s place.now before.now (option_copied view.entry)
        → AreAuditLines config.now s place.now.hour v.items) }
{
    let rows = place.rows();
    let parts = place.stretches();
    match view {
        Some(view) => audit_rows(alloc, config, rules, view, rows, parts, before.known),
        None => Ok(Vec::new(alloc)),
    }
}

/// How many tenths of these stretches are known.
pub(crate) fn known_in(parts: &[Stretch]) -> u32
    requires order { All (λ s. s.from ≤ s.to) parts.now }
    requires few { sum_by known_len parts.now < 2 ^ 32 }
    ensures { result ≡ sum_by known_len parts.now }
{
    let mut known = 0;
    for part in parts {
        known += known_len(part);
    }
    known
}

// How many tenths of this stretch are known: all of them or none.
fn known_len(part: &Stretch) -> u32
    requires { part.now.from ≤ part.now.to }
    ensures { result ≡ known_len part.now }
{
    if part.known { part.to - part.from } else { 0 }
}
