// One hour of a store, which is opened.
ghost use Rattle.std.specs.Prelude.{◌≡◌, ◌+◌, ◌<◌, None, length, IfSome, IfOk, IfErr};
ghost use Rattle.hour_store.specs.Store.{Store, rows_at};
ghost use Rattle.board.specs.Logs.{end_tenth, first_tenth};
ghost use Rattle.board.specs.Places.{AllEarly};
ghost use Rattle.board.specs.Stops.{AreBefore};
ghost use Rattle.signal_log.specs.Opened.{HasPlace};
ghost use Rattle.signal_log.specs.Over.{AreCoursesOver, ArePastsOver};
ghost use Rattle.signal_log.specs.Log.{HasHistory, log_of};
ghost use Rattle.rule_audit.specs.Rules.{rules_for};
ghost use Rattle.hour_work.specs.Numbers.{FitHours};
ghost use Rattle.signal_log.specs.Points.{ArePastsAt};
ghost use Rattle.hour_work.specs.Points.{ComesBack, IsCarryAt, IsFutureAt, NamesRow, NamesStop};
ghost use Rattle.session.specs.Links.{Backs, Counts, HasCourses, IsGone, Leads, StatesLead};
ghost use Rattle.session.specs.Opens.{AreOpened, NamesRowOf};

use board::{About, Courses, Pasts};
use hour_store::HourStore;
use hour_work::{
    Between, Carry, ForwardError, Future, Known, Partial, Worked, backward_again, backward_over,
    backward_through, carry_over, forward_error, partial_over, work_over,
};
use ring_config::Config;
use rule_audit::Rule;
use sig_base::{Hour, NoMemory, Reads};
use signal_log::{Place, pasts_over_again, pasts_through};
use std::alloc::Global;

/// The states of each channel at the point after an hour, and the hour's courses where it was gone
/// over whole.
#[derive(Drop)]
pub struct Reached {
    pub pasts: Pasts,
    pub courses: Option<Courses>,
}

// The states of each channel at the point after an hour that is opened, and the hour's courses.
fn reached_whole(
    alloc: Global,
    config: &Config,
    place: &Place<'_>,
    before: &Pasts,
) -> Result<Reached, ForwardError>
    requires shape { AreBefore config.now.specs before.now }
    requires early { AllEarly (first_tenth place.now.hour) before.now }
    ensures shape { IfOk result (λ r. AreBefore config.now.specs r.pasts
        × AllEarly (end_tenth place.now.hour) r.pasts) }
    ensures over { IfOk result (λ r. ArePastsOver config.now.specs place.now.hour place.now.rows
        place.now.blanks before.now r.pasts) }
    ensures pasts { IfOk result (λ r. (s : Store) → HasPlace s place.now
        → ArePastsAt (log_of config.now.specs s) place.now.hour before.now
        → ArePastsAt (log_of config.now.specs s) (place.now.hour + 1) r.pasts) }
    ensures courses { IfOk result (λ r. IfSome r.courses (AreCoursesOver config.now.specs
        place.now.hour place.now.rows place.now.blanks)) }
    ensures stop { IfErr result (λ e. (s : Store) → HasPlace s place.now
        → ArePastsAt (log_of config.now.specs s) place.now.hour before.now
        → NamesRow (log_of config.now.specs s) e) }
    ensures row { IfErr result (NamesStop config.now.specs place.now.hour place.now.rows
        place.now.blanks before.now) }
{
    let courses = place.courses(alloc, config.specs())?;
    match pasts_through(alloc, config.specs(), place, &courses, before) {
        Ok(pasts) => Ok(Reached {
            pasts,
            courses: Some(courses),
        }),
        Err(error) => Err(forward_error(error)),
    }
}

// The same of an hour that is as it was when this was told of it. Its courses aren't made.
fn reached_again(
    alloc: Global,
    config: &Config,
    place: &Place<'_>,
    before: &Pasts,
    was: &About<'_, Pasts>,
) -> Result<Reached, ForwardError>
    requires shape { AreBefore config.now.specs before.now }
    requires early { AllEarly (first_tenth place.now.hour) before.now }
    requires was_shape { AreBefore config.now.specs was.now.after.now }
    requires was { ArePastsOver config.now.specs place.now.hour place.now.rows place.now.blanks
        was.now.before.now was.now.after.now }
    ensures shape { IfOk result (λ r. AreBefore config.now.specs r.pasts
        × AllEarly (end_tenth place.now.hour) r.pasts) }
    ensures over { IfOk result (λ r. ArePastsOver config.now.specs place.now.hour place.now.rows
        place.now.blanks before.now r.pasts) }
    ensures pasts { IfOk result (λ r. (s : Store) → HasPlace s place.now
        → ArePastsAt (log_of config.now.specs s) place.now.hour before.now
        → ArePastsAt (log_of config.now.specs s) (place.now.hour + 1) r.pasts) }
    ensures courses { IfOk result (λ r. IfSome r.courses (AreCoursesOver config.now.specs
        place.now.hour place.now.rows place.now.blanks)) }
    ensures stop { IfErr result (λ e. (s : Store) → HasPlace s place.now
        → ArePastsAt (log_of config.now.specs s) place.now.hour before.now
        → NamesRow (log_of config.now.specs s) e) }
    ensures row { IfErr result (NamesStop config.now.specs place.now.hour place.now.rows
        place.now.blanks before.now) }
{
    match pasts_over_again(alloc, config.specs(), place, before, was) {
        Ok(pasts) => Ok(Reached {
            pasts,
            courses: None,
        }),
        Err(error) => Err(forward_error(error)),
    }
}

// The same of either: of an hour that is as it was by what was told of it.
fn reached_over(
    alloc: Global,
    config: &Config,
    place: &Place<'_>,
    before: &Pasts,
    was: Option<About<'_, Pasts>>,
) -> Result<Reached, ForwardError>
    requires shape { AreBefore config.now.specs before.now }
    requires early { AllEarly (first_tenth place.now.hour) before.now }
    requires was_shape { IfSome was (λ w. AreBefore config.now.specs w.after.now) }
    requires was { IfSome was (λ w. ArePastsOver config.now.specs place.now.hour place.now.rows
        place.now.blanks w.before.now w.after.now) }
    ensures shape { IfOk result (λ r. AreBefore config.now.specs r.pasts
        × AllEarly (end_tenth place.now.hour) r.pasts) }
    ensures over { IfOk result (λ r. ArePastsOver config.now.specs place.now.hour place.now.rows
        place.now.blanks before.now r.pasts) }
    ensures pasts { IfOk result (λ r. (s : Store) → HasPlace s place.now
        → ArePastsAt (log_of config.now.specs s) place.now.hour before.now
        → ArePastsAt (log_of config.now.specs s) (place.now.hour + 1) r.pasts) }
    ensures courses { IfOk result (λ r. IfSome r.courses (AreCoursesOver config.now.specs
        place.now.hour place.now.rows place.now.blanks)) }
    ensures stop { IfErr result (λ e. (s : Store) → HasPlace s place.now
        → ArePastsAt (log_of config.now.specs s) place.now.hour before.now
        → NamesRow (log_of config.now.specs s) e) }
    ensures row { IfErr result (NamesStop config.now.specs place.now.hour place.now.rows
        place.now.blanks before.now) }
{
    match was {
        Some(was) => reached_again(alloc, config, place, before, &was),
        None => reached_whole(alloc, config, place, before),
    }
}

/// The states of each channel at the point after the hour, and the hour's courses where they are
/// made. `was` is what was told of the states before, where the hour is as it was.
pub fn states_after<L>(
    alloc: Global,
    config: &Config,
    store: &HourStore<L>,
    hour: Hour,
    before: &Pasts,
    was: Option<About<'_, Pasts>>,
    reads: &mut Reads<L>,
) -> Result<Reached, ForwardError>
    requires in_store { hour < length store.now.hours }
    requires before { ArePastsAt (log_of config.now.specs store.now) hour before.now }
    requires was { IfSome was (λ w. StatesLead config.now store.now hour w.before.now w.after.now) }
    ensures leads { IfOk result (λ r. StatesLead config.now store.now hour before.now r.pasts) }
    ensures pasts { IfOk result (λ r. ArePastsAt (log_of config.now.specs store.now) (hour + 1)
        r.pasts) }
    ensures courses { IfOk result (λ r. IfSome r.courses (HasCourses config.now store.now hour)) }
    ensures stop { IfErr result (NamesRow (log_of config.now.specs store.now)) }
    ensures row { IfErr result (NamesRowOf hour) }
    ensures once { AreOpened hour (hour + 1) 1 1 reads.old reads.new }
{
    let rows = store.open_hour(hour, reads);
    let place = Place::new(alloc, hour, rows, store.blanked())?;
    reached_over(alloc, config, &place, before, was)
}

/// What is kept at the point after an hour, and its courses where they are made.
#[derive(Drop)]
pub struct Crossed {
    pub carry: Carry,
    pub courses: Option<Courses>,
}

/// The same of all that is kept there: the states, and what is under way. It makes no numbers.
pub fn carry_after<L>(
    alloc: Global,
    config: &Config,
    store: &HourStore<L>,
    hour: Hour,
    before: &Carry,
    was: Option<About<'_, Pasts>>,
    reads: &mut Reads<L>,
) -> Result<Crossed, ForwardError>
    requires in_store { hour < length store.now.hours }
    requires before { IsCarryAt config.now store.now hour before.now }
    requires was { IfSome was (λ w. StatesLead config.now store.now hour w.before.now w.after.now) }
    ensures leads { IfOk result (λ r. Leads config.now hour (rows_at store.now hour)
        store.now.blanks before.now r.carry) }
    ensures courses { IfOk result (λ r. IfSome r.courses (HasCourses config.now store.now hour)) }
    ensures stop { IfErr result (NamesRow (log_of config.now.specs store.now)) }
    ensures row { IfErr result (NamesRowOf hour) }
    ensures once { AreOpened hour (hour + 1) 1 1 reads.old reads.new }
{
    let rows = store.open_hour(hour, reads);
    let place = Place::new(alloc, hour, rows, store.blanked())?;
    let reached = reached_over(alloc, config, &place, before.pasts(), was)?;
    let Reached { pasts, courses } = reached;
    let carry = carry_over(alloc, config, &place, before, courses.as_ref(), pasts)?;
    Ok(Crossed { carry, courses })
}

/// What is kept at the point after an hour that is as it was, as what is kept before it is: it
/// stays. The hour is opened, and not gone over.
pub fn carry_stays<L>(
    alloc: Global,
    store: &HourStore<L>,
    hour: Hour,
    after: &Carry,
    reads: &mut Reads<L>,
) -> Result<Crossed, NoMemory>
    requires { hour < length store.now.hours }
    ensures carry { IfOk result (λ r. r.carry ≡ after.now) }
    ensures courses { IfOk result (λ r. r.courses ≡ None) }
    ensures once { AreOpened hour (hour + 1) 1 1 reads.old reads.new }
{
    store.open_hour(hour, reads);
    let carry = after.copy(alloc)?;
    Ok(Crossed {
        carry,
        courses: None,
    })
}

/// How an hour was gone over forward: its courses, and the states of each channel before it and
/// after it.
#[derive(Drop)]
pub struct Gone<'a> {
    pub courses: &'a Courses,
    pub states: About<'a, Pasts>,
}

/// What is kept going back at the point before the hour, where it was gone over forward so.
pub fn future_before<L>(
    alloc: Global,
    config: &Config,
    store: &HourStore<L>,
    hour: Hour,
    after: &Future,
    gone: Option<&Gone<'_>>,
    reads: &mut Reads<L>,
) -> Result<Future, NoMemory>
    requires in_store { hour < length store.now.hours }
    requires after { IsFutureAt config.now store.now (hour + 1) after.now }
    requires gone { IfSome gone (λ g. IsGone config.now store.now hour g.now.courses.now
        g.now.states.before.now g.now.states.after.now) }
    ensures backs { IfOk result (Backs config.now hour (rows_at store.now hour) store.now.blanks
        after.now) }
    ensures once { AreOpened hour (hour + 1) 1 1 reads.old reads.new }
{
    let rows = store.open_hour(hour, reads);
    let place = Place::new(alloc, hour, rows, store.blanked())?;
    match gone {
        Some(gone) => backward_through(alloc, config, &place, gone.courses, &gone.states, after),
        None => backward_over(alloc, config, &place, after),
    }
}

/// The same of an hour that is as it was told before, from other states at the point after it.
pub fn future_again<L>(
    alloc: Global,
    config: &Config,
    store: &HourStore<L>,
    hour: Hour,
    after: &Future,
    was: &About<'_, Future>,
    reads: &mut Reads<L>,
) -> Result<Future, NoMemory>
    requires in_store { hour < length store.now.hours }
    requires after { IsFutureAt config.now store.now (hour + 1) after.now }
    requires was { ComesBack config.now hour (rows_at store.now hour) store.now.blanks
        was.now.after.now was.now.before.now }
    ensures backs { IfOk result (Backs config.now hour (rows_at store.now hour) store.now.blanks
        after.now) }
    ensures once { AreOpened hour (hour + 1) 1 1 reads.old reads.new }
{
    let rows = store.open_hour(hour, reads);
    let place = Place::new(alloc, hour, rows, store.blanked())?;
    backward_again(alloc, config, &place, after, was)
}

/// The numbers of the hour.
pub fn part_between<L>(
    alloc: Global,
    config: &Config,
    rules: &[Rule],
    store: &HourStore<L>,
    hour: Hour,
    between: &Between<'_>,
    reads: &mut Reads<L>,
) -> Result<Partial, NoMemory>
    requires rules { rules.now ≡ rules_for config.now }
    requires in_store { hour < length store.now.hours }
    requires before { IsCarryAt config.now store.now hour between.now.before.now }
    requires after { IsFutureAt config.now store.now (hour + 1) between.now.after.now }
    requires history { HasHistory (log_of config.now.specs store.now) }
    ensures counts { IfOk result (Counts config.now hour (rows_at store.now hour) store.now.blanks
        between.now.before.now between.now.after.now) }
    ensures small { IfOk result (FitHours 1) }
    ensures once { AreOpened hour (hour + 1) 1 1 reads.old reads.new }
{
    let rows = store.open_hour(hour, reads);
    let place = Place::new(alloc, hour, rows, store.blanked())?;
    partial_over(alloc, config, rules, &place, between)
}

/// An hour, with the states of each channel at the point after it, and its courses where they are
/// made already.
#[derive(Drop)]
pub struct Step {
    pub hour: Hour,
    pub known: Known,
}

/// What is kept at the point after the hour, and its numbers.
pub fn work_between<L>(
    alloc: Global,
    config: &Config,
    rules: &[Rule],
    store: &HourStore<L>,
    step: Step,
    between: &Between<'_>,
    reads: &mut Reads<L>,
) -> Result<Worked, NoMemory>
    requires rules { rules.now ≡ rules_for config.now }
    requires in_store { step.hour < length store.now.hours }
    requires states { StatesLead config.now store.now step.hour between.now.before.now.pasts
        step.known.pasts }
    requires courses { IfSome step.known.courses (HasCourses config.now store.now step.hour) }
    requires before { IsCarryAt config.now store.now step.hour between.now.before.now }
    requires after { IsFutureAt config.now store.now (step.hour + 1) between.now.after.now }
    requires history { HasHistory (log_of config.now.specs store.now) }
    ensures pasts { IfOk result (λ w. w.carry.pasts ≡ step.known.pasts) }
    ensures leads { IfOk result (λ w. Leads config.now step.hour (rows_at store.now step.hour)
        store.now.blanks between.now.before.now w.carry) }
    ensures counts { IfOk result (λ w. Counts config.now step.hour (rows_at store.now step.hour)
        store.now.blanks between.now.before.now between.now.after.now w.part) }
    ensures small { IfOk result (λ w. FitHours 1 w.part) }
    ensures once { AreOpened step.hour (step.hour + 1) 1 1 reads.old reads.new }
{
    let Step { hour, known } = step;
    let rows = store.open_hour(hour, reads);
    let place = Place::new(alloc, hour, rows, store.blanked())?;
    work_over(alloc, config, rules, &place, between, known)
}
