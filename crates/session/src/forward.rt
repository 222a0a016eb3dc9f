// Forward over the hours that an edit changes: the states of each channel, or all that is kept.
ghost use Rattle.std.specs.Prelude.{◌≡◌, ◌↔◌, ◌+◌, ◌≤◌, ◌<◌, ◌∷◌, [], length, slice_index_or, IfSome, IfOk, IfErr, IsTrue};
ghost use Rattle.hour_store.specs.Store.{IsStore, Store, rows_at};
ghost use Rattle.ring_config.specs.Settings.{Settings};
ghost use Rattle.board.specs.Places.{AreSamePasts};
ghost use Rattle.signal_log.specs.Log.{log_of};
ghost use Rattle.hour_work.specs.Moved.{SaySame};
ghost use Rattle.signal_log.specs.Points.{ArePastsAt};
ghost use Rattle.hour_work.specs.Points.{IsCarryAt, NamesRow};
ghost use Rattle.session.specs.Links.{AreCarriesBut, CarriesFit, HasCourses, Leads, LeadsAt, StatesLead, Stays};
ghost use Rattle.session.specs.Opens.{AreOpened, NamesRowOf, OpensToRow};
ghost use Rattle.session.specs.Renewed.{AreNewCarries, AreNewPasts};
ghost use Rattle.sig_base.specs.Reads.{Grow};

use crate::hours::Touched;
use crate::steps::{Crossed, Reached, carry_after, carry_stays, states_after};
use board::{About, Courses, Pasts};
use hour_store::HourStore;
use hour_work::{Carry, ForwardError, pick};
use ring_config::Config;
use sig_base::{Hour, Reads};
use std::alloc::Global;

// Whether the last hour that is changed is behind, and the states at the point after this one are
// those that are kept.
fn is_behind(last: Hour, hour: Hour, next: &Pasts, kept: &Carry) -> bool
    ensures value { IsTrue result ↔ ((last ≤ hour) × (next.now ≡ kept.now.pasts)) }
    ensures states { IsTrue result ↔ ((last ≤ hour) × AreSamePasts next.now kept.now.pasts) }
{
    last <= hour && next.same(kept.pasts())
}

// The last of the new states, or where there are none those that are kept.
fn last_states<'a>(kept: &'a Carry, fresh: &'a [Pasts]) -> &'a Pasts
    ensures { result.now ≡ slice_index_or (kept.now.pasts ∷ fresh.now) (length fresh.now) [] }
{
    if fresh.is_empty() {
        return kept.pasts();
    }
    &fresh[fresh.len() - 1]
}

// What was kept at each hour point, and the hours that an edit touches.
#[derive(Drop)]
struct Told<'a> {
    touched: &'a Touched,
    kept: &'a [Carry],
}

// What was told of the states about an hour, where the edit hasn't changed it.
fn told_of<'a>(told: &Told<'a>, hour: Hour) -> Option<About<'a, Pasts>>
    requires { hour + 1 < length told.now.kept.now }
    ensures { (c : Settings) (s : Store) → (Stays told.now.touched.now.first
        told.now.touched.now.last told.now.touched.now.same.items hour
        → LeadsAt c s told.now.kept.now hour)
        → IfSome result (λ w. StatesLead c s hour w.before.now w.after.now) }
{
    if told.touched.changes(hour) {
        return None;
    }
    let place = hour as usize;
    Some(About {
        before: told.kept[place].pasts(),
        after: told.kept[place + 1].pasts(),
    })
}

// The states at the point after the hour; of an hour that isn't changed it was told before.
fn next_states<L>(
    alloc: Global,
    config: &Config,
    store: &HourStore<L>,
    told: &Told<'_>,
    hour: Hour,
    before: &Pasts,
    reads: &mut Reads<L>,
) -> Result<Reached, ForwardError>
    requires in_store { hour < length store.now.hours }
    requires before { ArePastsAt (log_of config.now.specs store.now) hour before.now }
    requires room { length told.now.kept.now ≡ length store.now.hours + 1 }
    requires told { Stays told.now.touched.now.first told.now.touched.now.last
        told.now.touched.now.same.items hour
        → LeadsAt config.now store.now told.now.kept.now hour }
    ensures leads { IfOk result (λ r. StatesLead config.now store.now hour before.now r.pasts) }
    ensures pasts { IfOk result (λ r. ArePastsAt (log_of config.now.specs store.now) (hour + 1)
        r.pasts) }
    ensures courses { IfOk result (λ r. IfSome r.courses (HasCourses config.now store.now hour)) }
    ensures stop { IfErr result (NamesRow (log_of config.now.specs store.now)) }
    ensures row { IfErr result (NamesRowOf hour) }
    ensures once { AreOpened hour (hour + 1) 1 1 reads.old reads.new }
{
    let was = told_of(told, hour);
    states_after(alloc, config, store, hour, before, was, reads)
}

// The same of all that is kept there, which stays after an hour that isn't changed where it does
// before it.
fn next_carry<L>(
    alloc: Global,
    config: &Config,
    store: &HourStore<L>,
    told: &Told<'_>,
    hour: Hour,
    before: &Carry,
    reads: &mut Reads<L>,
) -> Result<Crossed, ForwardError>
    requires in_store { hour < length store.now.hours }
    requires before { IsCarryAt config.now store.now hour before.now }
    requires room { length told.now.kept.now ≡ length store.now.hours + 1 }
    requires told { Stays told.now.touched.now.first told.now.touched.now.last
        told.now.touched.now.same.items hour
        → LeadsAt config.now store.now told.now.kept.now hour }
    ensures leads { IfOk result (λ r. Leads config.now hour (rows_at store.now hour)
        store.now.blanks before.now r.carry) }
    ensures courses { IfOk result (λ r. IfSome r.courses (HasCourses config.now store.now hour)) }
    ensures stop { IfErr result (NamesRow (log_of config.now.specs store.now)) }
    ensures row { IfErr result (NamesRowOf hour) }
    ensures once { AreOpened hour (hour + 1) 1 1 reads.old reads.new }
{
    let place = hour as usize;
    if !told.touched.changes(hour) && before.same(&told.kept[place]) {
        return Ok(carry_stays(alloc, store, hour, &told.kept[place + 1], reads)?);
    }
    let was = told_of(told, hour);
    carry_after(alloc, config, store, hour, before, was, reads)
}

// The courses of the first hour: those that are made of this one, where it is the first.
fn first_courses(
    first: Hour,
    hour: Hour,
    found: Option<Courses>,
    own: Option<Courses>,
) -> Option<Courses>
    ensures { (c : Settings) (s : Store) → IfSome found (HasCourses c s first)
        → IfSome own (HasCourses c s hour) → IfSome result (HasCourses c s first) }
{
    if hour == first { own } else { found }
}

/// The states of each channel at hour points, and the courses of the first hour where they are
/// made: nothing rests on that but speed.
#[derive(Drop)]
pub struct Forth {
    pub states: Vec<Pasts>,
    pub courses: Option<Courses>,
}

/// The states of each channel at the points after the first hour that is changed, up to the first
/// one after the last hour at which they are those that are kept, or up to the window's end.
pub fn go_forward<L>(
    alloc: Global,
    config: &Config,
    store: &HourStore<L>,
    touched: &Touched,
    kept: &[Carry],
    reads: &mut Reads<L>,
) -> Result<Forth, ForwardError>
    requires order { touched.now.first ≤ touched.now.last }
    requires within { touched.now.last < length store.now.hours }
    requires kept { AreCarriesBut config.now store.now touched.now.first touched.now.last kept.now }
    requires stays { CarriesFit config.now store.now touched.now.same.items kept.now }
    ensures store { IsStore store.now }
    ensures states { IfOk result (λ f. AreNewPasts config.now store.now touched.now.first
        touched.now.last kept.now f.states.items) }
    ensures courses { IfOk result (λ f. IfSome f.courses (HasCourses config.now store.now
        touched.now.first)) }
    ensures stop { IfErr result (NamesRow (log_of config.now.specs store.now)) }
    ensures opens { IfOk result (λ f. AreOpened touched.now.first
        (touched.now.first + length f.states.items) 1 1 reads.old reads.new) }
    ensures opens_to_row { IfErr result (OpensToRow touched.now.first reads.old reads.new) }
    ensures grow { Grow reads.old reads.new }
{
    let first = touched.first;
    let last = touched.last;
    let told = Told { touched, kept };
    let mut courses = None;
    let mut fresh = Vec::new(alloc);
    for hour in first..store.hours() {
        let before = last_states(&kept[first as usize], fresh.as_slice());
        let next = next_states(alloc, config, store, &told, hour, before, reads)?;
        let Reached {
            pasts,
            courses: own,
        } = next;
        courses = first_courses(first, hour, courses, own);
        let done = is_behind(last, hour, &pasts, &kept[hour as usize + 1]);
        fresh.push(pasts)?;
        if done {
            return Ok(Forth {
                states: fresh,
                courses,
            });
        }
    }
    Ok(Forth {
        states: fresh,
        courses,
    })
}

// Whether the last hour that is changed is behind, and nothing changes at the point after this one.
fn is_over(last: Hour, hour: Hour, next: &Carry, kept: &Carry) -> bool
    ensures value { IsTrue result ↔ ((last ≤ hour) × (next.now ≡ kept.now)) }
    ensures says { IsTrue result ↔ ((last ≤ hour) × SaySame next.now kept.now) }
{
    last <= hour && next.same(kept)
}

/// What is kept at hour points, and the courses of the first hour where they are made.
#[derive(Drop)]
pub struct Across {
    pub carries: Vec<Carry>,
    pub courses: Option<Courses>,
}

/// All that is kept at the points after the first hour that is changed, up to the first one after
/// the last hour at which nothing changes, or up to the window's end. No numbers are made.
pub fn go_across<L>(
    alloc: Global,
    config: &Config,
    store: &HourStore<L>,
    touched: &Touched,
    kept: &[Carry],
    reads: &mut Reads<L>,
) -> Result<Across, ForwardError>
    requires order { touched.now.first ≤ touched.now.last }
    requires within { touched.now.last < length store.now.hours }
    requires kept { AreCarriesBut config.now store.now touched.now.first touched.now.last kept.now }
    requires stays { CarriesFit config.now store.now touched.now.same.items kept.now }
    ensures store { IsStore store.now }
    ensures carries { IfOk result (λ f. AreNewCarries config.now store.now touched.now.first
        touched.now.last kept.now f.carries.items) }
    ensures courses { IfOk result (λ f. IfSome f.courses (HasCourses config.now store.now
        touched.now.first)) }
    ensures stop { IfErr result (NamesRow (log_of config.now.specs store.now)) }
    ensures opens { IfOk result (λ f. AreOpened touched.now.first
        (touched.now.first + length f.carries.items) 1 1 reads.old reads.new) }
    ensures opens_to_row { IfErr result (OpensToRow touched.now.first reads.old reads.new) }
    ensures grow { Grow reads.old reads.new }
{
    let first = touched.first;
    let last = touched.last;
    let told = Told { touched, kept };
    let mut courses = None;
    let mut fresh = Vec::new(alloc);
    for hour in first..store.hours() {
        let place = hour as usize;
        let before = pick(kept, first as usize + 1, fresh.as_slice(), place);
        let next = next_carry(alloc, config, store, &told, hour, before, reads)?;
        let Crossed {
            carry,
            courses: own,
        } = next;
        courses = first_courses(first, hour, courses, own);
        let done = is_over(last, hour, &carry, &kept[place + 1]);
        fresh.push(carry)?;
        if done {
            return Ok(Across {
                carries: fresh,
                courses,
            });
        }
    }
    Ok(Across {
        carries: fresh,
        courses,
    })
}
