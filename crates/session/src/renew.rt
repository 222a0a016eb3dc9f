// What is kept of a store, and what an edit puts in its place.
ghost use Rattle.std.specs.Prelude.{◌≡◌, ℕ, true, false, ◌+◌, ◌++◌, ◌<◌, ◌≤◌, drop, length, reverse, slice_index_or, All, IfSome, IfOk, IfErr, IsTrue, OnOk, ◌↔◌};
ghost use Rattle.hour_store.specs.Store.{IsStore, Store};
ghost use Rattle.ring_config.specs.Settings.{Settings};
ghost use Rattle.signal_log.specs.Log.{HasHistory, log_of};
ghost use Rattle.ring_config.specs.Sound.{IsSound};
ghost use Rattle.rule_audit.specs.Rules.{rules_for};
ghost use Rattle.hour_work.specs.Moved.{SaySame};
ghost use Rattle.hour_work.specs.Numbers.{FitHours, patched};
ghost use Rattle.signal_log.specs.Points.{ArePastsAt};
ghost use Rattle.hour_work.specs.Points.{NamesRow};
ghost use Rattle.session.specs.Links.{AreCarriesBut, AreFutures, AreFuturesBut, AreKeptAt, AreKeptBut, CarriesFit, FuturesFit, HasCourses, IsGone, StatesLead};
ghost use Rattle.session.specs.Opens.{AreOpened, OpensToRow, most_opens};
ghost use Rattle.session.specs.Renewed.{AreCarriesTo, AreNewCarries, AreNewFutures, AreNewParts, AreNewPasts, AreNumbered, AreSameUpTo, HaveShapes, IsRenewed, do_wait, put_numbers};
ghost use Rattle.sig_base.specs.Reads.{Grow};

use crate::backward::{Returning, go_back};
use crate::forward::{Across, Forth, go_across, go_forward};
use crate::hours::Touched;
use crate::marks::{marks_of, none_waiting};
use crate::steps::{Gone, Step, part_between, work_between};
use board::{About, Courses, Pasts};
use hour_store::HourStore;
use hour_work::{Between, Carry, ForwardError, Future, Known, Partial, Report, Sums, pick, put_in};
use ring_config::Config;
use rule_audit::Rule;
use sig_base::{Applied, Hour, NoMemory, Reads};
use std::alloc::Global;

/// What is kept at each hour point of the hours before it and after it, and the numbers of each
/// hour; those of an hour that is waiting aren't worked out yet.
#[derive(Drop)]
pub struct Worked {
    pub carries: Vec<Carry>,
    pub futures: Vec<Future>,
    pub report: Report,
    pub waiting: Vec<bool>,
}

/// What is new at hour points: the carries of the points after the hour `first`, and the futures of
/// the points from `from` on.
#[derive(Drop)]
pub struct Points {
    pub first: Hour,
    pub carries: Vec<Carry>,
    pub from: Hour,
    pub futures: Vec<Future>,
}

/// The numbers of hours, and the sums that they change.
#[derive(Drop)]
pub struct Numbered {
    pub parts: Vec<Partial>,
    pub sums: Sums,
}

/// What comes in the place of what is kept: what is new at hour points, of the hours from `start`
/// on whether their numbers wait, and these numbers, or none where an edit's may wait.
#[derive(Drop)]
pub struct Fresh {
    pub points: Points,
    pub start: Hour,
    pub marks: Vec<bool>,
    pub numbers: Option<Numbered>,
}

/// The hours between the points at which nothing changes.
pub fn moved(points: &Points) -> Applied
    requires { points.now.first + length points.now.carries.items ≤ 744 }
    ensures from { result.from ≡ points.now.from }
    ensures to { result.to ≡ points.now.first + length points.now.carries.items }
{
    Applied {
        from: points.from,
        to: points.first + points.carries.len() as u32,
    }
}

// What is new at hour points of the states alone: those of each channel at the points after the
// first hour that an edit touches, and the futures of the points from `from` on.
#[derive(Drop)]
struct Ways {
    first: Hour,
    last: Hour,
    states: Vec<Pasts>,
    // Of the first hour that an edit touches, where they are made already.
    courses: Option<Courses>,
    from: Hour,
    futures: Vec<Future>,
}

// The first hour whose numbers may change: from the first one after which other states can be
// completed, where one of these can come up there.
fn start_of(worked: &Worked, first: Hour, from: Hour, futures: &[Future]) -> Hour
    requires order { from ≤ first }
    requires carry_room { first < length worked.now.carries.items }
    requires future_room { from + length futures.now ≤ length worked.now.futures.items }
    requires last { first < length worked.now.futures.items }
    requires shape { HaveShapes worked.now.carries.items worked.now.futures.items from futures.now
        first }
    ensures low { from ≤ result }
    ensures high { result ≤ first }
    ensures same { AreSameUpTo worked.now.carries.items worked.now.futures.items from futures.now
        result }
{
    for hour in from..first {
        let place = hour as usize + 1;
        let kept = &worked.futures[place];
        let next = pick(worked.futures.as_slice(), from as usize, futures, place);
        if !kept.same_for(&worked.carries[place], next) {
            return hour;
        }
    }
    first
}

// The numbers of the hours from `start` on.
#[derive(Drop)]
struct NewParts {
    start: Hour,
    parts: Vec<Partial>,
}

// The numbers of the hours before the first one that is touched, from the first one on whose
// numbers may change.
fn new_parts<L>(
    alloc: Global,
    config: &Config,
    rules: &[Rule],
    store: &HourStore<L>,
    worked: &Worked,
    ways: &Ways,
    reads: &mut Reads<L>,
) -> Result<NewParts, NoMemory>
    requires rules { rules.now ≡ rules_for config.now }
    requires store { IsStore store.now }
    requires order { ways.now.from ≤ ways.now.first }
    requires within { ways.now.first < length store.now.hours }
    requires carry_room { ways.now.first < length worked.now.carries.items }
    requires future_room { ways.now.from + length ways.now.futures.items
        ≤ length worked.now.futures.items }
    requires last { ways.now.first < length worked.now.futures.items }
    requires shape { HaveShapes worked.now.carries.items worked.now.futures.items ways.now.from
        ways.now.futures.items ways.now.first }
    requires forth { AreCarriesTo config.now store.now ways.now.first
        worked.now.carries.items }
    requires back { AreFutures config.now store.now (patched worked.now.futures.items
        ways.now.from ways.now.futures.items) }
    requires history { HasHistory (log_of config.now.specs store.now) }
    ensures low { IfOk result (λ v. ways.now.from ≤ v.start) }
    ensures high { IfOk result (λ v. v.start ≤ ways.now.first) }
    ensures same { IfOk result (λ v. AreSameUpTo worked.now.carries.items worked.now.futures.items
        ways.now.from ways.now.futures.items v.start) }
    ensures parts { IfOk result (λ v. AreNewParts config.now store.now worked.now.carries.items
        (patched worked.now.futures.items ways.now.from ways.now.futures.items) v.start
        ways.now.first v.parts.items) }
    ensures opens { IfOk result (λ v. AreOpened v.start ways.now.first 1 1 reads.old
        reads.new) }
    ensures grow { Grow reads.old reads.new }
{
    let start = start_of(worked, ways.first, ways.from, &ways.futures);
    let mut parts = Vec::new(alloc);
    for hour in start..ways.first {
        let place = hour as usize;
        let before = &worked.carries[place];
        let after = pick(
            worked.futures.as_slice(),
            ways.from as usize,
            ways.futures.as_slice(),
            place + 1,
        );
        let between = Between { before, after };
        let part = part_between(alloc, config, rules, store, hour, &between, reads)?;
        parts.push(part)?;
    }
    Ok(NewParts { start, parts })
}

// The last of these states, which is taken out, or where there are none those that are kept.
fn next_states(states: &mut Vec<Pasts>, kept: &Carry) -> Result<Pasts, NoMemory>
    ensures value { IfOk result (λ p. p ≡ slice_index_or (reverse states.old.items) 0
        kept.now.pasts) }
    ensures rest { reverse states.new.items ≡ drop 1 (reverse states.old.items) }
{
    match states.pop() {
        Some(pasts) => Ok(pasts),
        None => kept.pasts().copy(),
    }
}

// The courses of the hour, where it is the first and they are made already: they are taken out.
fn own_courses(first: Hour, hour: Hour, courses: &mut Option<Courses>) -> Option<Courses>
    ensures own { (c : Settings) (s : Store) → IfSome courses.old (HasCourses c s first)
        → IfSome result (HasCourses c s hour) }
    ensures stay { (c : Settings) (s : Store) → IfSome courses.old (HasCourses c s first)
        → IfSome courses.new (HasCourses c s first) }
{
    if hour == first { courses.take() } else { None }
}

// Whether no new states are left, and nothing changes at the point.
fn is_settled(left: &[Pasts], next: &Carry, kept: &Carry) -> bool
    ensures value { IsTrue result ↔ ((length left.now ≡ 0) × (next.now ≡ kept.now)) }
    ensures says { IsTrue result ↔ ((length left.now ≡ 0) × SaySame next.now kept.now) }
{
    left.is_empty() && next.same(kept)
}

// What is new at hour points, and the numbers of the hours from the first one that is touched up to
// the last point at which something is new.
#[derive(Drop)]
struct NewWork {
    points: Points,
    parts: Vec<Partial>,
}

// All that is new of the hours from the first one that is touched on, up to the first one after the
// last at which nothing changes, or up to the window's end.
fn new_work<L>(
    alloc: Global,
    config: &Config,
    rules: &[Rule],
    store: &HourStore<L>,
    worked: &Worked,
    ways: Ways,
    reads: &mut Reads<L>,
) -> Result<NewWork, NoMemory>
    requires rules { rules.now ≡ rules_for config.now }
    requires kept { AreKeptBut config.now store.now ways.first ways.last
        worked.now.waiting.items worked.now.carries.items worked.now.futures.items
        worked.now.report }
    requires states { AreNewPasts config.now store.now ways.first ways.last
        worked.now.carries.items ways.states.items }
    requires futures { AreNewFutures config.now store.now ways.first ways.last
        worked.now.futures.items ways.from ways.futures.items }
    requires courses { IfSome ways.courses (HasCourses config.now store.now ways.first) }
    requires history { HasHistory (log_of config.now.specs store.now) }
    ensures first { IfOk result (λ w. w.points.first ≡ ways.first) }
    ensures carries { IfOk result (λ w. AreNewCarries config.now store.now ways.first
        ways.last worked.now.carries.items w.points.carries.items) }
    ensures from { IfOk result (λ w. w.points.from ≡ ways.from) }
    ensures futures { IfOk result (λ w. w.points.futures.items ≡ ways.futures.items) }
    ensures parts { IfOk result (λ w. AreNewParts config.now store.now (patched
        worked.now.carries.items (ways.first + 1) w.points.carries.items) (patched
        worked.now.futures.items ways.from ways.futures.items) ways.first
        (ways.first + length w.points.carries.items) w.parts.items) }
    ensures all { IfOk result (λ w. length ways.states.items ≤ length w.points.carries.items) }
    ensures opens { IfOk result (λ w. AreOpened ways.first (ways.first
        + length w.points.carries.items) 1 1 reads.old reads.new) }
    ensures grow { Grow reads.old reads.new }
{
    let Ways {
        first,
        mut states,
        mut courses,
        from,
        futures,
        ..
    } = ways;
    // The states of the first hour are then the last ones, and a list gives its last one at once.
    states.reverse();
    let kept = worked.carries.as_slice();
    let ahead = worked.futures.as_slice();
    let mut carries = Vec::new(alloc);
    let mut parts = Vec::new(alloc);
    for hour in first..store.hours() {
        let place = hour as usize;
        let before = pick(kept, first as usize + 1, carries.as_slice(), place);
        let after = pick(ahead, from as usize, futures.as_slice(), place + 1);
        let between = Between { before, after };
        let there = &kept[place + 1];
        let pasts = next_states(&mut states, there)?;
        let own = own_courses(first, hour, &mut courses);
        let known = Known {
            pasts,
            courses: own,
        };
        let step = Step { hour, known };
        let work = work_between(alloc, config, rules, store, step, &between, reads)?;
        let done = is_settled(states.as_slice(), &work.carry, there);
        carries.push(work.carry)?;
        parts.push(work.part)?;
        if done {
            break;
        }
    }
    let points = Points {
        first,
        carries,
        from,
        futures,
    };
    Ok(NewWork { points, parts })
}

// The first numbers, and the others after them.
fn joined(first: Vec<Partial>, mut others: Vec<Partial>) -> Result<Vec<Partial>, NoMemory>
    ensures { IfOk result (λ v. v.items ≡ first.items ++ others.items) }
{
    let mut parts = first;
    parts.append(&mut others)?;
    Ok(parts)
}

// How an hour was gone over forward, where its courses are made.
fn gone_over<'a>(
    courses: Option<&'a Courses>,
    before: &'a Pasts,
    after: &'a Pasts,
) -> Option<Gone<'a>>
    ensures { (c : Settings) (s : Store) (hour : ℕ)
        → IfSome courses.entry (λ x. HasCourses c s hour x.now)
        → ArePastsAt (log_of c.specs s) hour before.now → StatesLead c s hour before.now after.now
        → IfSome result (λ g. IsGone c s hour g.courses.now g.states.before.now
        g.states.after.now) }
{
    match courses {
        Some(courses) => Some(Gone {
            courses,
            states: About { before, after },
        }),
        None => None,
    }
}

// What is new at hour points of the states alone, where what is kept fits the store but for the
// hours that are touched.
fn ways_of<L>(
    alloc: Global,
    config: &Config,
    store: &HourStore<L>,
    worked: &Worked,
    touched: &Touched,
    reads: &mut Reads<L>,
) -> Result<Ways, ForwardError>
    requires order { touched.now.first ≤ touched.now.last }
    requires within { touched.now.last < length store.now.hours }
    requires forth { AreCarriesBut config.now store.now touched.now.first touched.now.last
        worked.now.carries.items }
    requires back { AreFuturesBut config.now store.now touched.now.first touched.now.last
        worked.now.futures.items }
    requires stays_forth { CarriesFit config.now store.now touched.now.same.items
        worked.now.carries.items }
    requires stays_back { FuturesFit config.now store.now touched.now.same.items
        worked.now.futures.items }
    ensures store { IsStore store.now }
    ensures first { IfOk result (λ w. w.first ≡ touched.now.first) }
    ensures last { IfOk result (λ w. w.last ≡ touched.now.last) }
    ensures states { IfOk result (λ w. AreNewPasts config.now store.now touched.now.first
        touched.now.last worked.now.carries.items w.states.items) }
    ensures courses { IfOk result (λ w. IfSome w.courses (HasCourses config.now store.now
        touched.now.first)) }
    ensures futures { IfOk result (λ w. AreNewFutures config.now store.now touched.now.first
        touched.now.last worked.now.futures.items w.from w.futures.items) }
    ensures stop { IfErr result (NamesRow (log_of config.now.specs store.now)) }
    ensures opens { IfOk result (λ w. AreOpened w.from (touched.now.first
        + length w.states.items) 1 2 reads.old reads.new) }
    ensures opens_to_row { IfErr result (OpensToRow touched.now.first reads.old reads.new) }
    ensures grow { Grow reads.old reads.new }
{
    let Forth { states, courses } = go_forward(
        alloc,
        config,
        store,
        touched,
        &worked.carries,
        reads,
    )?;
    let kept = worked.futures.as_slice();
    let before = worked.carries[touched.first as usize].pasts();
    let told = Returning {
        touched,
        kept,
        gone: gone_over(courses.as_ref(), before, &states[0]),
    };
    let futures = go_back(alloc, config, store, &told, reads)?;
    let from = touched.last + 1 - futures.len() as u32;
    Ok(Ways {
        first: touched.first,
        last: touched.last,
        states,
        courses,
        from,
        futures,
    })
}

// What is new, with the numbers of the hours that it changes.
fn work_out<L>(
    alloc: Global,
    config: &Config,
    rules: &[Rule],
    store: &HourStore<L>,
    worked: &Worked,
    touched: &Touched,
    reads: &mut Reads<L>,
) -> Result<Fresh, ForwardError>
    requires rules { rules.now ≡ rules_for config.now }
    requires sound { IsSound config.now }
    requires kept { AreKeptBut config.now store.now touched.now.first touched.now.last
        worked.now.waiting.items worked.now.carries.items worked.now.futures.items
        worked.now.report }
    requires stays { AreKeptAt config.now store.now touched.now.same.items worked.now.waiting.items
        worked.now.carries.items worked.now.futures.items worked.now.report }
    ensures store { IsStore store.now }
    ensures first { IfOk result (λ f. f.points.first ≡ touched.now.first) }
    ensures carries { IfOk result (λ f. AreNewCarries config.now store.now touched.now.first
        touched.now.last worked.now.carries.items f.points.carries.items) }
    ensures futures { IfOk result (λ f. AreNewFutures config.now store.now touched.now.first
        touched.now.last worked.now.futures.items f.points.from f.points.futures.items) }
    ensures fresh { IfOk result (λ f. IsRenewed config.now store.now worked.now.waiting.items
        worked.now.carries.items f.points.first f.points.carries.items worked.now.futures.items
        f.points.from f.points.futures.items worked.now.report f.start f.marks.items
        f.numbers) }
    ensures numbers { IfOk result (λ f. do_wait f.numbers ≡ false) }
    ensures history { OnOk result (HasHistory (log_of config.now.specs store.now)) }
    ensures stop { IfErr result (NamesRow (log_of config.now.specs store.now)) }
    ensures opens { IfOk result (λ f. AreOpened f.points.from
        (f.points.first + length f.points.carries.items) 1 3 reads.old reads.new) }
    ensures opens_to_row { IfErr result (OpensToRow touched.now.first reads.old reads.new) }
    ensures grow { Grow reads.old reads.new }
{
    let ways = ways_of(alloc, config, store, worked, touched, reads)?;
    let new = new_parts(alloc, config, rules, store, worked, &ways, reads)?;
    let work = new_work(alloc, config, rules, store, worked, ways, reads)?;
    let parts = joined(new.parts, work.parts)?;
    let sums = worked.report.sums_with(alloc, new.start as usize, &parts)?;
    let marks = none_waiting(alloc, parts.as_slice().len())?;
    Ok(Fresh {
        points: work.points,
        start: new.start,
        marks,
        numbers: Some(Numbered { parts, sums }),
    })
}

// What is new, where the numbers of the hours that it changes wait.
fn put_off<L>(
    alloc: Global,
    config: &Config,
    store: &HourStore<L>,
    worked: &Worked,
    touched: &Touched,
    reads: &mut Reads<L>,
) -> Result<Fresh, ForwardError>
    requires sound { IsSound config.now }
    requires kept { AreKeptBut config.now store.now touched.now.first touched.now.last
        worked.now.waiting.items worked.now.carries.items worked.now.futures.items
        worked.now.report }
    requires stays { AreKeptAt config.now store.now touched.now.same.items worked.now.waiting.items
        worked.now.carries.items worked.now.futures.items worked.now.report }
    ensures store { IsStore store.now }
    ensures first { IfOk result (λ f. f.points.first ≡ touched.now.first) }
    ensures carries { IfOk result (λ f. AreNewCarries config.now store.now touched.now.first
        touched.now.last worked.now.carries.items f.points.carries.items) }
    ensures futures { IfOk result (λ f. AreNewFutures config.now store.now touched.now.first
        touched.now.last worked.now.futures.items f.points.from f.points.futures.items) }
    ensures fresh { IfOk result (λ f. IsRenewed config.now store.now worked.now.waiting.items
        worked.now.carries.items f.points.first f.points.carries.items worked.now.futures.items
        f.points.from f.points.futures.items worked.now.report f.start f.marks.items
        f.numbers) }
    ensures numbers { IfOk result (λ f. do_wait f.numbers ≡ true) }
    ensures history { OnOk result (HasHistory (log_of config.now.specs store.now)) }
    ensures stop { IfErr result (NamesRow (log_of config.now.specs store.now)) }
    ensures opens { IfOk result (λ f. AreOpened f.points.from
        (f.points.first + length f.points.carries.items) 1 2 reads.old reads.new) }
    ensures opens_to_row { IfErr result (OpensToRow touched.now.first reads.old reads.new) }
    ensures grow { Grow reads.old reads.new }
{
    let Across { carries, courses } = go_across(
        alloc,
        config,
        store,
        touched,
        &worked.carries,
        reads,
    )?;
    let kept = worked.futures.as_slice();
    let before = worked.carries[touched.first as usize].pasts();
    let told = Returning {
        touched,
        kept,
        gone: gone_over(courses.as_ref(), before, carries[0].pasts()),
    };
    let futures = go_back(alloc, config, store, &told, reads)?;
    let from = touched.last + 1 - futures.len() as u32;
    let points = Points {
        first: touched.first,
        carries,
        from,
        futures,
    };
    let marks = marks_of(alloc, worked, touched, &points)?;
    Ok(Fresh {
        points,
        start: from,
        marks,
        numbers: None,
    })
}

/// What comes in the place of what is kept, where that fits the store but for the hours that are
/// touched, and for those of them that are told to be as they were. Where they may wait, the
/// numbers of the hours that change aren't worked out.
/// `Contradiction` comes where the log contradicts itself.
pub fn renew<L>(
    alloc: Global,
    config: &Config,
    rules: &[Rule],
    store: &HourStore<L>,
    worked: &Worked,
    touched: &Touched,
    reads: &mut Reads<L>,
) -> Result<Fresh, ForwardError>
    requires rules { rules.now ≡ rules_for config.now }
    requires sound { IsSound config.now }
    requires kept { AreKeptBut config.now store.now touched.now.first touched.now.last
        worked.now.waiting.items worked.now.carries.items worked.now.futures.items
        worked.now.report }
    requires stays { AreKeptAt config.now store.now touched.now.same.items worked.now.waiting.items
        worked.now.carries.items worked.now.futures.items worked.now.report }
    ensures store { IsStore store.now }
    ensures first { IfOk result (λ f. f.points.first ≡ touched.now.first) }
    ensures carries { IfOk result (λ f. AreNewCarries config.now store.now touched.now.first
        touched.now.last worked.now.carries.items f.points.carries.items) }
    ensures futures { IfOk result (λ f. AreNewFutures config.now store.now touched.now.first
        touched.now.last worked.now.futures.items f.points.from f.points.futures.items) }
    ensures fresh { IfOk result (λ f. IsRenewed config.now store.now worked.now.waiting.items
        worked.now.carries.items f.points.first f.points.carries.items worked.now.futures.items
        f.points.from f.points.futures.items worked.now.report f.start f.marks.items
        f.numbers) }
    ensures numbers { IfOk result (λ f. do_wait f.numbers ≡ touched.now.may_wait) }
    ensures history { OnOk result (HasHistory (log_of config.now.specs store.now)) }
    ensures stop { IfErr result (NamesRow (log_of config.now.specs store.now)) }
    ensures opens { IfOk result (λ f. AreOpened f.points.from
        (f.points.first + length f.points.carries.items) 1 (most_opens touched.now.may_wait)
        reads.old reads.new) }
    ensures opens_to_row { IfErr result (OpensToRow touched.now.first reads.old reads.new) }
    ensures grow { Grow reads.old reads.new }
{
    if touched.may_wait {
        put_off(alloc, config, store, worked, touched, reads)
    } else {
        work_out(alloc, config, rules, store, worked, touched, reads)
    }
}

// Puts the numbers in the place of those of as many hours from this one on, where there are some.
fn put_numbers(report: &mut Report, start: Hour, numbers: Option<Numbered>)
    requires { (end : ℕ) × (end ≤ length report.old) × AreNumbered report.old start end numbers }
    ensures { report.new ≡ put_numbers report.old start numbers }
{
    if let Some(Numbered { mut parts, sums }) = numbers {
        report.exchange(start as usize, parts.as_mut_slice(), sums);
    }
}

/// Puts it in the place of what is kept.
pub fn adopt(worked: &mut Worked, fresh: Fresh)
    requires carry_room { fresh.points.first + 1 + length fresh.points.carries.items
        ≤ length worked.old.carries.items }
    requires future_room { fresh.points.from + length fresh.points.futures.items
        ≤ length worked.old.futures.items }
    requires room { fresh.start + length fresh.marks.items ≤ length worked.old.waiting.items }
    requires part_room { fresh.points.first + length fresh.points.carries.items
        ≤ length worked.old.report }
    requires numbered { AreNumbered worked.old.report fresh.start
        (fresh.points.first + length fresh.points.carries.items) fresh.numbers }
    ensures carries { worked.new.carries.items ≡ patched worked.old.carries.items
        (fresh.points.first + 1) fresh.points.carries.items }
    ensures futures { worked.new.futures.items ≡ patched worked.old.futures.items fresh.points.from
        fresh.points.futures.items }
    ensures report { worked.new.report ≡ put_numbers worked.old.report fresh.start fresh.numbers }
    ensures waiting { worked.new.waiting.items ≡ patched worked.old.waiting.items fresh.start
        fresh.marks.items }
{
    let Fresh {
        points,
        start,
        mut marks,
        numbers,
    } = fresh;
    let Points {
        first,
        mut carries,
        from,
        mut futures,
    } = points;
    put_in(&mut worked.waiting, start as usize, marks.as_mut_slice());
    put_in(
        &mut worked.carries,
        first as usize + 1,
        carries.as_mut_slice(),
    );
    put_in(&mut worked.futures, from as usize, futures.as_mut_slice());
    put_numbers(&mut worked.report, start, numbers);
}
