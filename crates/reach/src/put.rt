// States that are looked up and put in one colour at a time.
ghost use Rattle.std.specs.Prelude.{◌≡◌, ℕ, ℤ, pos, negsuc, ◌+ℤ◌, ◌≤ℤ◌, ◌<ℤ◌, ◌<◌, ◌≤◌, ◌^◌, ◌⊎◌, ◌↔◌, ◌+◌, length, OnOk};
ghost use Rattle.span_set.specs.Spans.{AreRanges, Member, Within};
ghost use Rattle.span_set.specs.Changes.{span};
ghost use Rattle.reach.specs.Runs.{State};
ghost use Rattle.reach.specs.Past.{Holds};
ghost use Rattle.reach.specs.Ahead.{NotLater, Admits};
ghost use Rattle.reach.specs.Sets.{set_of};
ghost use Rattle.reach.specs.Tests.{InBound};
ghost use Rattle.reach.specs.Put.{LeftAt, LeftFrom};

use crate::ahead::Ahead;
use crate::past::{Past, spread};
use crate::seen::AgeBound;
use sig_base::{NoMemory, Tenth};
use span_set::{Span, SpanSet};

/// When a colour may be left: at the tenths from `from` up to but without `to`, at an age of at
/// least the floor that meets the bound.
#[derive(Clone, Copy, Debug, PartialEq, Eq)]
pub struct Times {
    pub from: Tenth,
    pub to: Tenth,
    pub floor: u32,
    pub bound: AgeBound,
}

/// Adds to the set the tenths at which the colour may be left.
pub fn past_leave(past: &Past, colour: u8, times: Times, into: &mut SpanSet) -> Result<(), NoMemory>
    requires colour { colour < length past.now }
    requires low { negsuc (2 ^ 39) ≤ℤ times.from }
    requires high { times.to ≤ℤ pos (2 ^ 39) }
    ensures { OnOk result ((t : ℤ) → Member into.new t
        ↔ (Member into.old t ⊎ LeftFrom (set_of past.now colour) times t)) }
{
    match past.one {
        None => leave_ranges(past.sets[colour as usize].ranges(), times, into),
        Some(one) if one.colour == colour => leave_range(
            Span {
                from: one.entry,
                to: one.entry + 1,
            },
            times,
            into,
        ),
        Some(_) => Ok(()),
    }
}

// The same, of ranges. An age that meets the bound meets it as well where it is greater, but for an
// upper bound: so the first range tells all there.
fn leave_ranges(ranges: &[Span], times: Times, into: &mut SpanSet) -> Result<(), NoMemory>
    requires ordered { AreRanges ranges.now }
    requires low { negsuc (2 ^ 39) ≤ℤ times.from }
    requires high { times.to ≤ℤ pos (2 ^ 39) }
    ensures { OnOk result ((t : ℤ) → Member into.new t
        ↔ (Member into.old t ⊎ LeftFrom ranges.now times t)) }
{
    match times.bound {
        AgeBound::Any => leave_first(ranges, times, into),
        AgeBound::AtLeast(_) => leave_first(ranges, times, into),
        AgeBound::AtMost(_) => leave_each(ranges, times, into),
    }
}

// The same, where an older entry meets the bound too.
fn leave_first(ranges: &[Span], times: Times, into: &mut SpanSet) -> Result<(), NoMemory>
    requires ordered { AreRanges ranges.now }
    requires low { negsuc (2 ^ 39) ≤ℤ times.from }
    requires high { times.to ≤ℤ pos (2 ^ 39) }
    requires older { (t e f : ℤ) → f ≤ℤ e → InBound times.bound t e → InBound times.bound t f }
    ensures { OnOk result ((t : ℤ) → Member into.new t
        ↔ (Member into.old t ⊎ LeftFrom ranges.now times t)) }
{
    if ranges.len() == 0 {
        return Ok(());
    }
    leave_range(ranges[0], times, into)
}

// The same, of each range for itself.
fn leave_each(ranges: &[Span], times: Times, into: &mut SpanSet) -> Result<(), NoMemory>
    requires ordered { AreRanges ranges.now }
    requires low { negsuc (2 ^ 39) ≤ℤ times.from }
    requires high { times.to ≤ℤ pos (2 ^ 39) }
    ensures { OnOk result ((t : ℤ) → Member into.new t
        ↔ (Member into.old t ⊎ LeftFrom ranges.now times t)) }
{
    for i in 0..ranges.len() {
        leave_range(ranges[i], times, into)?;
    }
    Ok(())
}

// The same, of one range.
fn leave_range(range: Span, times: Times, into: &mut SpanSet) -> Result<(), NoMemory>
    requires begin { negsuc (2 ^ 40) <ℤ range.from }
    requires some { range.from <ℤ range.to }
    requires end { range.to ≤ℤ pos (2 ^ 40 + 1) }
    requires low { negsuc (2 ^ 39) ≤ℤ times.from }
    requires high { times.to ≤ℤ pos (2 ^ 39) }
    ensures { OnOk result ((t : ℤ) → Member into.new t
        ↔ (Member into.old t ⊎ ((e : ℤ) × Within range e × LeftAt times e t))) }
{
    let first = aged(range.from, times.floor);
    match times.bound {
        AgeBound::Any => add_since(into, first, times),
        AgeBound::AtLeast(age) => {
            let later = aged(range.from, age);
            add_since(into, first.max(later), times)
        }
        AgeBound::AtMost(age) if times.floor <= age => {
            let end = aged(range.to, age);
            add_within(into, first, end, times)
        }
        AgeBound::AtMost(_) => Ok(()),
    }
}

// The tenth at which the age is reached.
fn aged(entry: Tenth, age: u32) -> Tenth
    requires low { negsuc (2 ^ 40) <ℤ entry }
    requires high { entry ≤ℤ pos (2 ^ 40 + 1) }
    ensures { result ≡ (entry +ℤ pos age) }
{
    entry + i64::from(age)
}

// Adds what the times have of the tenths from `first` on.
fn add_since(set: &mut SpanSet, first: Tenth, times: Times) -> Result<(), NoMemory>
    requires low { negsuc (2 ^ 39) ≤ℤ times.from }
    requires high { times.to ≤ℤ pos (2 ^ 39) }
    ensures { OnOk result ((t : ℤ) → Member set.new t ↔ (Member set.old t
        ⊎ ((times.from ≤ℤ t) × (t <ℤ times.to) × (first ≤ℤ t)))) }
{
    let from = first.max(times.from);
    if from < times.to {
        set.add(from, times.to)?;
        return Ok(());
    }
    Ok(())
}

// The same up to but without `end`.
fn add_within(set: &mut SpanSet, first: Tenth, end: Tenth, times: Times) -> Result<(), NoMemory>
    requires low { negsuc (2 ^ 39) ≤ℤ times.from }
    requires high { times.to ≤ℤ pos (2 ^ 39) }
    ensures { OnOk result ((t : ℤ) → Member set.new t ↔ (Member set.old t
        ⊎ ((times.from ≤ℤ t) × (t <ℤ times.to) × (first ≤ℤ t) × (t <ℤ end)))) }
{
    let from = first.max(times.from);
    let to = end.min(times.to);
    if from < to {
        set.add(from, to)?;
        return Ok(());
    }
    Ok(())
}

/// Adds the states of the colour that are entered at these tenths.
pub fn past_put(past: &mut Past, colour: u8, tenths: &SpanSet) -> Result<(), NoMemory>
    requires colour { colour < length past.old }
    requires high { (e : ℤ) → Member tenths.now e → e <ℤ pos (2 ^ 40) }
    ensures states { OnOk result ((s : State) → Holds past.new s
        ↔ (Holds past.old s ⊎ ((s.colour ≡ colour) × Member tenths.now s.entry))) }
    ensures colours { length past.new ≡ length past.old }
{
    match past.one {
        None => put_in(past.sets.as_mut_slice(), colour, tenths),
        Some(one) => {
            spread(past.alloc, &mut past.sets, one)?;
            put_in(past.sets.as_mut_slice(), colour, tenths)?;
            past.one = None;
            Ok(())
        }
    }
}

fn put_in(sets: &mut [SpanSet], colour: u8, tenths: &SpanSet) -> Result<(), NoMemory>
    requires colour { colour < length sets.old }
    requires high { (e : ℤ) → Member tenths.now e → e <ℤ pos (2 ^ 40) }
    ensures states { OnOk result ((s : State) → Holds sets.new s
        ↔ (Holds sets.old s ⊎ ((s.colour ≡ colour) × Member tenths.now s.entry))) }
    ensures colours { length sets.new ≡ length sets.old }
{
    add_set(&mut sets[colour as usize], tenths)
}

fn add_set(set: &mut SpanSet, tenths: &SpanSet) -> Result<(), NoMemory>
    requires { (e : ℤ) → Member tenths.now e → e <ℤ pos (2 ^ 40) }
    ensures { OnOk result ((e : ℤ) → Member set.new e ↔ (Member set.old e ⊎ Member tenths.now e)) }
{
    add_ranges(set, tenths.ranges())
}

fn add_ranges(set: &mut SpanSet, ranges: &[Span]) -> Result<(), NoMemory>
    requires ordered { AreRanges ranges.now }
    requires high { (e : ℤ) → Member ranges.now e → e <ℤ pos (2 ^ 40) }
    ensures { OnOk result ((e : ℤ) → Member set.new e ↔ (Member set.old e ⊎ Member ranges.now e)) }
{
    for i in 0..ranges.len() {
        add_range(set, ranges[i])?;
    }
    Ok(())
}

fn add_range(set: &mut SpanSet, range: Span) -> Result<(), NoMemory>
    requires low { negsuc (2 ^ 40) <ℤ range.from }
    requires some { range.from <ℤ range.to }
    requires high { range.to ≤ℤ pos (2 ^ 40) }
    ensures { OnOk result ((e : ℤ) → Member set.new e ↔ (Member set.old e ⊎ Within range e)) }
{
    set.add(range.from, range.to)?;
    Ok(())
}

/// Admits the states of the colour up to the entry too.
pub fn ahead_raise(ahead: &mut Ahead, colour: u8, entry: Tenth)
    requires { colour < length ahead.old }
    ensures states { (s : State) → Admits ahead.new s
        ↔ (Admits ahead.old s ⊎ ((s.colour ≡ colour) × (s.entry ≤ℤ entry))) }
    ensures colours { length ahead.new ≡ length ahead.old }
{
    let new = later(ahead.latest[colour as usize], entry);
    ahead.latest[colour as usize] = new;
}

fn later(latest: Option<Tenth>, entry: Tenth) -> Option<Tenth>
    ensures { (e : ℤ) → NotLater result e ↔ (NotLater latest e ⊎ (e ≤ℤ entry)) }
{
    match latest {
        None => Some(entry),
        Some(x) if x < entry => Some(entry),
        Some(x) => Some(x),
    }
}
