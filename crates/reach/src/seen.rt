// Tests of the possible states.
ghost use Rattle.std.specs.Prelude.{◌≡◌, ℤ, pos, negsuc, ◌≤ℤ◌, ◌<◌, ◌≤◌, ◌^◌, ◌⊎◌, ◌↔◌, length, IsTrue};
ghost use Rattle.span_set.specs.Spans.{Member};
ghost use Rattle.colour_machine.specs.Mask.{Has};
ghost use Rattle.reach.specs.Ahead.{NotLater, Admits};
ghost use Rattle.reach.specs.Past.{Holds, IsAlone};
ghost use Rattle.reach.specs.Runs.{State};
ghost use Rattle.reach.specs.Single.{sets_of, IsSingle};
ghost use Rattle.reach.specs.Tests.{InBound, Sees, SeenTrue, SeenFalse};

use crate::ahead::Ahead;
use crate::past::{Past, Single};
use colour_machine::Mask;
use sig_base::Tenth;
use span_set::SpanSet;

/// What an age, in tenths of a second, must be. The numbers are at most 36,001.
#[derive(Clone, Copy, Debug, PartialEq, Eq)]
pub enum AgeBound {
    Any,
    AtLeast(u32),
    AtMost(u32),
}

/// A test of a state at a tenth: its colour is one of these, and its age meets the bound.
#[derive(Clone, Copy, Debug, PartialEq, Eq)]
pub struct Test {
    pub colours: Mask,
    pub bound: AgeBound,
    pub at: Tenth,
}

/// Whether some possible state meets a test, and whether some doesn't.
#[derive(Clone, Copy, Debug, PartialEq, Eq)]
pub struct Seen {
    pub some_true: bool,
    pub some_false: bool,
}

/// What the states that are possible at the test's tenth say of it: those of the past whose entry
/// isn't later than the tenth, and which can still be completed.
pub fn possible(past: &Past, ahead: &Ahead, test: &Test) -> Seen
    requires colours { length past.now ≡ length ahead.now }
    requires low { negsuc (2 ^ 39) ≤ℤ test.now.at }
    requires high { test.now.at ≤ℤ pos (2 ^ 39) }
    ensures { Sees past.now ahead.now test.now result }
{
    match past.one {
        None => seen_in(&past.sets, &ahead.latest[..ahead.colours as usize], test),
        Some(one) => seen_single(one, &ahead.latest[..ahead.colours as usize], test),
    }
}

/// Whether one state alone is kept, and it can still be completed.
pub fn is_sure(past: &Past, ahead: &Ahead) -> bool
    requires colours { length past.now ≡ length ahead.now }
    ensures goes_on { IsTrue result → (s : State) → Holds past.now s → Admits ahead.now s }
    ensures alone { IsTrue result → IsAlone past.now }
{
    match past.one {
        None => false,
        Some(one) => sure_single(one, &ahead.latest[..ahead.colours as usize]),
    }
}

pub(crate) fn sure_single(one: Single, latest: &[Option<Tenth>]) -> bool
    requires single { IsSingle one }
    requires colours { one.colours ≡ length latest.now }
    ensures goes_on { IsTrue result → (s : State) → Holds (sets_of one) s → Admits latest.now s }
    ensures alone { IsAlone (sets_of one) }
{
    is_there(latest[one.colour as usize], one.entry, one.entry)
}

// What the one state says.
fn seen_single(one: Single, latest: &[Option<Tenth>], test: &Test) -> Seen
    requires single { IsSingle one }
    requires colours { one.colours ≡ length latest.now }
    ensures { Sees (sets_of one) latest.now test.now result }
{
    let here = is_there(latest[one.colour as usize], one.entry, test.at);
    let meets = is_met(one, test);
    Seen {
        some_true: both(here, meets),
        some_false: first_alone(here, meets),
    }
}

pub(crate) fn both(a: bool, b: bool) -> bool
    ensures { IsTrue result ↔ (IsTrue a × IsTrue b) }
{
    a && b
}

pub(crate) fn first_alone(a: bool, b: bool) -> bool
    ensures { IsTrue result ↔ (IsTrue a × (IsTrue b → ⊥)) }
{
    a && !b
}

fn is_there(latest: Option<Tenth>, entry: Tenth, at: Tenth) -> bool
    ensures { IsTrue result ↔ ((entry ≤ℤ at) × NotLater latest entry) }
{
    match latest {
        None => false,
        Some(x) => entry <= at && entry <= x,
    }
}

pub(crate) fn is_met(one: Single, test: &Test) -> bool
    requires { IsSingle one }
    ensures { IsTrue result ↔ (Has test.now.colours one.colour
        × InBound test.now.bound test.now.at one.entry) }
{
    if test.colours.has(one.colour) {
        return is_in(test.bound, test.at, one.entry);
    }
    false
}

fn is_in(bound: AgeBound, at: Tenth, entry: Tenth) -> bool
    requires low { negsuc (2 ^ 40) ≤ℤ entry }
    requires high { entry ≤ℤ pos (2 ^ 40) }
    ensures { IsTrue result ↔ InBound bound at entry }
{
    match bound {
        AgeBound::Any => true,
        AgeBound::AtLeast(age) => entry + i64::from(age) <= at,
        AgeBound::AtMost(age) => at <= entry + i64::from(age),
    }
}

fn seen_in(sets: &[SpanSet], latest: &[Option<Tenth>], test: &Test) -> Seen
    requires colours { length sets.now ≡ length latest.now }
    requires few { length latest.now ≤ 16 }
    requires low { negsuc (2 ^ 39) ≤ℤ test.now.at }
    requires high { test.now.at ≤ℤ pos (2 ^ 39) }
    ensures { Sees sets.now latest.now test.now result }
{
    let mut seen = Seen {
        some_true: false,
        some_false: false,
    };
    for colour in 0..sets.len() {
        seen.some_true |= seen_true(&sets[colour], latest[colour], colour as u8, test);
        seen.some_false |= seen_false(&sets[colour], latest[colour], colour as u8, test);
    }
    seen
}

// Whether some possible entry of the colour meets the test.
fn seen_true(set: &SpanSet, latest: Option<Tenth>, colour: u8, test: &Test) -> bool
    requires colour { colour < 16 }
    requires low { negsuc (2 ^ 39) ≤ℤ test.now.at }
    requires high { test.now.at ≤ℤ pos (2 ^ 39) }
    ensures { IsTrue result ↔ SeenTrue set.now latest colour test.now }
{
    let Some(latest) = latest else {
        return false;
    };
    if test.colours.has(colour) {
        return any_meets(set, latest.min(test.at), test.bound, test.at);
    }
    false
}

// Whether some possible entry of the colour doesn't meet the test.
fn seen_false(set: &SpanSet, latest: Option<Tenth>, colour: u8, test: &Test) -> bool
    requires colour { colour < 16 }
    requires low { negsuc (2 ^ 39) ≤ℤ test.now.at }
    requires high { test.now.at ≤ℤ pos (2 ^ 39) }
    ensures { IsTrue result ↔ SeenFalse set.now latest colour test.now }
{
    let Some(latest) = latest else {
        return false;
    };
    if test.colours.has(colour) {
        return any_fails(set, latest.min(test.at), test.bound, test.at);
    }
    has_by(set, latest.min(test.at))
}

// Whether some entry of the set is not later than the limit.
fn has_by(set: &SpanSet, limit: Tenth) -> bool
    ensures { IsTrue result ↔ ((e : ℤ) × Member set.now e × (e ≤ℤ limit)) }
{
    let Some(least) = set.least() else {
        return false;
    };
    if least <= limit {
        return true;
    }
    false
}

// Whether some entry that is not later than the limit has an age within the bound.
fn any_meets(set: &SpanSet, limit: Tenth, bound: AgeBound, at: Tenth) -> bool
    requires limit { limit ≤ℤ at }
    requires low { negsuc (2 ^ 39) ≤ℤ at }
    requires high { at ≤ℤ pos (2 ^ 39) }
    ensures { IsTrue result ↔ ((e : ℤ) × Member set.now e × (e ≤ℤ limit) × InBound bound at e) }
{
    match bound {
        AgeBound::Any => has_by(set, limit),
        AgeBound::AtLeast(age) => has_by(set, limit.min(at - i64::from(age))),
        AgeBound::AtMost(age) => set.any_in(at - i64::from(age), limit + 1),
    }
}

// Whether some entry that is not later than the limit has an age outside the bound.
fn any_fails(set: &SpanSet, limit: Tenth, bound: AgeBound, at: Tenth) -> bool
    requires limit { limit ≤ℤ at }
    requires low { negsuc (2 ^ 39) ≤ℤ at }
    requires high { at ≤ℤ pos (2 ^ 39) }
    ensures { IsTrue result ↔ ((e : ℤ) × Member set.now e × (e ≤ℤ limit)
        × (InBound bound at e → ⊥)) }
{
    match bound {
        AgeBound::Any => false,
        AgeBound::AtLeast(age) => set.any_in(at - i64::from(age) + 1, limit + 1),
        AgeBound::AtMost(age) => has_by(set, limit.min(at - i64::from(age) - 1)),
    }
}
