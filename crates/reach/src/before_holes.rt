// The states before a run of holes, in one step: for each colour the last hole at which it can be
// left so that the rest can be met.
ghost use Rattle.std.specs.Prelude.{◌≡◌, ◌⊎◌, ◌↔◌, ℕ, ℤ, pos, negsuc, ◌+ℤ◌, ◌-ℤ◌, ◌≤ℤ◌, ◌<ℤ◌, ◌<◌, ◌≤◌, ◌^◌, length, slice_index_or, Some, None, IfSome};
ghost use Rattle.std.specs.Int.{int_min};
ghost use Rattle.span_set.specs.declared.set.Span.{Span};
ghost use Rattle.span_set.specs.Spans.{AreRanges, Member};
ghost use Rattle.reach.specs.Ahead.{NotLater, Admits};
ghost use Rattle.reach.specs.Latest.{entry_of};
ghost use Rattle.reach.specs.Holes.{AreFrom, AreHoles};
ghost use Rattle.reach.specs.Last.{InHoles, IsPrev, LeftIn, IsLaterIn, IsRoundIn, AreLast, StaysOrLeaves, IsEntryAt, AreEntriesAt, PlacesAreGaps};
ghost use Rattle.reach.specs.Runs.{State};

use crate::ahead::{Ahead, same_entries};
use colour_machine::Machine;
use sig_base::Tenth;
use span_set::Span;

/// For each colour the last tenth of the holes at which it can be left so that the rest of the run
/// leads to what is admitted, if any. At a place of the run a state can be completed where it may
/// stay, or where its colour's tenth isn't before the place and a floor or more after its entry.
pub fn ahead_holes<M: Machine>(
    machine: &M,
    ahead: &Ahead,
    holes: &[Span],
    from: Tenth,
    to: Tenth,
) -> [Option<Tenth>; 16]
    requires low { negsuc (2 ^ 39) ≤ℤ from }
    requires some { from <ℤ to }
    requires high { to ≤ℤ pos (2 ^ 39) }
    requires colours { length ahead.now ≡ (M.rules machine.now).colours }
    requires holes { AreHoles from to holes.now }
    ensures last { AreLast (M.rules machine.now) ahead.now holes.now from to result }
    ensures low { (c : ℕ) → IfSome (entry_of result c) (λ x. negsuc (2 ^ 39) ≤ℤ x) }
    ensures none { (c : ℕ) → (M.rules machine.now).colours ≤ c → entry_of result c ≡ None }
{
    last_holes(machine, &ahead.latest, holes, from, to)
}

/// The states from which the rest can be met at this place of the run, by its last holes.
pub fn ahead_in<M: Machine>(
    machine: &M,
    ahead: &Ahead,
    last: &[Option<Tenth>; 16],
    place: Tenth,
) -> Ahead
    requires colours { length ahead.now ≡ (M.rules machine.now).colours }
    requires low { (c : ℕ) → IfSome (entry_of last.now c) (λ x. negsuc (2 ^ 39) ≤ℤ x) }
    requires none { (c : ℕ) → (M.rules machine.now).colours ≤ c → entry_of last.now c ≡ None }
    ensures states { (s : State) → Admits result s ↔ StaysOrLeaves (M.rules machine.now) ahead.now
        last.now place s }
    ensures colours { length result ≡ length ahead.now }
{
    let latest = entries_at(machine, &ahead.latest, last, place);
    Ahead {
        latest,
        colours: ahead.colours,
    }
}

fn entries_at<M: Machine>(
    machine: &M,
    latest: &[Option<Tenth>; 16],
    last: &[Option<Tenth>; 16],
    place: Tenth,
) -> [Option<Tenth>; 16]
    requires low { (c : ℕ) → IfSome (entry_of last.now c) (λ x. negsuc (2 ^ 39) ≤ℤ x) }
    ensures { AreEntriesAt (M.rules machine.now) latest.now last.now place result
        (M.rules machine.now).colours }
{
    let mut new = *latest;
    for colour in 0..machine.colours() {
        let c = colour as usize;
        new[c] = entry_at(latest[c], last[c], machine.floor(colour), place);
    }
    new
}

fn entry_at(latest: Option<Tenth>, last: Option<Tenth>, floor: u32, place: Tenth) -> Option<Tenth>
    requires low { IfSome last (λ x. negsuc (2 ^ 39) ≤ℤ x) }
    requires floor { floor ≤ 36000 }
    ensures { IsEntryAt floor latest last place result }
{
    best_of(latest, left_at(last, floor, place))
}

fn left_at(last: Option<Tenth>, floor: u32, place: Tenth) -> Option<Tenth>
    requires low { IfSome last (λ x. negsuc (2 ^ 39) ≤ℤ x) }
    requires floor { floor ≤ 36000 }
    ensures { (e : ℤ) → NotLater result e ↔ (NotLater last place × NotLater last (e +ℤ pos floor)) }
{
    match last {
        None => None,
        Some(x) if x < place => None,
        Some(x) => Some(x - i64::from(floor)),
    }
}

/// Up to a place and from it on, letters in the holes lead to what the holes there lead to as gaps.
/// It does nothing.
pub fn places_are_gaps()
    ensures { PlacesAreGaps }
{}

// By rounds, until one changes nothing.
fn last_holes<M: Machine>(
    machine: &M,
    latest: &[Option<Tenth>; 16],
    holes: &[Span],
    from: Tenth,
    to: Tenth,
) -> [Option<Tenth>; 16]
    requires low { negsuc (2 ^ 39) ≤ℤ from }
    requires some { from <ℤ to }
    requires high { to ≤ℤ pos (2 ^ 39) }
    requires holes { AreHoles from to holes.now }
    ensures last { AreLast (M.rules machine.now) latest.now holes.now from to result }
    ensures low { (c : ℕ) → IfSome (entry_of result c) (λ x. negsuc (2 ^ 39) ≤ℤ x) }
    ensures none { (c : ℕ) → (M.rules machine.now).colours ≤ c → entry_of result c ≡ None }
{
    let mut last = [None; 16];
    'rounds: loop {
        let next = last_all(machine, latest, &last, holes);
        if same_entries(&next, &last) {
            return last;
        }
        last = next;
    }
}

fn last_all<M: Machine>(
    machine: &M,
    latest: &[Option<Tenth>; 16],
    last: &[Option<Tenth>; 16],
    holes: &[Span],
) -> [Option<Tenth>; 16]
    requires holes { AreFrom (negsuc (2 ^ 39)) holes.now }
    requires last { (c : ℕ) → InHoles holes.now (entry_of last.now c) }
    ensures { IsRoundIn (M.rules machine.now) latest.now holes.now last.now result }
{
    let mut new = [None; 16];
    for colour in 0..machine.colours() {
        new[colour as usize] = last_letters(machine, latest, last, colour, holes);
    }
    new
}

fn last_letters<M: Machine>(
    machine: &M,
    latest: &[Option<Tenth>],
    last: &[Option<Tenth>],
    colour: u8,
    holes: &[Span],
) -> Option<Tenth>
    requires colour { colour < (M.rules machine.now).colours }
    requires all { length latest.now ≡ 16 }
    requires all_last { length last.now ≡ 16 }
    requires holes { AreFrom (negsuc (2 ^ 39)) holes.now }
    requires last { (c : ℕ) → InHoles holes.now (entry_of last.now c) }
    ensures { IsLaterIn (M.rules machine.now) latest.now holes.now last.now colour
        (M.rules machine.now).letters result }
{
    let mut hole = last[colour as usize];
    for letter in 0..machine.letters() {
        hole = last_by(machine, latest, last, colour, letter, holes, hole);
    }
    hole
}

fn last_by<M: Machine>(
    machine: &M,
    latest: &[Option<Tenth>],
    last: &[Option<Tenth>],
    colour: u8,
    letter: u8,
    holes: &[Span],
    so_far: Option<Tenth>,
) -> Option<Tenth>
    requires colour { colour < (M.rules machine.now).colours }
    requires letter { letter < (M.rules machine.now).letters }
    requires all { length latest.now ≡ 16 }
    requires all_last { length last.now ≡ 16 }
    requires holes { AreFrom (negsuc (2 ^ 39)) holes.now }
    requires last { (c : ℕ) → InHoles holes.now (entry_of last.now c) }
    requires so_far { InHoles holes.now so_far }
    ensures hole { InHoles holes.now result }
    ensures left { (y : ℤ) → Member holes.now y → NotLater result y
        ↔ (NotLater so_far y ⊎ LeftIn (M.rules machine.now) latest.now last.now colour letter y) }
{
    match machine.step(colour, letter) {
        Some(next) if next != colour => {
            let n = next as usize;
            let hole = enter_by(latest[n], last[n], machine.floor(next), holes);
            best_of(so_far, hole)
        }
        Some(_) => so_far,
        None => so_far,
    }
}

// The last hole at which a colour may be entered: it may stay, or be left a floor later.
fn enter_by(stay: Option<Tenth>, leave: Option<Tenth>, floor: u32, holes: &[Span]) -> Option<Tenth>
    requires floor { floor ≤ 36000 }
    requires holes { AreFrom (negsuc (2 ^ 39)) holes.now }
    requires leave { InHoles holes.now leave }
    ensures hole { InHoles holes.now result }
    ensures enter { (y : ℤ) → Member holes.now y → NotLater result y
        ↔ (NotLater stay y ⊎ NotLater leave (y +ℤ pos floor)) }
{
    prev_of(holes, best_of(stay, sooner(leave, floor)))
}

fn sooner(leave: Option<Tenth>, floor: u32) -> Option<Tenth>
    requires low { IfSome leave (λ x. negsuc (2 ^ 39) ≤ℤ x) }
    requires floor { floor ≤ 36000 }
    ensures { (y : ℤ) → NotLater result y ↔ NotLater leave (y +ℤ pos floor) }
{
    match leave {
        None => None,
        Some(x) => Some(x - i64::from(floor)),
    }
}

fn best_of(a: Option<Tenth>, b: Option<Tenth>) -> Option<Tenth>
    ensures which { (result ≡ a) ⊎ (result ≡ b) }
    ensures later { (y : ℤ) → NotLater result y ↔ (NotLater a y ⊎ NotLater b y) }
{
    match (a, b) {
        (None, _) => b,
        (Some(_), None) => a,
        (Some(x), Some(y)) if x < y => b,
        (Some(_), Some(_)) => a,
    }
}

// The last tenth of the holes that is not later than the limit, if any.
fn prev_of(holes: &[Span], limit: Option<Tenth>) -> Option<Tenth>
    requires { AreRanges holes.now }
    ensures { IsPrev holes.now limit result }
{
    match limit {
        None => None,
        Some(tenth) => prev_hole(holes, tenth),
    }
}

fn prev_hole(holes: &[Span], tenth: Tenth) -> Option<Tenth>
    requires { AreRanges holes.now }
    ensures { IsPrev holes.now (Some tenth) result }
{
    let begun = begun_by(holes, tenth);
    if begun == 0 {
        return None;
    }
    Some(until(&holes[begun - 1], tenth))
}

// The last tenth of the hole up to the tenth, where it doesn't begin after it.
fn until(hole: &Span, tenth: Tenth) -> Tenth
    requires { negsuc (2 ^ 40) <ℤ hole.now.to }
    ensures { result ≡ int_min (hole.now.to -ℤ pos 1) tenth }
{
    (hole.to - 1).min(tenth)
}

// How many of the holes begin at the tenth or before.
fn begun_by(holes: &[Span], tenth: Tenth) -> usize
    requires { AreRanges holes.now }
    ensures within { result ≤ length holes.now }
    ensures begun { (k : ℕ) (d : Span) → k < result → (slice_index_or holes.now k d).from ≤ℤ tenth }
    ensures next { (k : ℕ) (d : Span) → result ≤ k → k < length holes.now
        → tenth <ℤ (slice_index_or holes.now k d).from }
{
    holes.partition_point(|hole| hole.from <= tenth)
}
