// The states in a run of holes, in one step: each colour's entries of before stay, and its new ones
// are all tenths of the holes from its earliest arrival on.
ghost use Rattle.std.specs.Prelude.{◌≡◌, ℕ, ℤ, pos, negsuc, ◌+ℤ◌, ◌≤ℤ◌, ◌<ℤ◌, ◌<◌, ◌≤◌, ◌^◌, [], length, slice_index_or, MatchOption};
ghost use Rattle.std.specs.Int.{int_max};
ghost use Rattle.span_set.specs.declared.set.Span.{Span};
ghost use Rattle.span_set.specs.Spans.{AreRanges, Member};
ghost use Rattle.reach.specs.Sets.{at};
ghost use Rattle.reach.specs.Single.{sets_of, IsSingle};
ghost use Rattle.reach.specs.Holes.{AreHoles, IsNext, IsFirstIn, IsLeaveIn, AreEarliest, AreBounded, HolesAreGaps};

use crate::gap::{relax, same_tenths};
use crate::past::{Past, Single};
use colour_machine::Machine;
use sig_base::Tenth;
use span_set::Span;

/// For each colour the earliest tenth of the holes at which it may be entered, or `to`. A state is
/// possible at a place of the run where it was held before it, or where it was entered in a hole
/// before the place and not before its colour's tenth.
pub fn past_holes<M: Machine>(
    machine: &M,
    past: &Past,
    holes: &[Span],
    from: Tenth,
    to: Tenth,
) -> [Tenth; 16]
    requires low { negsuc (2 ^ 39) ≤ℤ from }
    requires order { from ≤ℤ to }
    requires high { to ≤ℤ pos (2 ^ 39) }
    requires colours { length past.now ≡ (M.rules machine.now).colours }
    requires holes { AreHoles from to holes.now }
    ensures earliest { AreEarliest (M.rules machine.now) past.now holes.now from to result }
    ensures bounded { AreBounded (M.rules machine.now).colours from to result }
{
    let departure = departures(machine, past, holes, from, to);
    arrivals(machine, past, holes, &departure, from, to)
}

/// What letters in the holes lead to is what the holes lead to as gaps, one after another. It does
/// nothing.
pub fn holes_are_gaps()
    ensures { HolesAreGaps }
{}

// For each colour the first tenth of the holes at which an old entry lets it be left, or `to`.
fn departures<M: Machine>(
    machine: &M,
    past: &Past,
    holes: &[Span],
    from: Tenth,
    to: Tenth,
) -> [Tenth; 16]
    requires order { from ≤ℤ to }
    requires high { to ≤ℤ pos (2 ^ 39) }
    requires colours { length past.now ≡ (M.rules machine.now).colours }
    requires holes { AreHoles from to holes.now }
    ensures { (c : ℕ) → c < (M.rules machine.now).colours
        → IsFirstIn (slice_index_or past.now c []) ((M.rules machine.now).floor c) holes.now from to
        (at result c) }
{
    let mut new = [to; 16];
    for colour in 0..machine.colours() {
        new[colour as usize] = first_leave(past, colour, machine.floor(colour), holes, from, to);
    }
    new
}

// The least tenth of the holes at which an entry of the colour is old enough, or `to`.
fn first_leave(past: &Past, colour: u8, floor: u32, holes: &[Span], from: Tenth, to: Tenth) -> Tenth
    requires colour { colour < length past.now }
    requires order { from ≤ℤ to }
    requires high { to ≤ℤ pos (2 ^ 39) }
    requires floor { floor ≤ 36000 }
    requires holes { AreHoles from to holes.now }
    ensures { IsFirstIn (slice_index_or past.now colour []) floor holes.now from to result }
{
    let Some(least) = least_of(past, colour) else {
        return to;
    };
    if to <= least {
        return to;
    }
    next_hole(holes, later(least, floor), from, to)
}

// The least entry of the colour.
fn least_of(past: &Past, colour: u8) -> Option<Tenth>
    requires { colour < length past.now }
    ensures { MatchOption result ((e : ℤ) → Member (slice_index_or past.now colour []) e
        → ⊥) (λ m. Member (slice_index_or past.now colour []) m
        × ((e : ℤ) → Member (slice_index_or past.now colour []) e → m ≤ℤ e)) }
{
    match past.one {
        None => past.sets[colour as usize].least(),
        Some(one) => least_single(one, colour),
    }
}

fn least_single(one: Single, colour: u8) -> Option<Tenth>
    requires { IsSingle one }
    ensures { MatchOption result ((e : ℤ) → Member (slice_index_or (sets_of one) colour []) e
        → ⊥) (λ m. Member (slice_index_or (sets_of one) colour []) m
        × ((e : ℤ) → Member (slice_index_or (sets_of one) colour []) e → m ≤ℤ e)) }
{
    if colour == one.colour {
        return Some(one.entry);
    }
    None
}

// The least tenth of the holes from the tenth on, or `to`.
fn next_hole(holes: &[Span], tenth: Tenth, from: Tenth, to: Tenth) -> Tenth
    requires { AreHoles from to holes.now }
    ensures { IsNext holes.now to tenth result }
{
    let first = ended_by(holes, tenth);
    if first == holes.len() {
        return to;
    }
    within(&holes[first], tenth)
}

// The first tenth of the hole from the tenth on, where it doesn't end before.
fn within(hole: &Span, tenth: Tenth) -> Tenth
    ensures { result ≡ int_max hole.now.from tenth }
{
    hole.from.max(tenth)
}

fn later(tenth: Tenth, floor: u32) -> Tenth
    requires high { tenth ≤ℤ pos (2 ^ 39) }
    requires floor { floor ≤ 36000 }
    ensures { result ≡ (tenth +ℤ pos floor) }
{
    tenth + i64::from(floor)
}

// How many of the holes end at the tenth or before.
fn ended_by(holes: &[Span], tenth: Tenth) -> usize
    requires { AreRanges holes.now }
    ensures within { result ≤ length holes.now }
    ensures ended { (k : ℕ) (d : Span) → k < result → (slice_index_or holes.now k d).to ≤ℤ tenth }
    ensures next { (k : ℕ) (d : Span) → result ≤ k → k < length holes.now
        → tenth <ℤ (slice_index_or holes.now k d).to }
{
    holes.partition_point(|hole| hole.to <= tenth)
}

// Earliest arrivals: by rounds, until one changes nothing.
fn arrivals<M: Machine>(
    machine: &M,
    past: &Past,
    holes: &[Span],
    departure: &[Tenth; 16],
    from: Tenth,
    to: Tenth,
) -> [Tenth; 16]
    requires low { negsuc (2 ^ 39) ≤ℤ from }
    requires order { from ≤ℤ to }
    requires high { to ≤ℤ pos (2 ^ 39) }
    requires colours { length past.now ≡ (M.rules machine.now).colours }
    requires holes { AreHoles from to holes.now }
    requires first { (c : ℕ) → c < (M.rules machine.now).colours
        → IsFirstIn (slice_index_or past.now c []) ((M.rules machine.now).floor c) holes.now from to
        (at departure.now c) }
    ensures earliest { AreEarliest (M.rules machine.now) past.now holes.now from to result }
    ensures bounded { AreBounded (M.rules machine.now).colours from to result }
{
    let mut arrival = [to; 16];
    'rounds: loop {
        let before = arrival;
        let leave = leaves(machine, departure, &arrival, holes, from, to);
        relax(machine, &leave, to, &mut arrival);
        if same_tenths(&arrival, &before) {
            return before;
        }
    }
}

// For each colour the first tenth of the holes at which it may be left, after an old entry or an
// arrival.
fn leaves<M: Machine>(
    machine: &M,
    departure: &[Tenth; 16],
    arrival: &[Tenth; 16],
    holes: &[Span],
    from: Tenth,
    to: Tenth,
) -> [Tenth; 16]
    requires bound { (c : ℕ) → c < 16 → at arrival.now c ≤ℤ pos (2 ^ 39) }
    requires end { (c : ℕ) → c < (M.rules machine.now).colours → at departure.now c ≤ℤ to }
    requires holes { AreHoles from to holes.now }
    ensures { (c : ℕ) → c < (M.rules machine.now).colours
        → IsLeaveIn holes.now (at departure.now c) (at arrival.now c)
        ((M.rules machine.now).floor c) (at result c) }
{
    let mut new = [0; 16];
    for colour in 0..machine.colours() {
        let c = colour as usize;
        new[c] = leave_one(
            departure[c],
            arrival[c],
            machine.floor(colour),
            holes,
            from,
            to,
        );
    }
    new
}

fn leave_one(
    departure: Tenth,
    arrival: Tenth,
    floor: u32,
    holes: &[Span],
    from: Tenth,
    to: Tenth,
) -> Tenth
    requires arrival { arrival ≤ℤ pos (2 ^ 39) }
    requires end { departure ≤ℤ to }
    requires floor { floor ≤ 36000 }
    requires holes { AreHoles from to holes.now }
    ensures { IsLeaveIn holes.now departure arrival floor result }
{
    departure.min(next_hole(holes, later(arrival, floor), from, to))
}
