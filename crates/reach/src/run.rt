// The states after a run of holes, as sets.
ghost use Rattle.std.specs.Prelude.{◌≡◌, ℕ, ℤ, pos, negsuc, ◌≤ℤ◌, ◌<ℤ◌, ◌<◌, ◌≤◌, ◌^◌, ◌⊎◌, ◌↔◌, length, IsTrue, OnOk};
ghost use Rattle.span_set.specs.Spans.{Member, Within};
ghost use Rattle.reach.specs.Runs.{State};
ghost use Rattle.reach.specs.Past.{Holds};
ghost use Rattle.reach.specs.Sets.{at};
ghost use Rattle.reach.specs.Holes.{AreHoles, AreFilled, AreBounded, AfterGaps, HeldOrEntered};

use crate::holes::past_holes;
use crate::past::{Past, spread};
use colour_machine::Machine;
use sig_base::{NoMemory, Tenth};
use span_set::{Span, SpanSet};

/// The states after the holes as gaps, one after another. It takes memory only where a set grows.
pub fn past_run<M: Machine>(
    machine: &M,
    past: &mut Past,
    holes: &[Span],
    from: Tenth,
    to: Tenth,
) -> Result<(), NoMemory>
    requires low { negsuc (2 ^ 39) ≤ℤ from }
    requires order { from ≤ℤ to }
    requires high { to ≤ℤ pos (2 ^ 39) }
    requires colours { length past.old ≡ (M.rules machine.now).colours }
    requires holes { AreHoles from to holes.now }
    ensures after { OnOk result ((u : State) → Holds past.new u
        ↔ AfterGaps (M.rules machine.now) past.old holes.now u) }
    ensures colours { length past.new ≡ length past.old }
{
    let arrival = past_holes(machine, past, holes, from, to);
    fill_past(past, &arrival, holes, from, to)
}

fn fill_past(
    past: &mut Past,
    arrival: &[Tenth; 16],
    holes: &[Span],
    from: Tenth,
    to: Tenth,
) -> Result<(), NoMemory>
    requires few { length past.old ≤ 16 }
    requires low { negsuc (2 ^ 39) ≤ℤ from }
    requires high { to ≤ℤ pos (2 ^ 39) }
    requires holes { AreHoles from to holes.now }
    requires arrival { AreBounded (length past.old) from to arrival.now }
    ensures after { OnOk result ((u : State) → Holds past.new u
        ↔ HeldOrEntered past.old holes.now to arrival.now to u) }
    ensures colours { length past.new ≡ length past.old }
{
    match past.one {
        None => fill_sets(past.sets.as_mut_slice(), arrival, holes, from, to),
        Some(one) => {
            if none_arrives(arrival, to) {
                return Ok(());
            }
            spread(past.alloc, &mut past.sets, one)?;
            fill_sets(past.sets.as_mut_slice(), arrival, holes, from, to)?;
            past.one = None;
            Ok(())
        }
    }
}

fn none_arrives(arrival: &[Tenth; 16], to: Tenth) -> bool
    ensures { IsTrue result → (d : ℕ) → d < 16 → to ≤ℤ at arrival.now d }
{
    for colour in 0..16 {
        if arrival[colour] < to {
            return false;
        }
    }
    true
}

// Adds to each set the tenths of the holes from its start on.
fn fill_sets(
    sets: &mut [SpanSet],
    starts: &[Tenth; 16],
    holes: &[Span],
    from: Tenth,
    to: Tenth,
) -> Result<(), NoMemory>
    requires few { length sets.old ≤ 16 }
    requires low { negsuc (2 ^ 39) ≤ℤ from }
    requires high { to ≤ℤ pos (2 ^ 39) }
    requires holes { AreHoles from to holes.now }
    ensures ok { OnOk result (AreFilled sets.old starts.now holes.now sets.new (length sets.old)) }
    ensures colours { length sets.new ≡ length sets.old }
{
    for colour in 0..sets.len() {
        fill_set(&mut sets[colour], starts[colour], holes, from, to)?;
    }
    Ok(())
}

fn fill_set(
    set: &mut SpanSet,
    start: Tenth,
    holes: &[Span],
    from: Tenth,
    to: Tenth,
) -> Result<(), NoMemory>
    requires low { negsuc (2 ^ 39) ≤ℤ from }
    requires high { to ≤ℤ pos (2 ^ 39) }
    requires holes { AreHoles from to holes.now }
    ensures { OnOk result ((e : ℤ) → Member set.new e ↔ (Member set.old e
        ⊎ ((start ≤ℤ e) × Member holes.now e))) }
{
    for i in 0..holes.len() {
        add_hole(set, start, holes[i])?;
    }
    Ok(())
}

fn add_hole(set: &mut SpanSet, start: Tenth, hole: Span) -> Result<(), NoMemory>
    requires low { negsuc (2 ^ 39) ≤ℤ hole.from }
    requires some { hole.from <ℤ hole.to }
    requires high { hole.to ≤ℤ pos (2 ^ 39) }
    ensures { OnOk result ((e : ℤ) → Member set.new e ↔ (Member set.old e
        ⊎ ((start ≤ℤ e) × Within hole e))) }
{
    if start < hole.to {
        set.add(hole.from.max(start), hole.to)?;
        return Ok(());
    }
    Ok(())
}
