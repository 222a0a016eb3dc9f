// One more lost row in a still.
ghost use Rattle.std.specs.Prelude.{◌≡◌, ℕ, ℤ, pos, negsuc, ◌+ℤ◌, ◌≤ℤ◌, ◌<ℤ◌, ◌<◌, ◌≤◌, ◌^◌, ◌⊎◌, ◌↔◌, length, IfSome, IsTrue, OnOk};
ghost use Rattle.colour_machine.specs.Mask.{Has};
ghost use Rattle.colour_machine.specs.Rules.{Change, Goes};
ghost use Rattle.span_set.specs.Spans.{Member};
ghost use Rattle.reach.specs.Runs.{State};
ghost use Rattle.reach.specs.Past.{Holds};
ghost use Rattle.reach.specs.Ahead.{Admits, NotLater};
ghost use Rattle.reach.specs.Tests.{InBound};
ghost use Rattle.lost_rows.specs.Stills.{AfterLost, AreTimes, BeforeLost, EntersOne, IsLastIn, LostFrom, LostFromBelow, LostTo, LostToBelow};
ghost use Rattle.lost_rows.specs.Walks.{nothing_asked};

use crate::asked::Asked;
use colour_machine::{Machine, Mask, with_change};
use reach::{AgeBound, Ahead, Past, Times, ahead_raise, past_leave, past_put};
use sig_base::{NoMemory, Tenth};
use span_set::SpanSet;
use std::alloc::Global;

/// Known tenths in a row, within which no row of a channel stands: from the first up to but without
/// the second. At each of them rows of the channel may have been lost.
#[derive(Clone, Copy, Debug, PartialEq, Eq)]
pub struct Still {
    pub from: Tenth,
    pub to: Tenth,
}

/// Adds the states to which one row more leads that was lost in the still, from a state of the
/// past.
pub fn put_past<M: Machine>(
    alloc: Global,
    machine: &M,
    past: &Past,
    asked: Asked,
    still: Still,
    into: &mut Past,
) -> Result<(), NoMemory>
    requires low { negsuc (2 ^ 39) ≤ℤ still.from }
    requires high { still.to ≤ℤ pos (2 ^ 39) }
    requires colours { length past.now ≡ (M.rules machine.now).colours }
    requires into { length into.old ≡ (M.rules machine.now).colours }
    ensures states { OnOk result ((u : State) → Holds into.new u ↔ (Holds into.old u
        ⊎ AfterLost (M.rules machine.now) asked still.from still.to past.now u)) }
    ensures colours { length into.new ≡ length into.old }
{
    for colour in 0..machine.colours() {
        put_colour(alloc, machine, past, asked, still, colour, into)?;
    }
    Ok(())
}

// The same from states of one colour.
fn put_colour<M: Machine>(
    alloc: Global,
    machine: &M,
    past: &Past,
    asked: Asked,
    still: Still,
    colour: u8,
    into: &mut Past,
) -> Result<(), NoMemory>
    requires low { negsuc (2 ^ 39) ≤ℤ still.from }
    requires high { still.to ≤ℤ pos (2 ^ 39) }
    requires colours { length past.now ≡ (M.rules machine.now).colours }
    requires into { length into.old ≡ (M.rules machine.now).colours }
    requires colour { colour < (M.rules machine.now).colours }
    ensures states { OnOk result ((u : State) → Holds into.new u ↔ (Holds into.old u
        ⊎ LostFrom (M.rules machine.now) asked still.from still.to past.now colour u)) }
    ensures colours { length into.new ≡ length into.old }
{
    let mut tenths = SpanSet::new(alloc);
    let times = times_of(machine, asked, still, colour);
    past_leave(past, colour, times, &mut tenths)?;
    put_each(
        into,
        changes_of(machine, colour),
        &tenths,
        machine.colours(),
    )
}

// When a lost row of the still may leave the colour.
fn times_of<M: Machine>(machine: &M, asked: Asked, still: Still, colour: u8) -> Times
    requires { colour < (M.rules machine.now).colours }
    ensures { AreTimes (M.rules machine.now) asked still.from still.to colour result }
{
    Times {
        from: still.from,
        to: still.to,
        floor: machine.floor(colour),
        bound: bound_of(asked, colour),
    }
}

fn bound_of(asked: Asked, colour: u8) -> AgeBound
    ensures { (t e : ℤ) → InBound result t e ↔ (colour ≡ asked.colour → InBound asked.bound t e) }
{
    if colour == asked.colour {
        return asked.bound;
    }
    AgeBound::Any
}

// The colours to which a letter changes the colour.
fn changes_of<M: Machine>(machine: &M, colour: u8) -> Mask
    requires { colour < (M.rules machine.now).colours }
    ensures { (d : ℕ) → Has result d ↔ Change (M.rules machine.now) colour d }
{
    let mut mask = Mask::none();
    for letter in 0..machine.letters() {
        mask = with_change(machine, colour, letter, mask);
    }
    mask
}

// Adds the states of the first colours, where the mask has them, that are entered at the tenths.
fn put_each(into: &mut Past, mask: Mask, tenths: &SpanSet, count: u8) -> Result<(), NoMemory>
    requires few { count ≤ 16 }
    requires colours { length into.old ≡ count }
    requires high { (e : ℤ) → Member tenths.now e → e <ℤ pos (2 ^ 40) }
    ensures states { OnOk result ((u : State) → Holds into.new u ↔ (Holds into.old u
        ⊎ EntersOne mask tenths.now count u)) }
    ensures colours { length into.new ≡ length into.old }
{
    for colour in 0..count {
        put_if(into, colour, mask.has(colour), tenths)?;
    }
    Ok(())
}

fn put_if(into: &mut Past, colour: u8, enters: bool, tenths: &SpanSet) -> Result<(), NoMemory>
    requires colour { colour < length into.old }
    requires high { (e : ℤ) → Member tenths.now e → e <ℤ pos (2 ^ 40) }
    ensures states { OnOk result ((u : State) → Holds into.new u ↔ (Holds into.old u
        ⊎ ((u.colour ≡ colour) × IsTrue enters × Member tenths.now u.entry))) }
    ensures colours { length into.new ≡ length into.old }
{
    if enters {
        return past_put(into, colour, tenths);
    }
    Ok(())
}

/// Admits the states too from which one row more that was lost in the still leads to one that the
/// other admits.
pub fn put_ahead<M: Machine>(machine: &M, ahead: &Ahead, still: Still, into: &mut Ahead)
    requires low { negsuc (2 ^ 39) ≤ℤ still.from }
    requires high { still.to ≤ℤ pos (2 ^ 39) }
    requires colours { length ahead.now ≡ (M.rules machine.now).colours }
    requires into { length into.old ≡ (M.rules machine.now).colours }
    ensures states { (s : State) → Admits into.new s ↔ (Admits into.old s
        ⊎ BeforeLost (M.rules machine.now) nothing_asked still.from still.to ahead.now s) }
    ensures colours { length into.new ≡ length into.old }
{
    for colour in 0..machine.colours() {
        raise_colour(machine, ahead, still, colour, into);
    }
}

// The same of one colour.
fn raise_colour<M: Machine>(machine: &M, ahead: &Ahead, still: Still, colour: u8, into: &mut Ahead)
    requires low { negsuc (2 ^ 39) ≤ℤ still.from }
    requires high { still.to ≤ℤ pos (2 ^ 39) }
    requires colours { length ahead.now ≡ (M.rules machine.now).colours }
    requires into { length into.old ≡ (M.rules machine.now).colours }
    requires colour { colour < (M.rules machine.now).colours }
    ensures states { (s : State) → Admits into.new s ↔ (Admits into.old s ⊎ ((s.colour ≡ colour)
        × LostToBelow (M.rules machine.now) still.from still.to ahead.now
        (M.rules machine.now).colours colour s.entry)) }
    ensures colours { length into.new ≡ length into.old }
{
    let mask = changes_of(machine, colour);
    let floor = machine.floor(colour);
    for next in 0..machine.colours() {
        let latest = latest_if(mask.has(next), ahead.latest(next));
        raise_by(into, colour, last_in(latest, still), floor);
    }
}

fn latest_if(enters: bool, latest: Option<Tenth>) -> Option<Tenth>
    ensures { (e : ℤ) → NotLater result e ↔ (IsTrue enters × NotLater latest e) }
{
    if enters {
        return latest;
    }
    None
}

// The last tenth of the still that isn't later than the latest entry.
fn last_in(latest: Option<Tenth>, still: Still) -> Option<Tenth>
    requires low { negsuc (2 ^ 39) ≤ℤ still.from }
    requires high { still.to ≤ℤ pos (2 ^ 39) }
    ensures { IsLastIn still.from still.to latest result }
{
    match latest {
        Some(x) if still.from <= x && still.from < still.to => Some(x.min(still.to - 1)),
        Some(_) => None,
        None => None,
    }
}

// Admits the states of the colour that may be left at the tenth, if any, or before it.
fn raise_by(into: &mut Ahead, colour: u8, last: Option<Tenth>, floor: u32)
    requires colour { colour < length into.old }
    requires low { IfSome last (λ x. negsuc (2 ^ 39) ≤ℤ x) }
    requires floor { floor ≤ 36000 }
    ensures states { (s : State) → Admits into.new s ↔ (Admits into.old s
        ⊎ ((s.colour ≡ colour) × NotLater last (s.entry +ℤ pos floor))) }
    ensures colours { length into.new ≡ length into.old }
{
    match last {
        Some(x) => ahead_raise(into, colour, x - i64::from(floor)),
        None => {}
    }
}
