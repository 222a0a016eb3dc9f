// The possible states whose ages meet a bound.
ghost use Rattle.std.specs.Prelude.{◌≡◌, ℤ, pos, negsuc, ◌≤ℤ◌, ◌<◌, ◌≤◌, ◌^◌, ◌↔◌, length, IsTrue, OnOk};
ghost use Rattle.colour_machine.specs.Mask.{Has};
ghost use Rattle.span_set.specs.Spans.{Member};
ghost use Rattle.reach.specs.Runs.{State};
ghost use Rattle.reach.specs.Past.{Holds};
ghost use Rattle.reach.specs.Tests.{InBound};

use crate::past::{Past, spread};
use crate::row::is_some_state;
use crate::seen::AgeBound;
use colour_machine::Mask;
use sig_base::{NoMemory, Tenth};
use span_set::SpanSet;

/// Leaves of the states of the colour only those whose ages at the tenth meet the bound, and all
/// states of the other colours.
pub fn past_keep(past: &mut Past, colour: u8, bound: AgeBound, at: Tenth) -> Result<(), NoMemory>
    requires colour { colour < length past.old }
    requires low { negsuc (2 ^ 39) ≤ℤ at }
    requires high { at ≤ℤ pos (2 ^ 39) }
    ensures states { OnOk result ((s : State) → Holds past.new s
        ↔ (Holds past.old s × (s.colour ≡ colour → InBound bound at s.entry))) }
    ensures colours { length past.new ≡ length past.old }
{
    match past.one {
        None => keep_sets(past.sets.as_mut_slice(), colour, bound, at),
        Some(one) => {
            spread(past.alloc, &mut past.sets, one)?;
            keep_sets(past.sets.as_mut_slice(), colour, bound, at)?;
            past.one = None;
            Ok(())
        }
    }
}

/// Leaves only the states whose colours are among these.
pub fn past_only(past: &mut Past, colours: Mask) -> Result<(), NoMemory>
    requires { length past.old ≤ 16 }
    ensures states { OnOk result ((s : State) → Holds past.new s
        ↔ (Holds past.old s × Has colours s.colour)) }
    ensures colours { length past.new ≡ length past.old }
{
    match past.one {
        None => {
            only_sets(past.sets.as_mut_slice(), colours);
            Ok(())
        }
        Some(one) => {
            spread(past.alloc, &mut past.sets, one)?;
            only_sets(past.sets.as_mut_slice(), colours);
            past.one = None;
            Ok(())
        }
    }
}

/// Whether some state is possible.
pub fn past_is_some(past: &Past) -> bool
    ensures { IsTrue result ↔ ((s : State) × Holds past.now s) }
{
    match past.one {
        None => is_some_state(&past.sets),
        Some(_) => true,
    }
}

// The same, of sets.
fn keep_sets(sets: &mut [SpanSet], colour: u8, bound: AgeBound, at: Tenth) -> Result<(), NoMemory>
    requires colour { colour < length sets.old }
    requires low { negsuc (2 ^ 39) ≤ℤ at }
    requires high { at ≤ℤ pos (2 ^ 39) }
    ensures states { OnOk result ((s : State) → Holds sets.new s
        ↔ (Holds sets.old s × (s.colour ≡ colour → InBound bound at s.entry))) }
    ensures colours { length sets.new ≡ length sets.old }
{
    keep_ages(&mut sets[colour as usize], bound, at)
}

fn only_sets(sets: &mut [SpanSet], colours: Mask)
    requires { length sets.old ≤ 16 }
    ensures states { (s : State) → Holds sets.new s ↔ (Holds sets.old s × Has colours s.colour) }
    ensures colours { length sets.new ≡ length sets.old }
{
    for colour in 0..sets.len() {
        let kept = colours.has(colour as u8);
        only_set(&mut sets[colour], kept);
    }
}

fn only_set(set: &mut SpanSet, kept: bool)
    ensures { (e : ℤ) → Member set.new e ↔ (Member set.old e × IsTrue kept) }
{
    if !kept {
        set.clear();
    }
}

fn keep_ages(set: &mut SpanSet, bound: AgeBound, at: Tenth) -> Result<(), NoMemory>
    requires low { negsuc (2 ^ 39) ≤ℤ at }
    requires high { at ≤ℤ pos (2 ^ 39) }
    ensures { OnOk result ((e : ℤ) → Member set.new e ↔ (Member set.old e × InBound bound at e)) }
{
    match bound {
        AgeBound::Any => Ok(()),
        AgeBound::AtLeast(age) => {
            remove_after(set, at - i64::from(age));
            Ok(())
        }
        AgeBound::AtMost(age) => remove_before(set, at - i64::from(age)),
    }
}

fn remove_after(set: &mut SpanSet, limit: Tenth)
    requires { limit ≤ℤ pos (2 ^ 39) }
    ensures { (e : ℤ) → Member set.new e ↔ (Member set.old e × (e ≤ℤ limit)) }
{
    set.cut_from(limit + 1);
}

fn remove_before(set: &mut SpanSet, limit: Tenth) -> Result<(), NoMemory>
    ensures { OnOk result ((e : ℤ) → Member set.new e ↔ (Member set.old e × (limit ≤ℤ e))) }
{
    match set.least() {
        Some(least) if least < limit => set.remove(least, limit),
        Some(_) => Ok(()),
        None => Ok(()),
    }
}
