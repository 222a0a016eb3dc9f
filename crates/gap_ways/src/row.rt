// The way back over a row.
ghost use Rattle.std.specs.Prelude.{◌≡◌, pos, negsuc, ◌≤ℤ◌, ◌<ℤ◌, ◌<◌, ◌^◌, length, MatchOption};
ghost use Rattle.reach.specs.Past.{AfterRow};
ghost use Rattle.reach.specs.Runs.{state};
ghost use Rattle.gap_ways.specs.Ways.{state_of, NoneOlder, IsSource};
ghost use Rattle.gap_ways.specs.Rounds.{LeftAt, NoneLeft};

use crate::ask::{has_old, old_entry};
use crate::states::Entered;
use colour_machine::Machine;
use reach::Past;
use sig_base::Tenth;

/// A possible state before the row, from which its letter at the tenth legally leads to the
/// target, which is one after it.
pub fn row_source<M: Machine>(
    machine: &M,
    past: &Past,
    at: Tenth,
    letter: u8,
    target: Entered,
) -> Entered
    requires low { negsuc (2 ^ 39) ≤ℤ at }
    requires high { at <ℤ pos (2 ^ 39) }
    requires letter { letter < (M.rules machine.now).letters }
    requires colours { length past.now ≡ (M.rules machine.now).colours }
    requires none_older { NoneOlder past.now }
    requires reached { AfterRow (M.rules machine.now) past.now at letter (state_of target) }
    ensures { IsSource (M.rules machine.now) past.now at letter (state_of target) result }
{
    if target.entry != at {
        return target;
    }
    match left_for(machine, past, at, letter, target.colour) {
        Some(source) => source,
        None => target,
    }
}

// A state that the letter at the tenth changes to the colour.
fn left_for<M: Machine>(machine: &M, past: &Past, at: Tenth, letter: u8, to: u8) -> Option<Entered>
    requires low { negsuc (2 ^ 39) ≤ℤ at }
    requires high { at <ℤ pos (2 ^ 39) }
    requires letter { letter < (M.rules machine.now).letters }
    requires colours { length past.now ≡ (M.rules machine.now).colours }
    requires none_older { NoneOlder past.now }
    ensures { MatchOption result
        (NoneLeft (M.rules machine.now) past.now at letter to (M.rules machine.now).colours)
        (IsSource (M.rules machine.now) past.now at letter (state to at)) }
{
    for colour in 0..machine.colours() {
        if let Some(source) = left_at(machine, past, at, letter, to, colour) {
            return Some(source);
        }
    }
    None
}

// A state of the colour, where the letter at the tenth changes it to the given one.
fn left_at<M: Machine>(
    machine: &M,
    past: &Past,
    at: Tenth,
    letter: u8,
    to: u8,
    colour: u8,
) -> Option<Entered>
    requires low { negsuc (2 ^ 39) ≤ℤ at }
    requires high { at <ℤ pos (2 ^ 39) }
    requires letter { letter < (M.rules machine.now).letters }
    requires colours { length past.now ≡ (M.rules machine.now).colours }
    requires colour { colour < (M.rules machine.now).colours }
    requires none_older { NoneOlder past.now }
    ensures { MatchOption result (LeftAt (M.rules machine.now) past.now at letter to colour → ⊥)
        (IsSource (M.rules machine.now) past.now at letter (state to at)) }
{
    if colour == to || machine.step(colour, letter) != Some(to) {
        return None;
    }
    if has_old(machine, past, colour, at) {
        return Some(Entered {
            colour,
            entry: old_entry(machine, past, colour, at),
        });
    }
    None
}
