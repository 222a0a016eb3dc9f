// The way back from a state of a clamped set.
ghost use Rattle.std.specs.Prelude.{◌≡◌, ℕ, ℤ, pos, negsuc, ◌≤ℤ◌, ◌^◌, length, IfOk};
ghost use Rattle.reach.specs.Past.{Holds};
ghost use Rattle.channel_path.specs.Walks.{InOrder, EnteredBefore};
ghost use Rattle.gap_ways.specs.Ways.{state_of, NoneOlder};
ghost use Rattle.channel_ways.specs.Moves.{ClampedAfter, IsUnclamped, AddedAlike};

use crate::back::walk_source;
use channel_path::{Move, walk_past};
use colour_machine::Machine;
use gap_ways::{Entered, Fill, entry_by};
use reach::Past;
use sig_base::{NoMemory, Tenth};
use std::alloc::Global;

/// As `walk_source`, where the target is one of the states after the moves with all entries below
/// the limit put to it: the fills lead to a state that is alike.
pub fn clamped_source<M: Machine>(
    alloc: Global,
    machine: &M,
    before: &Past,
    moves: &[Move],
    limit: Tenth,
    target: Entered,
    fills: &mut Vec<Fill>,
) -> Result<Entered, NoMemory>
    requires order { (low : ℕ) × EnteredBefore before.now low
        × InOrder (M.rules machine.now) low moves.now }
    requires colours { length before.now ≡ (M.rules machine.now).colours }
    requires none_older { NoneOlder before.now }
    requires low { negsuc (2 ^ 39) ≤ℤ limit }
    requires high { limit ≤ℤ pos (2 ^ 38) }
    requires reached { ClampedAfter (M.rules machine.now) before.now moves.now limit
        (state_of target) }
    ensures held { IfOk result (λ s. Holds before.now (state_of s)) }
    ensures way { IfOk result (AddedAlike (M.rules machine.now) moves.now limit
        fills.old.items fills.new.items target) }
{
    let there = unclamped(alloc, machine, before, moves, limit, target)?;
    walk_source(alloc, machine, before, moves, there, fills)
}

// A state after the moves that is alike, at the point, to one of the clamped states after them.
fn unclamped<M: Machine>(
    alloc: Global,
    machine: &M,
    before: &Past,
    moves: &[Move],
    limit: Tenth,
    target: Entered,
) -> Result<Entered, NoMemory>
    requires order { (low : ℕ) × EnteredBefore before.now low
        × InOrder (M.rules machine.now) low moves.now }
    requires colours { length before.now ≡ (M.rules machine.now).colours }
    requires none_older { NoneOlder before.now }
    requires low { negsuc (2 ^ 39) ≤ℤ limit }
    requires high { limit ≤ℤ pos (2 ^ 38) }
    requires reached { ClampedAfter (M.rules machine.now) before.now moves.now limit
        (state_of target) }
    ensures { IfOk result (IsUnclamped (M.rules machine.now) before.now moves.now limit target) }
{
    if limit < target.entry {
        return Ok(target);
    }
    let mut past = before.copy()?;
    if let Some(_stop) = walk_past(alloc, machine, &mut past, moves)? {
        unreachable!()
    }
    Ok(Entered {
        colour: target.colour,
        entry: entry_by(machine, &past, target.colour, limit),
    })
}
