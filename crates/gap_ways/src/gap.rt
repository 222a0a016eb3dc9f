// The way back over a gap.
ghost use Rattle.std.specs.Prelude.{◌≡◌, ℤ, pos, negsuc, ◌≤ℤ◌, ◌<ℤ◌, ◌<◌, ◌≤◌, ◌^◌, length, reverse, IfOk};
ghost use Rattle.reach.specs.Past.{Holds, AfterGap};
ghost use Rattle.reach.specs.Arrivals.{AreDepartures};
ghost use Rattle.gap_ways.specs.Ways.{state_of, NoneOlder, AfterEarly, IsEarly, Added};
ghost use Rattle.gap_ways.specs.Rounds.{InRounds, InGap};

use crate::ask::old_entry;
use crate::edges::edge_to;
use crate::narrow::early_states;
use crate::rounds::{Rounds, rounds_of};
use crate::states::{Entered, Fill};
use colour_machine::Machine;
use reach::{Past, leaves};
use sig_base::{NoMemory, Tenth};
use std::alloc::Global;

/// A possible state that is entered before the gap, and from which fills of it legally lead to the
/// target, to which such fills lead. At most sixteen fills are added, the last first.
pub fn gap_source<M: Machine>(
    alloc: Global,
    machine: &M,
    past: &Past,
    from: Tenth,
    to: Tenth,
    target: Entered,
    fills: &mut Vec<Fill>,
) -> Result<Entered, NoMemory>
    requires low { negsuc (2 ^ 39) <ℤ from }
    requires some { from <ℤ to }
    requires high { to ≤ℤ pos (2 ^ 39) }
    requires colours { length past.now ≡ (M.rules machine.now).colours }
    requires none_older { NoneOlder past.now }
    requires reached { AfterEarly (M.rules machine.now) past.now from to (state_of target) }
    ensures held { IfOk result (IsEarly past.now from) }
    ensures way { IfOk result (λ s. Added (M.rules machine.now) from to 16
        fills.old.items fills.new.items s target) }
{
    if target.entry < from {
        return Ok(target);
    }
    let early = early_states(machine, past, from)?;
    let rounds = rounds_of(alloc, machine, &early, from, to)?;
    back(machine, &early, rounds, from, to, target, fills)
}

// From a state that is entered in the gap back to one of those before it, round by round.
fn back<M: Machine>(
    machine: &M,
    early: &Past,
    rounds: Rounds,
    from: Tenth,
    to: Tenth,
    target: Entered,
    fills: &mut Vec<Fill>,
) -> Result<Entered, NoMemory>
    requires low { negsuc (2 ^ 39) ≤ℤ from }
    requires high { to ≤ℤ pos (2 ^ 39) }
    requires colours { length early.now ≡ (M.rules machine.now).colours }
    requires none_older { NoneOlder early.now }
    requires first { AreDepartures (M.rules machine.now) early.now from to rounds.departure }
    requires within { InGap (M.rules machine.now) from to target }
    requires rounds { InRounds (M.rules machine.now) from to rounds.departure
        (reverse rounds.tables.items) target }
    requires few { length rounds.tables.items ≤ 16 }
    ensures held { IfOk result (λ s. Holds early.now (state_of s)) }
    ensures way { IfOk result (λ s. Added (M.rules machine.now) from to 16
        fills.old.items fills.new.items s target) }
{
    let departure = rounds.departure;
    let mut tables = rounds.tables;
    let mut here = target;
    'back: loop {
        let Some(table) = tables.pop() else {
            unreachable!()
        };
        if here.entry < table[here.colour as usize] {
            let leave = leaves(machine, &departure, &table);
            let Some(edge) = edge_to(machine, &leave, here.colour, here.entry) else {
                unreachable!()
            };
            fills.push(Fill {
                at: here.entry,
                letter: edge.letter,
            })?;
            let left = edge.colour as usize;
            if departure[left] <= here.entry {
                return Ok(Entered {
                    colour: edge.colour,
                    entry: old_entry(machine, early, edge.colour, here.entry),
                });
            }
            here = Entered {
                colour: edge.colour,
                entry: table[left],
            };
        }
    }
}
