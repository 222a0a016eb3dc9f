// On over a list of moves, from one state.
ghost use Rattle.std.specs.Prelude.{◌≡◌, ℕ, ◌^◌, ◌≤◌, length, IfOk};
ghost use Rattle.reach.specs.Ahead.{Admits};
ghost use Rattle.channel_path.specs.Walks.{InOrder, AfterMoves, BeforeMoves, EnteredBefore};
ghost use Rattle.channel_path.specs.Places.{limit_of};
ghost use Rattle.gap_ways.specs.Ways.{state_of, NoneOlder};
ghost use Rattle.channel_ways.specs.Moves.{IsAlone};

use channel_path::{Move, walk_past};
use colour_machine::Machine;
use gap_ways::{Entered, admitted_state};
use reach::{Ahead, Past};
use sig_base::{NoMemory, Tenth};
use std::alloc::Global;

// No state after the moves is entered at this tenth or later.
const END: Tenth = 1 << 38;

/// A state after the moves that can be completed, to which they, with some fills in their gaps,
/// legally lead from the one state that is possible before them.
pub fn walk_end<M: Machine>(
    alloc: Global,
    machine: &M,
    only: &Past,
    from: Entered,
    moves: &[Move],
    after: &Ahead,
) -> Result<Entered, NoMemory>
    requires alone { IsAlone only.now from }
    requires order { (low : ℕ) × EnteredBefore only.now low
        × InOrder (M.rules machine.now) low moves.now × (limit_of low moves.now ≤ 2 ^ 38) }
    requires colours { length only.now ≡ (M.rules machine.now).colours }
    requires ahead { length after.now ≡ (M.rules machine.now).colours }
    requires none_older { NoneOlder only.now }
    requires completed { BeforeMoves (M.rules machine.now) after.now moves.now (state_of from) }
    ensures admitted { IfOk result (λ u. Admits after.now (state_of u)) }
    ensures reached { IfOk result (λ u.
        AfterMoves (M.rules machine.now) only.now moves.now (state_of u)) }
{
    let mut past = only.copy()?;
    if let Some(_stop) = walk_past(alloc, machine, &mut past, moves)? {
        unreachable!()
    }
    let found = admitted_state(machine, &past, after, END)?;
    let Some(end) = found else { unreachable!() };
    Ok(end)
}
