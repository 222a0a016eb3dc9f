// The way back over a list of moves.
ghost use Rattle.std.specs.Prelude.{◌≡◌, ℕ, length, IfOk};
ghost use Rattle.reach.specs.Past.{Holds};
ghost use Rattle.channel_path.specs.Walks.{IsMove, InOrder, AfterMoves, EnteredBefore};
ghost use Rattle.gap_ways.specs.Ways.{state_of, NoneOlder};
ghost use Rattle.channel_ways.specs.Moves.{ComesFrom, IsMoveSource, AddedMoves};

use crate::pasts::{run_before, run_pasts};
use channel_path::Move;
use colour_machine::Machine;
use gap_ways::{Entered, Fill, gap_source, row_source};
use reach::Past;
use sig_base::NoMemory;
use std::alloc::Global;

/// A possible state before the moves, from which they, with fills in their gaps, legally lead to
/// the target, which is one after them. At most sixteen fills are added for each gap, the last
/// first.
pub fn walk_source<M: Machine>(
    alloc: Global,
    machine: &M,
    before: &Past,
    moves: &[Move],
    target: Entered,
    fills: &mut Vec<Fill>,
) -> Result<Entered, NoMemory>
    requires order { (low : ℕ) × EnteredBefore before.now low
        × InOrder (M.rules machine.now) low moves.now }
    requires colours { length before.now ≡ (M.rules machine.now).colours }
    requires none_older { NoneOlder before.now }
    requires reached { AfterMoves (M.rules machine.now) before.now moves.now (state_of target) }
    ensures held { IfOk result (λ s. Holds before.now (state_of s)) }
    ensures way { IfOk result (λ s. AddedMoves (M.rules machine.now) moves.now
        fills.old.items fills.new.items s target) }
{
    let pasts = run_pasts(alloc, machine, before, moves)?;
    let mut here = target;
    let mut run = pasts.len() - 1;
    for turn in 0..moves.len() {
        let place = moves.len() - 1 - turn;
        run = run_before(run, moves[place]);
        let past = &pasts[run];
        here = move_source(alloc, machine, past, moves[place], here, fills)?;
    }
    Ok(here)
}

// A possible state before the move, entered early enough for it.
fn move_source<M: Machine>(
    alloc: Global,
    machine: &M,
    past: &Past,
    one: Move,
    target: Entered,
    fills: &mut Vec<Fill>,
) -> Result<Entered, NoMemory>
    requires fits { IsMove (M.rules machine.now) one }
    requires colours { length past.now ≡ (M.rules machine.now).colours }
    requires none_older { NoneOlder past.now }
    requires reached { ComesFrom (M.rules machine.now) past.now one (state_of target) }
    ensures { IfOk result (IsMoveSource (M.rules machine.now) past.now one
        fills.old.items fills.new.items target) }
{
    match one {
        Move::Letter {
            at,
            letter,
            row: _row,
        } => Ok(row_source(machine, past, i64::from(at), letter, target)),
        Move::Gap { from, to } => {
            let (from, to) = (i64::from(from), i64::from(to));
            gap_source(alloc, machine, past, from, to, target, fills)
        }
    }
}
