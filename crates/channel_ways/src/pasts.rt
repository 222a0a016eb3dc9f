// The possible states before each letter of a list of moves, and after the last move.
ghost use Rattle.std.specs.Prelude.{◌≡◌, ℕ, ◌+◌, ◌≤◌, ◌∷◌, [], length, IfOk};
ghost use Rattle.reach.specs.Runs.{State};
ghost use Rattle.channel_path.specs.Walks.{EnteredBefore, InOrder, AfterMoves};
ghost use Rattle.channel_path.specs.Kept.{letters};
ghost use Rattle.channel_ways.specs.Pasts.{AreRunPasts};

use channel_path::{Move, end_run, walk_past};
use colour_machine::Machine;
use reach::Past;
use sig_base::NoMemory;
use std::alloc::Global;

/// The possible states before each letter, and after the last move. Some state comes after it.
pub fn run_pasts<M: Machine>(
    alloc: Global,
    machine: &M,
    before: &Past,
    moves: &[Move],
) -> Result<Vec<Past>, NoMemory>
    requires order { (low : ℕ) × EnteredBefore before.now low
        × InOrder (M.rules machine.now) low moves.now }
    requires colours { length before.now ≡ (M.rules machine.now).colours }
    requires some { (u : State) × AfterMoves (M.rules machine.now) before.now moves.now u }
    ensures { IfOk result (λ v. AreRunPasts (M.rules machine.now) before.now moves.now v.items) }
{
    let mut pasts = Vec::new(alloc);
    let mut past = before.copy()?;
    for place in 0..moves.len() {
        end_run(&mut pasts, &past, moves[place])?;
        let stop = walk_past(alloc, machine, &mut past, &moves[place..place + 1])?;
        if let Some(_stop) = stop {
            unreachable!()
        }
    }
    pasts.push(past)?;
    Ok(pasts)
}

/// The number of the run before the move, where this is that after it.
pub fn run_before(run: usize, one: Move) -> usize
    requires { letters (one ∷ []) ≤ run }
    ensures { result + letters (one ∷ []) ≡ run }
{
    match one {
        Move::Letter { .. } => run - 1,
        Move::Gap { .. } => run,
    }
}
