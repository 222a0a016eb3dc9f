// The states before moves, where the first few of them tell.
ghost use Rattle.std.specs.Prelude.{◌≡◌, ℕ, ℤ, pos, ◌<◌, ◌≤ℤ◌, ◌^◌, ◌↔◌, List, Option, length, IfOk, IfSome};
ghost use Rattle.reach.specs.Runs.{State};
ghost use Rattle.reach.specs.Past.{Holds};
ghost use Rattle.reach.specs.Ahead.{Admits};
ghost use Rattle.reach.specs.Single.{sets_of, IsSingle};
ghost use Rattle.channel_path.specs.Walks.{limit_after, InOrder, AfterMoves, BeforeMoves, EnteredBefore, GoesThrough};
ghost use Rattle.channel_path.specs.Places.{EntersBefore};
ghost use Rattle.channel_path.specs.Near.{LetsThrough, LeadsTo};

use crate::ahead::walk_ahead;
use crate::moves::Move;
use crate::past::walk_past;
use colour_machine::Machine;
use reach::{Ahead, Past, Single};
use sig_base::{NoMemory, Tenth};
use std::alloc::Global;

// So many moves may tell.
const NEAR: usize = 8;

/// The states, entered early enough for the first move, from which the moves lead to one that is
/// admitted after them, where the first few moves alone tell: whatever is admitted then, as long as
/// some run from the states before goes through to one that is. No answer where they don't tell.
pub fn ahead_near<M: Machine>(
    alloc: Global,
    machine: &M,
    before: &Past,
    moves: &[Move],
) -> Result<Option<Ahead>, NoMemory>
    requires order { (low : ℕ) × EnteredBefore before.now low
        × InOrder (M.rules machine.now) low moves.now }
    requires colours { length before.now ≡ (M.rules machine.now).colours }
    requires some { (s : State) × Holds before.now s }
    ensures before { IfOk result (λ r. IfSome r (λ a. (after : List (Option ℤ))
        → length after ≡ (M.rules machine.now).colours
        → GoesThrough (M.rules machine.now) before.now after moves.now
        → (s : State) → Admits a s ↔ (EntersBefore moves.now s
        × BeforeMoves (M.rules machine.now) after moves.now s))) }
    ensures colours { IfOk result (λ r. IfSome r (λ a.
        length a ≡ (M.rules machine.now).colours)) }
{
    let near = moves.len().min(NEAR);
    if near == 0 {
        return Ok(None);
    }
    let Some(one) = one_after(alloc, machine, before, &moves[..near])? else {
        return Ok(None);
    };
    Ok(ahead_agreed(machine, one, &moves[..near]))
}

// The one state that the moves lead to, where it alone is kept after them.
fn one_after<M: Machine>(
    alloc: Global,
    machine: &M,
    before: &Past,
    moves: &[Move],
) -> Result<Option<Single>, NoMemory>
    requires order { (low : ℕ) × EnteredBefore before.now low
        × InOrder (M.rules machine.now) low moves.now }
    requires colours { length before.now ≡ (M.rules machine.now).colours }
    requires some { (s : State) × Holds before.now s }
    ensures single { IfOk result (λ r. IfSome r (λ o. IsSingle o)) }
    ensures colours { IfOk result (λ r. IfSome r (λ o.
        length (sets_of o) ≡ (M.rules machine.now).colours)) }
    ensures after { IfOk result (λ r. IfSome r (λ o. (u : State) → Holds (sets_of o) u
        ↔ AfterMoves (M.rules machine.now) before.now moves.now u)) }
{
    let mut past = before.copy()?;
    if walk_past(alloc, machine, &mut past, moves)?.is_some() {
        return Ok(None);
    }
    Ok(past.single())
}

// The states from which the moves lead on, where from each of these they lead to the one state or
// to an older entry of its colour: the same are left where everything is admitted after the moves
// as where this state alone is.
fn ahead_agreed<M: Machine>(machine: &M, one: Single, moves: &[Move]) -> Option<Ahead>
    requires some { 0 < length moves.now }
    requires order { InOrder (M.rules machine.now) 0 moves.now }
    requires single { IsSingle one }
    requires colours { length (sets_of one) ≡ (M.rules machine.now).colours }
    ensures most { IfSome result (λ a. LetsThrough (M.rules machine.now) moves.now a) }
    ensures least { IfSome result (λ a. LeadsTo (M.rules machine.now) moves.now one a) }
    ensures colours { IfSome result (λ a. length a ≡ (M.rules machine.now).colours) }
{
    let mut most = Ahead::end(machine.colours(), end_of(moves[moves.len() - 1]));
    let mut least = Ahead::only(one);
    walk_ahead(machine, &mut most, moves);
    walk_ahead(machine, &mut least, moves);
    if most.same(&least) {
        return Some(most);
    }
    None
}

// The tenth before which the states after the move are entered.
fn end_of(one: Move) -> Tenth
    ensures end { result ≡ pos (limit_after one) }
    ensures early { result ≤ℤ pos (2 ^ 39) }
{
    match one {
        Move::Letter { at, .. } => i64::from(at) + 1,
        Move::Gap { to, .. } => i64::from(to),
    }
}
