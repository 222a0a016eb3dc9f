// The places from which on one state alone is possible at each.
ghost use Rattle.std.specs.Prelude.{◌≡◌, ℕ, ◌↔◌, length, IfOk, IfSome};
ghost use Rattle.reach.specs.Runs.{State};
ghost use Rattle.reach.specs.Past.{Holds};
ghost use Rattle.reach.specs.Ahead.{Admits};
ghost use Rattle.reach.specs.Single.{sets_of, IsSingle};
ghost use Rattle.channel_path.specs.Walks.{limit_before, IsMove, InOrder, AfterMove, EnteredBefore};
ghost use Rattle.channel_path.specs.Certain.{AreCertain};

use crate::moves::Move;
use colour_machine::Machine;
use reach::{Ahead, Past, Single, row_single, single_goes_on};
use sig_base::NoMemory;
use std::alloc::Global;

/// The state of each place from one on, where that place has one state alone, which `all` admits,
/// all moves are letters, each leads on to one state, and the last state is admitted after them.
pub fn sure_at<M: Machine>(
    alloc: Global,
    machine: &M,
    past: &Past,
    moves: &[Move],
    after: &Ahead,
    all: &Ahead,
) -> Result<Option<Vec<Single>>, NoMemory>
    requires order { (low : ℕ) × EnteredBefore past.now low
        × InOrder (M.rules machine.now) low moves.now }
    requires colours { length past.now ≡ (M.rules machine.now).colours }
    requires after { length after.now ≡ (M.rules machine.now).colours }
    requires all { length all.now ≡ (M.rules machine.now).colours }
    ensures certain { IfOk result (λ r. IfSome r (λ v.
        AreCertain (M.rules machine.now) past.now after.now moves.now 0 v.items)) }
    ensures admits { IfOk result (λ r. IfSome r (λ v.
        (s : State) → Holds past.now s → Admits all.now s)) }
{
    let Some(one) = past.single() else {
        return Ok(None);
    };
    if !single_goes_on(one, all) {
        return Ok(None);
    }
    sure_from(alloc, machine, one, moves, after)
}

// The same from one state.
fn sure_from<M: Machine>(
    alloc: Global,
    machine: &M,
    one: Single,
    moves: &[Move],
    after: &Ahead,
) -> Result<Option<Vec<Single>>, NoMemory>
    requires single { IsSingle one }
    requires order { (low : ℕ) × EnteredBefore (sets_of one) low
        × InOrder (M.rules machine.now) low moves.now }
    requires colours { length (sets_of one) ≡ (M.rules machine.now).colours }
    requires after { length after.now ≡ (M.rules machine.now).colours }
    ensures { IfOk result (λ r. IfSome r (λ v.
        AreCertain (M.rules machine.now) (sets_of one) after.now moves.now 0 v.items)) }
{
    let mut sure = Vec::with_capacity(alloc, moves.len() + 1)?;
    let mut here = one;
    for i in 0..moves.len() {
        sure.push(here)?;
        let Some(next) = single_after(machine, here, moves[i]) else {
            return Ok(None);
        };
        here = next;
    }
    sure.push(here)?;
    if single_goes_on(here, after) {
        return Ok(Some(sure));
    }
    Ok(None)
}

// The one state that the move leads to, where it is a letter and leads to one.
fn single_after<M: Machine>(machine: &M, one: Single, next: Move) -> Option<Single>
    requires single { IsSingle one }
    requires fits { IsMove (M.rules machine.now) next }
    requires place { EnteredBefore (sets_of one) (limit_before next) }
    requires colours { length (sets_of one) ≡ (M.rules machine.now).colours }
    ensures single { IfSome result (λ o. IsSingle o) }
    ensures colours { IfSome result (λ o. length (sets_of o) ≡ length (sets_of one)) }
    ensures after { IfSome result (λ o. (u : State) → Holds (sets_of o) u
        ↔ AfterMove (M.rules machine.now) (sets_of one) next u) }
{
    match next {
        Move::Letter { at, letter, .. } => row_single(machine, one, i64::from(at), letter),
        Move::Gap { .. } => None,
    }
}
