// How many rows of a channel would have to be lost to explain a line.
ghost use Rattle.std.specs.Prelude.{◌≡◌, ℕ, pos, ◌+◌, ◌<◌, ◌≤◌, ◌↔◌, drop, length, take, IfOk};
ghost use Rattle.reach.specs.Runs.{State};
ghost use Rattle.channel_path.specs.Walks.{EnteredBefore, InOrder};
ghost use Rattle.channel_path.specs.Places.{limit_of, EntersBefore, TakesFrom};
ghost use Rattle.lost_rows.specs.Credits.{AdmitsLost, AllAheads, AllBefore, AllOf, HoldsLost};
ghost use Rattle.lost_rows.specs.Cuts.{NoneAfter, NoneBefore};
ghost use Rattle.lost_rows.specs.Decisions.{asked_by, IsLost, IsRule, KeepsRule};
ghost use Rattle.lost_rows.specs.Walks.{ExplainedBy, WalkedFrom, WalkedTo};

use crate::aheads::{LostAheads, walk_aheads};
use crate::asked::Asked;
use crate::decision::decide;
use crate::line::{LinePlace, Lost, RuleWalk};
use crate::pasts::{LostPasts, walk_pasts};
use channel_path::Move;
use colour_machine::Machine;
use reach::{Ahead, Past};
use sig_base::NoMemory;
use std::alloc::Global;

/// How many rows would have to be lost for the rule to be kept at the place, where these states
/// come before the moves and those can go on after them.
pub fn lost_at<M: Machine>(
    alloc: Global,
    machine: &M,
    walk: &RuleWalk,
    before: &Past,
    moves: &[Move],
    after: &Ahead,
    place: LinePlace,
) -> Result<Lost, NoMemory>
    requires rule { IsRule walk.now.rule }
    requires entered { EnteredBefore before.now walk.now.from }
    requires order { InOrder (M.rules machine.now) walk.now.from moves.now }
    requires colours { length before.now ≡ (M.rules machine.now).colours }
    requires ahead { length after.now ≡ (M.rules machine.now).colours }
    requires place { place.moves ≤ length moves.now }
    requires earlier { limit_of walk.now.from (take place.moves moves.now) ≤ place.at + 1 }
    requires later { TakesFrom (place.at + 1) (drop place.moves moves.now) }
    requires within { place.at < walk.now.to }
    ensures { IfOk result (IsLost (ExplainedBy (M.rules machine.now) (asked_by walk.now.rule)
        before.now after.now walk.now.from (take place.moves moves.now) place.at
        (drop place.moves moves.now) walk.now.to (KeepsRule walk.now.rule (pos place.at)))) }
{
    let (from, to) = (walk.from, walk.to);
    let (count, end) = (place.moves, place.at + 1);
    let asked = walk.rule.asked();
    let pasts = pasts_up_to(alloc, machine, asked, from, before, &moves[..count], end)?;
    let aheads = aheads_from(machine, end, &moves[count..], to, after);
    Ok(decide(&pasts, &aheads, &walk.rule, place.at))
}

// The states after the moves, from those before which no row was lost.
fn pasts_up_to<M: Machine>(
    alloc: Global,
    machine: &M,
    asked: Asked,
    from: u32,
    before: &Past,
    moves: &[Move],
    to: u32,
) -> Result<LostPasts, NoMemory>
    requires entered { EnteredBefore before.now from }
    requires order { InOrder (M.rules machine.now) from moves.now }
    requires colours { length before.now ≡ (M.rules machine.now).colours }
    requires end { limit_of from moves.now ≤ to }
    ensures states { IfOk result (λ p. (j : ℕ) (u : State) → j ≤ 3 → HoldsLost p j u
        ↔ WalkedFrom (M.rules machine.now) asked (NoneBefore before.now) from moves.now to j u) }
    ensures entered { IfOk result (λ p. AllBefore p to) }
    ensures colours { IfOk result (AllOf (M.rules machine.now).colours) }
{
    let first = before.copy()?;
    let mut pasts = LostPasts::first(alloc, machine.colours(), first)?;
    walk_pasts(alloc, machine, asked, from, moves, to, &mut pasts)?;
    Ok(pasts)
}

// The states before the moves, from those after which no row is lost.
fn aheads_from<M: Machine>(
    machine: &M,
    from: u32,
    moves: &[Move],
    to: u32,
    after: &Ahead,
) -> LostAheads
    requires order { InOrder (M.rules machine.now) 0 moves.now }
    requires colours { length after.now ≡ (M.rules machine.now).colours }
    ensures states { (j : ℕ) (s : State) → j ≤ 3 → EntersBefore moves.now s
        → AdmitsLost result j s
        ↔ WalkedTo (M.rules machine.now) (NoneAfter after.now) from moves.now to j s }
    ensures colours { AllAheads (M.rules machine.now).colours result }
{
    let mut aheads = LostAheads::last(machine.colours(), after.copy());
    walk_aheads(machine, from, moves, to, &mut aheads);
    aheads
}
