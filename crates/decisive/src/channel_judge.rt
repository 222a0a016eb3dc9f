// Whether some walk keeps a rule at a place between moves.
ghost use Rattle.std.specs.Prelude.{◌≡◌, ◌↔◌, ◌++◌, ℕ, ◌<◌, ◌≤◌, pos, length, IsTrue, IfOk, OnOk, MatchOption};
ghost use Rattle.reach.specs.Runs.{State};
ghost use Rattle.reach.specs.Past.{Holds};
ghost use Rattle.channel_path.specs.Walks.{AfterMoves, EnteredBefore, InOrder};
ghost use Rattle.decisive.specs.Moves.{AreKept, FitsKeep, IsEnd, IsEnding, IsFreeAt, KeepsBy, NoneKeeps, NoneKeepsFrom};

use crate::channel_keep::Keep;
use channel_path::{Move, walk_past};
use colour_machine::Machine;
use reach::{Past, past_gap, past_is_some, past_keep, past_only};
use sig_base::NoMemory;
use std::alloc::Global;

// How many of the moves it takes until no state is left, where none is left after all of them.
#[tactic(auto, using(crate::proofs::Nowhere::ending_none, crate::proofs::Nowhere::ending_stop))]
fn ending<M: Machine>(
    alloc: Global,
    machine: &M,
    past: &mut Past,
    moves: &[Move],
) -> Result<Option<usize>, NoMemory>
    requires order { (low : ℕ) × EnteredBefore past.old low
        × InOrder (M.rules machine.now) low moves.now }
    requires colours { length past.old ≡ (M.rules machine.now).colours }
    ensures { IfOk result (λ r. MatchOption r ((u : State)
        × AfterMoves (M.rules machine.now) past.old moves.now u)
        (λ n. IsEnding (M.rules machine.now) past.old moves.now n)) }
{
    if !past_is_some(past) {
        return Ok(Some(0));
    }
    match walk_past(alloc, machine, past, moves)? {
        Some(last) => Ok(Some(last + 1)),
        None => Ok(None),
    }
}

// Leaves the states that are what they are to be.
fn keep_states(past: &mut Past, keep: Keep, at: u32) -> Result<(), NoMemory>
    requires few { length past.old ≤ 16 }
    requires keep { FitsKeep (length past.old) keep }
    ensures states { OnOk result ((s : State) → Holds past.new s
        ↔ (Holds past.old s × KeepsBy keep (pos at) s)) }
    ensures colours { length past.new ≡ length past.old }
{
    match keep {
        Keep::Interval(colour, bound) => past_keep(past, colour, bound, i64::from(at)),
        Keep::Colours(colours) => past_only(past, colours),
    }
}

// The states to which the moves lead that are what they are to be; false where they lead nowhere.
#[tactic(auto, using(crate::proofs::Nowhere::stop_nowhere, crate::proofs::Nowhere::kept_by))]
fn keep_after<M: Machine>(
    alloc: Global,
    machine: &M,
    past: &mut Past,
    to: &[Move],
    keep: Keep,
    at: u32,
) -> Result<bool, NoMemory>
    requires order { (low : ℕ) × EnteredBefore past.old low
        × InOrder (M.rules machine.now) low to.now }
    requires colours { length past.old ≡ (M.rules machine.now).colours }
    requires keep { FitsKeep (M.rules machine.now).colours keep }
    requires some { (s : State) × Holds past.old s }
    ensures states { IfOk result (λ b. AreKept (M.rules machine.now) past.old to.now
        (KeepsBy keep (pos at)) past.new b) }
    ensures colours { length past.new ≡ length past.old }
{
    match walk_past(alloc, machine, past, to)? {
        Some(_) => Ok(false),
        None => {
            keep_states(past, keep, at)?;
            Ok(true)
        }
    }
}

/// How many moves after the place it takes until no walk is left whose state there is what it is to
/// be.
pub fn moves_to_end<M: Machine>(
    alloc: Global,
    machine: &M,
    before: &Past,
    to: &[Move],
    keep: Keep,
    at: u32,
    after: &[Move],
) -> Result<Option<usize>, NoMemory>
    requires order { (low : ℕ) × EnteredBefore before.now low
        × InOrder (M.rules machine.now) low (to.now ++ after.now) }
    requires colours { length before.now ≡ (M.rules machine.now).colours }
    requires keep { FitsKeep (M.rules machine.now).colours keep }
    requires some { (s : State) × Holds before.now s }
    ensures { IfOk result (λ r. MatchOption r (NoneKeeps (M.rules machine.now) before.now to.now
        (KeepsBy keep (pos at)) after.now → ⊥) (λ n. IsEnd (M.rules machine.now) before.now to.now
        (KeepsBy keep (pos at)) after.now n)) }
{
    let mut kept = before.copy()?;
    if !keep_after(alloc, machine, &mut kept, to, keep, at)? {
        return Ok(Some(0));
    }
    ending(alloc, machine, &mut kept, after)
}

// The states in which the tenth may begin where nothing before it is known.
#[tactic(auto, using(crate::proofs::Nowhere::free_first, crate::proofs::Nowhere::free_after))]
fn free_at<M: Machine>(alloc: Global, machine: &M, from: u32) -> Result<Past, NoMemory>
    ensures states { IfOk result (λ p. (u : State) → Holds p u
        ↔ IsFreeAt (M.rules machine.now) from u) }
    ensures colours { IfOk result (λ p. length p ≡ (M.rules machine.now).colours) }
{
    let mut past = Past::start(alloc, machine.colours())?;
    if from == 0 {
        return Ok(past);
    }
    past_gap(machine, &mut past, 0, i64::from(from))?;
    Ok(past)
}

/// Whether no walk has the state that it is to have at the place where the moves before it begin at
/// the tenth, and nothing before that is known.
pub fn is_broken_from<M: Machine>(
    alloc: Global,
    machine: &M,
    from: u32,
    to: &[Move],
    keep: Keep,
    at: u32,
    after: &[Move],
) -> Result<bool, NoMemory>
    requires order { InOrder (M.rules machine.now) from (to.now ++ after.now) }
    requires keep { FitsKeep (M.rules machine.now).colours keep }
    ensures { IfOk result (λ b. IsTrue b ↔ NoneKeepsFrom (M.rules machine.now) from to.now
        (KeepsBy keep (pos at)) after.now) }
{
    let past = free_at(alloc, machine, from)?;
    is_broken_after(alloc, machine, &past, to, keep, at, after)
}

/// Whether no walk from these states has the state that it is to have at the place.
#[tactic(auto, using(crate::proofs::Nowhere::end_says))]
pub fn is_broken_after<M: Machine>(
    alloc: Global,
    machine: &M,
    before: &Past,
    to: &[Move],
    keep: Keep,
    at: u32,
    after: &[Move],
) -> Result<bool, NoMemory>
    requires order { (low : ℕ) × EnteredBefore before.now low
        × InOrder (M.rules machine.now) low (to.now ++ after.now) }
    requires colours { length before.now ≡ (M.rules machine.now).colours }
    requires keep { FitsKeep (M.rules machine.now).colours keep }
    requires some { (s : State) × Holds before.now s }
    ensures { IfOk result (λ b. IsTrue b ↔ NoneKeeps (M.rules machine.now) before.now to.now
        (KeepsBy keep (pos at)) after.now) }
{
    Ok(moves_to_end(alloc, machine, before, to, keep, at, after)?.is_some())
}
