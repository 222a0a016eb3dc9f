// One channel's ways over moves.
ghost use Rattle.std.specs.Prelude.{◌≡◌, ◌↔◌, ℕ, ℤ, pos, negsuc, ◌≤ℤ◌, ◌^◌, length, IfOk};
ghost use Rattle.channel_tables.specs.Spec.{IsSpec, rules_of};
ghost use Rattle.reach.specs.Runs.{State};
ghost use Rattle.reach.specs.Past.{Holds};
ghost use Rattle.reach.specs.Ahead.{Admits};
ghost use Rattle.channel_path.specs.Walks.{AfterMoves, BeforeMoves, EnteredBefore, InOrder};
ghost use Rattle.gap_ways.specs.Ways.{NoneOlder, state_of};
ghost use Rattle.channel_ways.specs.Moves.{AddedAlike, AddedMoves, ClampedAfter, IsAlone, IsPassage, IsPassing};
ghost use Rattle.strand_search.specs.Parts.{GoOn, StandsAlone};

use channel_path::{Move, walk_past};
use channel_tables::{Spec, machine_of};
use channel_ways::{Passage, Passing, clamped_source, passage_state, walk_end, walk_source};
use gap_ways::{Entered, Fill, only_state};
use reach::{Ahead, Past, Test};
use sig_base::{NoMemory, Tenth};
use std::alloc::Global;

/// A state before the moves from which letters in their gaps lead to the target, which is one after
/// them. The letters are added last first.
pub(crate) fn source_of(
    alloc: Global,
    spec: &Spec,
    before: &Past,
    moves: &[Move],
    target: Entered,
    letters: &mut Vec<Fill>,
) -> Result<Entered, NoMemory>
    requires spec { IsSpec spec.now }
    requires order { (low : ℕ) × EnteredBefore before.now low
        × InOrder (rules_of spec.now) low moves.now }
    requires colours { length before.now ≡ (rules_of spec.now).colours }
    requires none_older { NoneOlder before.now }
    requires reached { AfterMoves (rules_of spec.now) before.now moves.now (state_of target) }
    ensures held { IfOk result (λ s. Holds before.now (state_of s)) }
    ensures way { IfOk result (λ s. AddedMoves (rules_of spec.now) moves.now
        letters.old.items letters.new.items s target) }
{
    let machine = machine_of(spec);
    walk_source(alloc, &machine, before, moves, target, letters)
}

/// The same, where the target is one of the states after the moves with all entries below the limit
/// put to it: the letters lead to a state that is alike.
pub(crate) fn clamped_source_of(
    alloc: Global,
    spec: &Spec,
    before: &Past,
    moves: &[Move],
    limit: Tenth,
    target: Entered,
    letters: &mut Vec<Fill>,
) -> Result<Entered, NoMemory>
    requires spec { IsSpec spec.now }
    requires order { (low : ℕ) × EnteredBefore before.now low
        × InOrder (rules_of spec.now) low moves.now }
    requires colours { length before.now ≡ (rules_of spec.now).colours }
    requires none_older { NoneOlder before.now }
    requires low { negsuc (2 ^ 39) ≤ℤ limit }
    requires high { limit ≤ℤ pos (2 ^ 38) }
    requires reached { ClampedAfter (rules_of spec.now) before.now moves.now limit
        (state_of target) }
    ensures held { IfOk result (λ s. Holds before.now (state_of s)) }
    ensures way { IfOk result (AddedAlike (rules_of spec.now) moves.now limit
        letters.old.items letters.new.items target) }
{
    let machine = machine_of(spec);
    clamped_source(alloc, &machine, before, moves, limit, target, letters)
}

/// A state at the place between the moves for which the test is as `met` says. None where there is
/// none.
pub(crate) fn state_between(
    alloc: Global,
    spec: &Spec,
    passage: &Passage<'_>,
    test: &Test,
    met: bool,
) -> Result<Option<Passing>, NoMemory>
    requires spec { IsSpec spec.now }
    requires passage { IsPassage (rules_of spec.now) passage.now.before.now
        passage.now.left.now passage.now.right.now test.now.at }
    requires colours { length passage.now.before.now ≡ (rules_of spec.now).colours }
    requires ahead { length passage.now.after.now ≡ (rules_of spec.now).colours }
    requires some { (s : State) × Holds passage.now.before.now s }
    ensures { IfOk result (λ r. IsPassing (rules_of spec.now) passage.now.before.now
        passage.now.after.now passage.now.left.now passage.now.right.now met test.now r) }
{
    let machine = machine_of(spec);
    passage_state(alloc, &machine, passage, test, met)
}

// A state after the moves that can be completed.
fn end_of(
    alloc: Global,
    spec: &Spec,
    from: &Passing,
    moves: &[Move],
    after: &Ahead,
) -> Result<Entered, NoMemory>
    requires spec { IsSpec spec.now }
    requires alone { (low : ℕ) × StandsAlone (rules_of spec.now) low from.now
        × GoOn (rules_of spec.now) low moves.now }
    requires ahead { length after.now ≡ (rules_of spec.now).colours }
    requires completed { BeforeMoves (rules_of spec.now) after.now moves.now
        (state_of from.now.state) }
    ensures admitted { IfOk result (λ u. Admits after.now (state_of u)) }
    ensures reached { IfOk result (λ u.
        AfterMoves (rules_of spec.now) from.now.only moves.now (state_of u)) }
{
    let machine = machine_of(spec);
    walk_end(alloc, &machine, &from.only, from.state, moves, after)
}

// The states after the moves.
fn states_after(
    alloc: Global,
    spec: &Spec,
    from: &Passing,
    moves: &[Move],
) -> Result<Past, NoMemory>
    requires spec { IsSpec spec.now }
    requires alone { (low : ℕ) × StandsAlone (rules_of spec.now) low from.now
        × GoOn (rules_of spec.now) low moves.now }
    requires some { (u : State) × AfterMoves (rules_of spec.now) from.now.only moves.now u }
    ensures states { IfOk result (λ p. (u : State) → Holds p u
        ↔ AfterMoves (rules_of spec.now) from.now.only moves.now u) }
    ensures colours { IfOk result (λ p. length p ≡ (rules_of spec.now).colours) }
{
    let machine = machine_of(spec);
    let mut past = from.only.copy()?;
    if let Some(_stop) = walk_past(alloc, &machine, &mut past, moves)? {
        unreachable!()
    }
    Ok(past)
}

/// On from a state that stands alone, over the moves, to one that can be completed and stands
/// alone. The letters in their gaps are added last first.
pub(crate) fn way_on(
    alloc: Global,
    spec: &Spec,
    from: &Passing,
    moves: &[Move],
    after: &Ahead,
    letters: &mut Vec<Fill>,
) -> Result<Passing, NoMemory>
    requires spec { IsSpec spec.now }
    requires alone { (low : ℕ) × StandsAlone (rules_of spec.now) low from.now
        × GoOn (rules_of spec.now) low moves.now }
    requires ahead { length after.now ≡ (rules_of spec.now).colours }
    requires completed { BeforeMoves (rules_of spec.now) after.now moves.now
        (state_of from.now.state) }
    ensures admitted { IfOk result (λ r. Admits after.now (state_of r.state)) }
    ensures alone { IfOk result (λ r. IsAlone r.only r.state) }
    ensures colours { IfOk result (λ r. length r.only ≡ (rules_of spec.now).colours) }
    ensures late { IfOk result (λ r. negsuc (2 ^ 39) ≤ℤ r.state.entry) }
    ensures way { IfOk result (λ r. AddedMoves (rules_of spec.now) moves.now
        letters.old.items letters.new.items from.now.state r.state) }
{
    let end = end_of(alloc, spec, from, moves, after)?;
    let past = states_after(alloc, spec, from, moves)?;
    let only = only_state(&past, end)?;
    let _from = source_of(alloc, spec, &from.only, moves, end, letters)?;
    Ok(Passing { state: end, only })
}
