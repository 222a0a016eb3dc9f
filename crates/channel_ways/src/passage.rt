// Over a place between moves.
ghost use Rattle.std.specs.Prelude.{◌≡◌, length, IfOk, IfSome, MatchOption};
ghost use Rattle.reach.specs.Runs.{State};
ghost use Rattle.reach.specs.Past.{Holds};
ghost use Rattle.gap_ways.specs.Ways.{state_of};
ghost use Rattle.channel_ways.specs.Moves.{IsPassage, IsPassing, IsSourceThrough};

use crate::back::walk_source;
use crate::onward::walk_end;
use channel_path::{Move, walk_ahead, walk_past};
use colour_machine::Machine;
use gap_ways::{Entered, Fill, only_state, possible_state};
use reach::{Ahead, Past, Test};
use sig_base::NoMemory;
use std::alloc::Global;

/// A place between the moves of an hour: what is possible before them, the moves before the place
/// and after it, and what can be completed after them.
#[derive(Clone, Copy)]
pub struct Passage<'a> {
    pub before: &'a Past,
    pub left: &'a [Move],
    pub right: &'a [Move],
    pub after: &'a Ahead,
}

/// A state at the place, and the states with it alone.
#[derive(Drop)]
pub struct Passing {
    pub state: Entered,
    pub only: Past,
}

/// A state at the place for which the test is as `met` says, of those to which the moves before it
/// lead and from which those after it lead to one that can be completed. None where there is none.
pub fn passage_state<M: Machine>(
    alloc: Global,
    machine: &M,
    passage: &Passage<'_>,
    test: &Test,
    met: bool,
) -> Result<Option<Passing>, NoMemory>
    requires passage { IsPassage (M.rules machine.now) passage.now.before.now
        passage.now.left.now passage.now.right.now test.now.at }
    requires colours { length passage.now.before.now ≡ (M.rules machine.now).colours }
    requires ahead { length passage.now.after.now ≡ (M.rules machine.now).colours }
    requires some { (s : State) × Holds passage.now.before.now s }
    ensures { IfOk result (λ r. IsPassing (M.rules machine.now) passage.now.before.now
        passage.now.after.now passage.now.left.now passage.now.right.now met test.now r) }
{
    let mut past = passage.before.copy()?;
    if let Some(_stop) = walk_past(alloc, machine, &mut past, passage.left)? {
        return Ok(None);
    }
    let mut ahead = passage.after.copy();
    walk_ahead(machine, &mut ahead, passage.right);
    let found = possible_state(machine, &past, &ahead, test, met)?;
    let Some(state) = found else {
        return Ok(None);
    };
    let only = only_state(&past, state)?;
    Ok(Some(Passing { state, only }))
}

/// A possible state before the moves from which they, with fills in their gaps, lead over a state
/// at the place for which the test is as `met` says, to one that can be completed. None where no
/// such fills are. At most sixteen fills are added for each gap, the last first.
pub fn passage_source<M: Machine>(
    alloc: Global,
    machine: &M,
    passage: &Passage<'_>,
    test: &Test,
    met: bool,
    fills: &mut Vec<Fill>,
) -> Result<Option<Entered>, NoMemory>
    requires passage { IsPassage (M.rules machine.now) passage.now.before.now
        passage.now.left.now passage.now.right.now test.now.at }
    requires colours { length passage.now.before.now ≡ (M.rules machine.now).colours }
    requires ahead { length passage.now.after.now ≡ (M.rules machine.now).colours }
    requires some { (s : State) × Holds passage.now.before.now s }
    ensures held { IfOk result (λ r. IfSome r (λ s. Holds passage.now.before.now (state_of s))) }
    ensures way { IfOk result (IsSourceThrough (M.rules machine.now) passage.now.before.now
        passage.now.after.now passage.now.left.now passage.now.right.now met test.now
        fills.old.items fills.new.items) }
{
    let passing = passage_state(alloc, machine, passage, test, met)?;
    let Some(found) = passing else {
        return Ok(None);
    };
    let end = walk_end(
        alloc,
        machine,
        &found.only,
        found.state,
        passage.right,
        passage.after,
    )?;
    let _state = walk_source(alloc, machine, &found.only, passage.right, end, fills)?;
    let source = walk_source(
        alloc,
        machine,
        passage.before,
        passage.left,
        found.state,
        fills,
    )?;
    Ok(Some(source))
}
