// The states before an hour, where those of each channel before it and after it stand: of a channel
// whose first few moves alone tell, no others are walked back.
ghost use Rattle.std.specs.Prelude.{◌≡◌, ◌↔◌, ℕ, ℤ, pos, ◌<ℤ◌, ◌≤ℤ◌, IsTrue, List, Option, length, IfOk, IfSome};
ghost use Rattle.channel_tables.specs.Any.{any_rules};
ghost use Rattle.channel_tables.specs.Spec.{IsSpec, rules_of};
ghost use Rattle.reach.specs.Runs.{State};
ghost use Rattle.reach.specs.Past.{Holds};
ghost use Rattle.reach.specs.Ahead.{Admits};
ghost use Rattle.channel_path.specs.Walks.{InOrder, AfterMoves, BeforeMoves, EnteredBefore, GoesThrough};
ghost use Rattle.channel_path.specs.Places.{EntersBefore};
ghost use Rattle.board.specs.Channels.{AreSpecs};
ghost use Rattle.board.specs.Logs.{IsHour, first_tenth};
ghost use Rattle.board.specs.Stops.{AreBefore};
ghost use Rattle.board.specs.Places.{AllEarly, AreAheadsOf};
ghost use Rattle.board.specs.Hours.{AreAheadsBefore, ArePastsOf};

use crate::about::About;
use crate::aheads::{Aheads, ahead_before, lower_before, repeats_ahead};
use crate::courses::Courses;
use crate::pasts::Pasts;
use channel_path::{Move, ahead_near};
use channel_tables::{AnyMachine, Spec, machine_of};
use colour_machine::Mask;
use gap_map::{Stretch, first_of};
use reach::{AgeBound, Ahead, Past, Test, possible};
use sig_base::NoMemory;
use std::alloc::Global;

// So many moves or fewer are all walked back.
const FEW: usize = 24;

/// The same as `aheads_along`, where these are the states of each channel before the hour and after
/// it, those older than an hour made one: of a channel whose first few moves alone tell, no others
/// are walked back.
pub fn aheads_between(
    alloc: Global,
    specs: &[Spec],
    states: &About<'_, Pasts>,
    after: &Aheads,
    stretches: &[Stretch],
    courses: &Courses,
) -> Result<Aheads, NoMemory>
    requires same_specs { courses.now.specs ≡ specs.now }
    requires same_stretches { courses.now.stretches ≡ stretches.now }
    requires specs { AreSpecs specs.now }
    requires hour { (h : ℕ) × IsHour h courses.now.rows stretches.now
        × AllEarly (first_tenth h) states.now.before.now }
    requires before { AreBefore specs.now states.now.before.now }
    requires reached { AreBefore specs.now states.now.after.now }
    requires states { ArePastsOf specs.now courses.now.rows stretches.now states.now.before.now
        states.now.after.now }
    requires after { AreAheadsOf specs.now after.now }
    ensures shape { IfOk result (λ a. AreAheadsOf specs.now a) }
    ensures before { IfOk result (λ a. AreAheadsBefore specs.now courses.now.rows stretches.now
        after.now a) }
{
    let before = states.before;
    let reached = states.after;
    let list = courses.list();
    let first = first_of(stretches);
    let mut aheads: Vec<Ahead> = Vec::new(alloc);
    for i in 0..specs.len() {
        if repeats_ahead(specs, list, after, i) {
            let ahead = aheads[i - 1].copy();
            aheads.push(ahead)?;
            continue;
        }
        let ahead = ahead_between(
            alloc,
            &specs[i],
            &before.pasts[i],
            &reached.pasts[i],
            &after.aheads[i],
            list[i].moves(),
            first,
        )?;
        aheads.push(ahead)?;
    }
    Ok(Aheads { aheads, alloc })
}

// The same as `ahead_before`, where the moves lead from the first of these states to the second,
// the entries of which may be later.
fn ahead_between(
    alloc: Global,
    spec: &Spec,
    before: &Past,
    reached: &Past,
    after: &Ahead,
    moves: &[Move],
    first: u32,
) -> Result<Ahead, NoMemory>
    requires fits { IsSpec spec.now }
    requires order { (low : ℕ) × EnteredBefore before.now low
        × InOrder (rules_of spec.now) low moves.now }
    requires width { length before.now ≡ (rules_of spec.now).colours }
    requires some { (s : State) × Holds before.now s }
    requires reached_width { length reached.now ≡ (rules_of spec.now).colours }
    requires reached { (u : State) → Holds reached.now u
        → (v : State) × AfterMoves (rules_of spec.now) before.now moves.now v
        × (v.colour ≡ u.colour) × (v.entry ≤ℤ u.entry) }
    requires colours { length after.now ≡ (rules_of spec.now).colours }
    ensures before { IfOk result (λ a. (s : State) → Admits a s ↔ ((EntersBefore moves.now s
        × BeforeMoves (rules_of spec.now) after.now moves.now s) × (s.entry <ℤ pos first))) }
    ensures colours { IfOk result (λ a. length a ≡ length after.now) }
{
    if moves.len() <= FEW || !goes_on(reached, after) {
        return Ok(ahead_before(spec, after, moves, first));
    }
    match near_any(alloc, machine_of(spec), before, moves)? {
        None => Ok(ahead_before(spec, after, moves, first)),
        Some(mut ahead) => {
            lower_before(&mut ahead, first);
            Ok(ahead)
        }
    }
}

// Whether some state of the Past is admitted.
fn goes_on(past: &Past, ahead: &Ahead) -> bool
    requires colours { length past.now ≡ length ahead.now }
    ensures { IsTrue result → (s : State) × Holds past.now s × Admits ahead.now s }
{
    let test = Test {
        colours: Mask::none(),
        bound: AgeBound::Any,
        at: 1 << 39,
    };
    possible(past, ahead, &test).some_false
}

// What the first few moves tell for a machine of any kind: each kind has a walk of its own.
fn near_any(
    alloc: Global,
    machine: AnyMachine,
    before: &Past,
    moves: &[Move],
) -> Result<Option<Ahead>, NoMemory>
    requires order { (low : ℕ) × EnteredBefore before.now low
        × InOrder (any_rules machine) low moves.now }
    requires colours { length before.now ≡ (any_rules machine).colours }
    requires some { (s : State) × Holds before.now s }
    ensures before { IfOk result (λ r. IfSome r (λ a. (after : List (Option ℤ))
        → length after ≡ (any_rules machine).colours
        → GoesThrough (any_rules machine) before.now after moves.now
        → (s : State) → Admits a s ↔ (EntersBefore moves.now s
        × BeforeMoves (any_rules machine) after moves.now s))) }
    ensures colours { IfOk result (λ r. IfSome r (λ a.
        length a ≡ (any_rules machine).colours)) }
{
    match machine {
        AnyMachine::Phase(machine) => ahead_near(alloc, &machine, before, moves),
        AnyMachine::Ped(machine) => ahead_near(alloc, &machine, before, moves),
        AnyMachine::Overlap(machine) => ahead_near(alloc, &machine, before, moves),
        AnyMachine::Switch(machine) => ahead_near(alloc, &machine, before, moves),
        AnyMachine::Detector(machine) => ahead_near(alloc, &machine, before, moves),
        AnyMachine::Preempt(machine) => ahead_near(alloc, &machine, before, moves),
        AnyMachine::Coord(machine) => ahead_near(alloc, &machine, before, moves),
    }
}
