// The states before moves.
ghost use Rattle.std.specs.Prelude.{◌≡◌, ℕ, pos, ◌+◌, ◌<◌, ◌<ℤ◌, ◌^◌, ◌↔◌, ◌++◌, ◌∷◌, length, drop, false, IsTrue, IfOk, OnOk, slice_index_or, []};
ghost use Rattle.reach.specs.Runs.{State};
ghost use Rattle.reach.specs.Past.{Holds, IsAlone};
ghost use Rattle.reach.specs.Ahead.{Admits};
ghost use Rattle.reach.specs.Holes.{AreHoles};
ghost use Rattle.reach.specs.Last.{BeforeGaps};
ghost use Rattle.channel_path.specs.Walks.{limit_before, IsMove, InOrder, BeforeMove, BeforeMoves};
ghost use Rattle.channel_path.specs.Places.{EntersBefore};
ghost use Rattle.channel_path.specs.Kept.{HasAhead, ahead_of, HavePasts, HaveAheads, AreMore, AdmitSame, IsAhead, AreStandIns, AddsPlaces};
ghost use Rattle.channel_path.specs.Legs.{IsLeg};

use crate::leg::{END, leg_begin, put_holes};
use crate::moves::Move;
use crate::past::{RunPasts, past_at};
use colour_machine::{Machine, Mask};
use reach::{
    AgeBound, Ahead, Past, Test, ahead_gap, ahead_holes, ahead_in, ahead_row, is_sure, possible,
};
use sig_base::NoMemory;
use span_set::Span;
use std::alloc::Global;

/// The states, entered early enough for the first move, from which the moves lead to one that was
/// admitted.
pub fn walk_ahead<M: Machine>(machine: &M, ahead: &mut Ahead, moves: &[Move])
    requires order { InOrder (M.rules machine.now) 0 moves.now }
    requires colours { length ahead.old ≡ (M.rules machine.now).colours }
    ensures before { (s : State) → Admits ahead.new s ↔ (EntersBefore moves.now s
        × BeforeMoves (M.rules machine.now) ahead.old moves.now s) }
    ensures colours { length ahead.new ≡ length ahead.old }
{
    for turn in 0..moves.len() {
        move_ahead(machine, ahead, moves[moves.len() - 1 - turn]);
    }
}

/// The same for one move.
pub fn move_ahead<M: Machine>(machine: &M, ahead: &mut Ahead, one: Move)
    requires fits { IsMove (M.rules machine.now) one }
    requires colours { length ahead.old ≡ (M.rules machine.now).colours }
    ensures before { (s : State) → Admits ahead.new s ↔ ((s.entry <ℤ pos (limit_before one))
        × BeforeMove (M.rules machine.now) ahead.old one s) }
    ensures colours { length ahead.new ≡ length ahead.old }
{
    match one {
        Move::Letter {
            at,
            letter,
            row: _row,
        } => ahead_row(machine, ahead, i64::from(at), letter),
        Move::Gap { from, to } => ahead_gap(machine, ahead, i64::from(from), i64::from(to)),
    }
}

/// The Aheads of the places.
#[derive(Drop)]
pub struct PlaceAheads {
    // The first admits nearly everything, and stands where one state alone is kept and can be
    // completed.
    pub aheads: Vec<Ahead>,
    // For the place after the last move, that before it and so on the number of its Ahead.
    pub numbers: Vec<usize>,
}

/// Later than every entry.
pub const FAR: i64 = 500_000_000_000;

/// The Ahead of the place.
pub fn ahead_at(places: &PlaceAheads, place: usize) -> &Ahead
    requires { HasAhead places.now place }
    ensures { result.now ≡ ahead_of places.now place }
{
    let number = places.numbers[places.numbers.len() - 1 - place];
    &places.aheads[number]
}

/// An Ahead for the place before no move, before the last move, before the last two and so on.
/// Where some run goes on after the moves, it goes through each place. So where a place has one
/// state alone, that goes on, and nothing need be known of what comes after the place: between two
/// such places a letter is passed over.
pub fn aheads_of<M: Machine>(
    alloc: Global,
    machine: &M,
    after: &Ahead,
    moves: &[Move],
    pasts: &RunPasts,
) -> Result<PlaceAheads, NoMemory>
    requires colours { length after.now ≡ (M.rules machine.now).colours }
    requires pasts { HavePasts (M.rules machine.now) moves.now pasts.now }
    ensures places { IfOk result (λ v. length v.numbers.items ≡ length moves.now + 1) }
    ensures aheads { IfOk result
        (AreStandIns (M.rules machine.now) after.now moves.now pasts.now 0) }
{
    let all = Ahead::end(machine.colours(), FAR);
    let mut aheads = Vec::new(alloc);
    aheads.push(all.copy())?;
    let numbers = Vec::with_capacity(alloc, moves.len() + 1)?;
    let mut places = PlaceAheads { aheads, numbers };
    let some = goes_on(past_at(pasts, moves.len()), after);
    let mut ahead = after.copy();
    let mut is_all = false;
    let mut holes = Vec::new(alloc);
    let mut place = moves.len();
    while place > 0 {
        let begin = leg_begin(moves, place);
        let certain = is_certain(some, past_at(pasts, begin), &all);
        if certain && is_all && begin + 1 == place {
            add_first(&mut places)?;
            place = begin;
            continue;
        }
        let past = past_at(pasts, place);
        back_over(
            machine,
            &mut ahead,
            &mut places,
            &mut holes,
            past,
            &moves[begin..place],
            certain,
        )?;
        if certain {
            ahead = all.copy();
        }
        is_all = certain;
        place = begin;
    }
    add_place(&mut places, past_at(pasts, 0), &ahead)?;
    Ok(places)
}

// A place gets the number of the first Ahead.
fn add_first(places: &mut PlaceAheads) -> Result<(), NoMemory>
    ensures { OnOk result ((places.new.aheads ≡ places.old.aheads)
        × (places.new.numbers.items ≡ places.old.numbers.items ++ 0 ∷ [])) }
{
    places.numbers.push(0)?;
    Ok(())
}

// Whether some run goes on, and the Past has one state alone, which is admitted.
fn is_certain(some: bool, past: &Past, all: &Ahead) -> bool
    requires colours { length past.now ≡ length all.now }
    ensures some { IsTrue result → IsTrue some }
    ensures admits { IsTrue result → (s : State) → Holds past.now s → Admits all.now s }
    ensures alone { IsTrue result → IsAlone past.now }
{
    some && is_sure(past, all)
}

// Whether some state of the Past is admitted.
fn goes_on(past: &Past, ahead: &Ahead) -> bool
    requires colours { length past.now ≡ length ahead.now }
    ensures { IsTrue result → (s : State) × Holds past.now s × Admits ahead.now s }
{
    let test = Test {
        colours: Mask::none(),
        bound: AgeBound::Any,
        at: 1 << 39,
    };
    possible(past, ahead, &test).some_false
}

// The same for one leg, but that the Ahead of the place before it isn't made where it isn't wanted,
// since that place is certain.
fn back_over<M: Machine>(
    machine: &M,
    ahead: &mut Ahead,
    places: &mut PlaceAheads,
    holes: &mut Vec<Span>,
    past: &Past,
    leg: &[Move],
    certain: bool,
) -> Result<(), NoMemory>
    requires some { 0 < length leg.now }
    requires leg { IsLeg leg.now }
    requires order { (low : ℕ) × InOrder (M.rules machine.now) low leg.now }
    requires colours { length ahead.old ≡ (M.rules machine.now).colours }
    requires past { length past.now ≡ (M.rules machine.now).colours }
    requires aheads { HaveAheads (M.rules machine.now).colours places.old.aheads.items }
    ensures before { certain ≡ false
        → OnOk result (IsAhead (M.rules machine.now) ahead.old leg.now ahead.new) }
    ensures places { OnOk result
        (AddsPlaces (M.rules machine.now).colours past.now 0 (length leg.now)
        (λ j. BeforeMoves (M.rules machine.now) ahead.old (drop j leg.now))
        places.old places.new) }
{
    if certain && leg.len() == 1 {
        return add_place(places, past, ahead);
    }
    leg_ahead(machine, ahead, places, holes, past, leg)
}

// The moves of one leg, with the numbers of the places from that after it back to that after its
// first move, which have one Past. The buffer takes the holes of two gaps or more.
fn leg_ahead<M: Machine>(
    machine: &M,
    ahead: &mut Ahead,
    places: &mut PlaceAheads,
    holes: &mut Vec<Span>,
    past: &Past,
    leg: &[Move],
) -> Result<(), NoMemory>
    requires some { 0 < length leg.now }
    requires leg { IsLeg leg.now }
    requires order { (low : ℕ) × InOrder (M.rules machine.now) low leg.now }
    requires colours { length ahead.old ≡ (M.rules machine.now).colours }
    requires past { length past.now ≡ (M.rules machine.now).colours }
    requires aheads { HaveAheads (M.rules machine.now).colours places.old.aheads.items }
    ensures before { OnOk result (IsAhead (M.rules machine.now) ahead.old leg.now ahead.new) }
    ensures places { OnOk result
        (AddsPlaces (M.rules machine.now).colours past.now 0 (length leg.now)
        (λ j. BeforeMoves (M.rules machine.now) ahead.old (drop j leg.now))
        places.old places.new) }
{
    if leg.len() == 1 {
        add_place(places, past, ahead)?;
        move_ahead(machine, ahead, leg[0]);
        return Ok(());
    }
    put_holes(holes, leg)?;
    holes_ahead(machine, ahead, places, holes.as_slice(), past)
}

// The same for the holes of a leg.
fn holes_ahead<M: Machine>(
    machine: &M,
    ahead: &mut Ahead,
    places: &mut PlaceAheads,
    holes: &[Span],
    past: &Past,
) -> Result<(), NoMemory>
    requires holes { AreHoles (pos 0) (pos (2 ^ 32)) holes.now }
    requires colours { length ahead.old ≡ (M.rules machine.now).colours }
    requires past { length past.now ≡ (M.rules machine.now).colours }
    requires aheads { HaveAheads (M.rules machine.now).colours places.old.aheads.items }
    ensures before { OnOk result ((s : State) → Admits ahead.new s
        ↔ BeforeGaps (M.rules machine.now) ahead.old holes.now s) }
    ensures colours { length ahead.new ≡ length ahead.old }
    ensures places { OnOk result
        (AddsPlaces (M.rules machine.now).colours past.now 0 (length holes.now)
        (λ j. BeforeGaps (M.rules machine.now) ahead.old (drop j holes.now))
        places.old places.new) }
{
    let last = ahead_holes(machine, ahead, holes, 0, END);
    let mut here = ahead.copy();
    for turn in 0..holes.len() {
        add_place(places, past, &here)?;
        here = ahead_in(machine, ahead, &last, holes[holes.len() - 1 - turn].from);
    }
    *ahead = here;
    Ok(())
}

// A place with this Past and this Ahead gets the number of an Ahead that stands for it.
fn add_place(places: &mut PlaceAheads, past: &Past, ahead: &Ahead) -> Result<(), NoMemory>
    requires colours { length past.now ≡ length ahead.now }
    requires aheads { HaveAheads (length ahead.now) places.old.aheads.items }
    ensures { OnOk result (AddsPlaces (length ahead.now) past.now 0 1 (λ j. Admits ahead.now)
        places.old places.new) }
{
    let number = keep(&mut places.aheads, past, ahead)?;
    places.numbers.push(number)?;
    Ok(())
}

// The number of an Ahead that stands for this one among the states of the Past: the first where
// one state alone is kept and can be completed, the last where it is the same, else this one, which
// is added.
fn keep(aheads: &mut Vec<Ahead>, past: &Past, ahead: &Ahead) -> Result<usize, NoMemory>
    requires colours { length past.now ≡ length ahead.now }
    requires aheads { HaveAheads (length ahead.now) aheads.old.items }
    ensures all { OnOk result (HaveAheads (length ahead.now) aheads.new.items) }
    ensures more { OnOk result (AreMore aheads.old.items aheads.new.items) }
    ensures stands { IfOk result (λ n. (n < length aheads.new.items)
        × AdmitSame past.now (slice_index_or aheads.new.items n []) ahead.now) }
{
    if is_sure(past, ahead) && is_sure(past, &aheads[0]) {
        return Ok(0);
    }
    let last = aheads.len() - 1;
    if aheads[last].same(ahead) {
        return Ok(last);
    }
    let number = aheads.len();
    aheads.push(ahead.copy())?;
    Ok(number)
}
