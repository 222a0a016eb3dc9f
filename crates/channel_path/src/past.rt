// The states after moves.
ghost use Rattle.std.specs.Prelude.{◌≡◌, ℕ, pos, ◌<◌, ◌≤◌, ◌+◌, ◌^◌, ◌↔◌, ◌∷◌, ◌++◌, length, take, IsTrue, IfOk, OnOk, OnErr, MatchOption, slice_index_or, []};
ghost use Rattle.reach.specs.Runs.{State};
ghost use Rattle.reach.specs.Past.{Holds, AfterGap, AfterRow};
ghost use Rattle.channel_path.specs.declared.moves.Move.TheVariants.{Gap};
ghost use Rattle.channel_path.specs.Walks.{InOrder, AfterMoves, StopsAt, EnteredBefore};
ghost use Rattle.channel_path.specs.Kept.{letters, AreRuns, kept_before, HasPast, past_of, ArePasts};
ghost use Rattle.channel_path.specs.Legs.{IsLeg};

use crate::leg::{END, leg_end, put_holes};
use crate::moves::Move;
use colour_machine::Machine;
use reach::{Past, past_gap, past_row, past_run};
use sig_base::NoMemory;
use span_set::Span;
use std::alloc::Global;

/// The states after the moves, from some state before them. It answers the place of the first move
/// after which no state is left, where there is one; then it has gone no further.
pub fn walk_past<M: Machine>(
    alloc: Global,
    machine: &M,
    past: &mut Past,
    moves: &[Move],
) -> Result<Option<usize>, NoMemory>
    requires order { (low : ℕ) × EnteredBefore past.old low
        × InOrder (M.rules machine.now) low moves.now }
    requires colours { length past.old ≡ (M.rules machine.now).colours }
    requires some { (s : State) × Holds past.old s }
    ensures after { IfOk result (λ r. MatchOption r (((u : State) → Holds past.new u
        ↔ AfterMoves (M.rules machine.now) past.old moves.now u)
        × ((u : State) × Holds past.new u)) (λ j. StopsAt (M.rules machine.now) past.old moves.now
        j)) }
    ensures colours { length past.new ≡ length past.old }
{
    let mut holes = Vec::new(alloc);
    let mut place = 0;
    while place < moves.len() {
        match moves[place] {
            Move::Letter { at, letter, .. } => {
                if !letter_past(machine, past, at, letter)? {
                    return Ok(Some(place));
                }
                place += 1;
            }
            Move::Gap { from, to } => {
                let end = leg_end(moves, place);
                gaps_past(machine, past, &mut holes, &moves[place..end], from, to)?;
                place = end;
            }
        }
    }
    Ok(None)
}

// One letter. Answers whether a state is left.
fn letter_past<M: Machine>(
    machine: &M,
    past: &mut Past,
    at: u32,
    letter: u8,
) -> Result<bool, NoMemory>
    requires fits { letter < (M.rules machine.now).letters }
    requires place { EnteredBefore past.old (at + 1) }
    requires colours { length past.old ≡ (M.rules machine.now).colours }
    ensures after { OnOk result ((u : State) → Holds past.new u
        ↔ AfterRow (M.rules machine.now) past.old (pos at) letter u) }
    ensures some { IfOk result (λ b. IsTrue b ↔ ((u : State) × Holds past.new u)) }
    ensures colours { length past.new ≡ length past.old }
{
    past_row(machine, past, i64::from(at), letter)
}

// The gaps of one leg, of which this is the first. The buffer takes the holes of two or more.
fn gaps_past<M: Machine>(
    machine: &M,
    past: &mut Past,
    holes: &mut Vec<Span>,
    leg: &[Move],
    from: u32,
    to: u32,
) -> Result<(), NoMemory>
    requires some { 0 < length leg.now }
    requires leg { IsLeg leg.now }
    requires first { (d : Move) → slice_index_or leg.now 0 d ≡ Gap from to }
    requires order { (low : ℕ) × EnteredBefore past.old low
        × InOrder (M.rules machine.now) low leg.now }
    requires colours { length past.old ≡ (M.rules machine.now).colours }
    ensures after { OnOk result ((u : State) → Holds past.new u
        ↔ AfterMoves (M.rules machine.now) past.old leg.now u) }
    ensures colours { length past.new ≡ length past.old }
{
    if leg.len() == 1 {
        return gap_past(machine, past, from, to);
    }
    put_holes(holes, leg)?;
    past_run(machine, past, holes.as_slice(), 0, END)
}

fn gap_past<M: Machine>(machine: &M, past: &mut Past, from: u32, to: u32) -> Result<(), NoMemory>
    requires some { from < to }
    requires place { EnteredBefore past.old from }
    requires colours { length past.old ≡ (M.rules machine.now).colours }
    ensures after { OnOk result ((u : State) → Holds past.new u
        ↔ AfterGap (M.rules machine.now) past.old (pos from) (pos to) u) }
    ensures colours { length past.new ≡ length past.old }
{
    past_gap(machine, past, i64::from(from), i64::from(to))
}

/// The Pasts of the runs of gaps: each is that before the next letter, or after the last move.
#[derive(Drop)]
pub struct RunPasts {
    pub pasts: Vec<Past>,
    // For each place, before a move or after the last, the number of its run.
    pub runs: Vec<usize>,
}

/// The Past of the place's run.
pub fn past_at(pasts: &RunPasts, place: usize) -> &Past
    requires place { place < length pasts.now.runs.items }
    requires run { HasPast pasts.now place }
    ensures { result.now ≡ past_of pasts.now place }
{
    &pasts.pasts[pasts.runs[place]]
}

// A gap mostly leaves several states up to the first or second letter after it.
const SPARE: usize = 4;

/// One Past for each run of gaps, and the run of each place, up to the place that is answered: the
/// first from `from` on with one state alone, or that after the last move.
pub fn pasts_of<M: Machine>(
    alloc: Global,
    machine: &M,
    before: &Past,
    moves: &[Move],
    from: usize,
) -> Result<(RunPasts, usize), NoMemory>
    requires order { (low : ℕ) × EnteredBefore before.now low
        × InOrder (M.rules machine.now) low moves.now }
    requires colours { length before.now ≡ (M.rules machine.now).colours }
    requires from { from ≤ length moves.now }
    ensures late { IfOk result (λ r. from ≤ r.1) }
    ensures within { IfOk result (λ r. r.1 ≤ length moves.now) }
    ensures runs { IfOk result (λ r. AreRuns (take r.1 moves.now) r.0.runs.items) }
    ensures count { IfOk result
        (λ r. length r.0.pasts.items ≡ letters (take r.1 moves.now) + 1) }
    ensures pasts { IfOk result
        (λ r. ArePasts (M.rules machine.now) before.now (take r.1 moves.now) r.0) }
{
    let mut pasts = Vec::with_capacity(alloc, letters_in(&moves[..from]).saturating_add(SPARE))?;
    let mut past = before.copy()?;
    let mut holes = Vec::new(alloc);
    let mut place = 0;
    while place < moves.len() && !may_end(&past, place, from) {
        match moves[place] {
            Move::Letter { at, letter, .. } => {
                keep_past(&mut pasts, &past)?;
                let _some = letter_past(machine, &mut past, at, letter)?;
                place += 1;
            }
            Move::Gap { from, to } => {
                let end = leg_end(moves, place);
                gaps_past(machine, &mut past, &mut holes, &moves[place..end], from, to)?;
                place = end;
            }
        }
    }
    pasts.push(past)?;
    let runs = runs_of(alloc, &moves[..place])?;
    Ok((RunPasts { pasts, runs }, place))
}

// Whether the walk may end at the place: it is `from` or one after it, and has one state alone.
fn may_end(past: &Past, place: usize, from: usize) -> bool
    ensures { IsTrue result → from ≤ place }
{
    from <= place && past.single().is_some()
}

// How many of the moves are letters.
fn letters_in(moves: &[Move]) -> usize {
    moves.iter().filter(|one| is_letter(**one)).count()
}

fn is_letter(one: Move) -> bool {
    match one {
        Move::Letter { .. } => true,
        Move::Gap { .. } => false,
    }
}

/// The place after the last gap, or the first place where there is none.
pub fn gaps_end(moves: &[Move]) -> usize
    ensures { result ≤ length moves.now }
{
    for place in (0..moves.len()).rev() {
        if !is_letter(moves[place]) {
            return place + 1;
        }
    }
    0
}

// The number of each place's run: how many letters are before the place.
fn runs_of(alloc: Global, moves: &[Move]) -> Result<Vec<usize>, NoMemory>
    ensures { IfOk result (λ v. AreRuns moves.now v.items) }
{
    let mut runs = Vec::with_capacity(alloc, moves.len() + 1)?;
    let mut count = 0;
    for i in 0..moves.len() {
        runs.push(count)?;
        count = count_on(count, moves[i]);
    }
    runs.push(count)?;
    Ok(runs)
}

// So many letters, and one more where the move is one.
fn count_on(count: usize, next: Move) -> usize
    requires { count < 2 ^ 63 }
    ensures { result ≡ count + letters (next ∷ []) }
{
    match next {
        Move::Letter { .. } => count + 1,
        Move::Gap { .. } => count,
    }
}

/// A letter ends the run before it, whose states are kept. A gap goes on with it. Where memory is
/// lacking, `pasts` is as before.
pub fn end_run(pasts: &mut Vec<Past>, past: &Past, next: Move) -> Result<(), NoMemory>
    ensures ok { OnOk result (pasts.new.items ≡ kept_before next pasts.old.items past.now) }
    ensures err { OnErr result (pasts.new.items ≡ pasts.old.items) }
{
    match next {
        Move::Letter { .. } => keep_past(pasts, past),
        Move::Gap { .. } => Ok(()),
    }
}

// One Past more.
fn keep_past(pasts: &mut Vec<Past>, past: &Past) -> Result<(), NoMemory>
    ensures ok { OnOk result (pasts.new.items ≡ pasts.old.items ++ past.now ∷ []) }
    ensures err { OnErr result (pasts.new.items ≡ pasts.old.items) }
{
    let kept = past.copy()?;
    pasts.push(kept)?;
    Ok(())
}
