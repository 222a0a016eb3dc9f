// What is kept for the places of a path.
ghost use Rattle.std.specs.Prelude.{◌≡◌, ℕ, ◌≤◌, length, take, IfOk};
ghost use Rattle.channel_path.specs.Walks.{InOrder, EnteredBefore};
ghost use Rattle.channel_path.specs.Kept.{AreRuns, ArePasts};
ghost use Rattle.channel_path.specs.Certain.{KeepsPlaces};

use crate::ahead::{FAR, PlaceAheads, aheads_of};
use crate::moves::Move;
use crate::past::{RunPasts, gaps_end, past_at, pasts_of};
use crate::sure::sure_at;
use colour_machine::Machine;
use reach::{Ahead, Past, Single};
use sig_base::NoMemory;
use std::alloc::Global;

/// What is kept for the places of a path.
#[derive(Drop)]
pub struct Places {
    // One for each run of gaps between letters up to the first certain place, and the run of each
    // place.
    pub pasts: RunPasts,
    // One for each of these places where more than one state was possible, and the number of each
    // place's.
    pub aheads: PlaceAheads,
    // The first certain place, or one past the last place where none is.
    pub first: usize,
    // The one state of each place from there on.
    pub sure: Vec<Single>,
}

/// The states of all places. After the last gap a place may have one state alone. If each letter
/// from there leads that on to one state, and the last is admitted after the moves, these places
/// are certain, and nothing is kept of them but their states.
pub fn places_of<M: Machine>(
    alloc: Global,
    machine: &M,
    before: &Past,
    moves: &[Move],
    after: &Ahead,
) -> Result<Places, NoMemory>
    requires order { (low : ℕ) × EnteredBefore before.now low
        × InOrder (M.rules machine.now) low moves.now }
    requires colours { length before.now ≡ (M.rules machine.now).colours }
    requires after { length after.now ≡ (M.rules machine.now).colours }
    ensures { IfOk result (KeepsPlaces (M.rules machine.now) before.now after.now moves.now) }
{
    let (pasts, first) = pasts_of(alloc, machine, before, moves, gaps_end(moves))?;
    let all = Ahead::end(machine.colours(), FAR);
    let past = past_at(&pasts, first);
    if let Some(sure) = sure_at(alloc, machine, past, &moves[first..], after, &all)? {
        let aheads = aheads_of(alloc, machine, &all, &moves[..first], &pasts)?;
        return Ok(Places {
            pasts,
            aheads,
            first,
            sure,
        });
    }
    let pasts = all_pasts(alloc, machine, before, moves, pasts, first)?;
    unsure_places(alloc, machine, before, moves, after, pasts)
}

// The Pasts of all places, where those up to the first are known.
fn all_pasts<M: Machine>(
    alloc: Global,
    machine: &M,
    before: &Past,
    moves: &[Move],
    pasts: RunPasts,
    first: usize,
) -> Result<RunPasts, NoMemory>
    requires order { (low : ℕ) × EnteredBefore before.now low
        × InOrder (M.rules machine.now) low moves.now }
    requires colours { length before.now ≡ (M.rules machine.now).colours }
    requires runs { AreRuns (take first moves.now) pasts.runs.items }
    requires pasts { ArePasts (M.rules machine.now) before.now (take first moves.now) pasts }
    ensures runs { IfOk result (λ v. AreRuns moves.now v.runs.items) }
    ensures pasts { IfOk result (ArePasts (M.rules machine.now) before.now moves.now) }
{
    if first == moves.len() {
        return Ok(pasts);
    }
    let (pasts, _end) = pasts_of(alloc, machine, before, moves, moves.len())?;
    Ok(pasts)
}

// The states of the places, where none is certain.
fn unsure_places<M: Machine>(
    alloc: Global,
    machine: &M,
    before: &Past,
    moves: &[Move],
    after: &Ahead,
    pasts: RunPasts,
) -> Result<Places, NoMemory>
    requires order { (low : ℕ) × EnteredBefore before.now low
        × InOrder (M.rules machine.now) low moves.now }
    requires after { length after.now ≡ (M.rules machine.now).colours }
    requires runs { AreRuns moves.now pasts.runs.items }
    requires pasts { ArePasts (M.rules machine.now) before.now moves.now pasts }
    ensures { IfOk result (KeepsPlaces (M.rules machine.now) before.now after.now moves.now) }
{
    let aheads = aheads_of(alloc, machine, after, moves, &pasts)?;
    Ok(Places {
        pasts,
        aheads,
        first: moves.len() + 1,
        sure: Vec::new(alloc),
    })
}
