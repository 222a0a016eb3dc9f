// The states at each place between one channel's moves.
ghost use Rattle.std.specs.Prelude.{◌≡◌, ℕ, ◌^◌, negsuc, pos, ◌+◌, ◌≤◌, ◌≤ℤ◌, length, take, drop, IfOk};
ghost use Rattle.channel_path.specs.Walks.{InOrder, EnteredBefore};
ghost use Rattle.channel_path.specs.Places.{SeesPlace};

use crate::ahead::ahead_at;
use crate::moves::Move;
use crate::past::past_at;
use crate::places::{Places, places_of};
use colour_machine::Machine;
use reach::{Ahead, Past, Seen, Test, possible, seen_alone};
use sig_base::NoMemory;
use std::alloc::Global;
use std::marker::Model;
use std::snapshot::Snapshot;

/// A channel's states at each place between its moves: those to which what came before leads, and
/// from which what comes after can be met.
#[derive(Drop)]
pub struct Path<M: Machine> {
    machine: Snapshot<M>,
    before: Snapshot<Past>,
    after: Snapshot<Ahead>,
    moves: Vec<Move>,
    places: Places,
}

impl<M: Machine> Model for Path<M> {
    ghost use Rattle.channel_path.specs.Places.{PathLog};
    ghost use Rattle.channel_path.specs.Certain.{KeepsPlaces};

    ghost Value = { PathLog M };

    ghost view = { λ l. record {
      machine = l.machine.value;
      before = l.before.value;
      moves = l.moves.items;
      after = l.after.value;
    } };

    ghost invariant = { λ l. KeepsPlaces (M.rules l.machine.value) l.before.value l.after.value
        l.moves.items l.places };
}

impl<M: Machine> Path<M> {
    /// The path of the moves, from the states before them to those that are admitted after them.
    pub fn new(
        alloc: Global,
        machine: &M,
        before: &Past,
        moves: Vec<Move>,
        after: &Ahead,
    ) -> Result<Path<M>, NoMemory>
        requires order { (low : ℕ) × EnteredBefore before.now low
            × InOrder (M.rules machine.now) low moves.items }
        requires colours { length before.now ≡ (M.rules machine.now).colours }
        requires ahead { length after.now ≡ (M.rules machine.now).colours }
        ensures { IfOk result (λ l. l ≡ record {
          machine = machine.now;
          before = before.now;
          moves = moves.items;
          after = after.now;
        }) }
    {
        Path::by(alloc, machine, machine, before, moves, after)
    }

    /// The same, with the places worked out by another machine that has its rules: one that is
    /// quicker.
    pub fn by<N: Machine>(
        alloc: Global,
        machine: &M,
        own: &N,
        before: &Past,
        moves: Vec<Move>,
        after: &Ahead,
    ) -> Result<Path<M>, NoMemory>
        requires same { N.rules own.now ≡ M.rules machine.now }
        requires order { (low : ℕ) × EnteredBefore before.now low
            × InOrder (M.rules machine.now) low moves.items }
        requires colours { length before.now ≡ (M.rules machine.now).colours }
        requires ahead { length after.now ≡ (M.rules machine.now).colours }
        ensures { IfOk result (λ l. l ≡ record {
          machine = machine.now;
          before = before.now;
          moves = moves.items;
          after = after.now;
        }) }
    {
        let places = places_of(alloc, own, before, moves.as_slice(), after)?;
        Ok(Path {
            machine: Snapshot::of(machine),
            before: Snapshot::of(before),
            after: Snapshot::of(after),
            moves,
            places,
        })
    }

    /// The moves that the runs take, in the order of their tenths.
    pub fn moves(&self) -> &[Move]
        ensures { result.now ≡ self.now.moves }
    {
        self.moves.as_slice()
    }

    /// What the runs that pass the place before the move with this number, from 0, say of the test.
    /// The number of all moves is the place after the last.
    pub fn seen(&self, place: usize, test: &Test) -> Seen
        requires place { place ≤ length self.now.moves }
        requires low { negsuc (2 ^ 39) ≤ℤ test.now.at }
        requires high { test.now.at ≤ℤ pos (2 ^ 39) }
        ensures { SeesPlace (M.rules self.now.machine) self.now.before self.now.after
            self.now.moves place test.now result }
    {
        if place < self.places.first {
            let past = past_at(&self.places.pasts, place);
            let ahead = ahead_at(&self.places.aheads, place);
            return possible(past, ahead, test);
        }
        seen_alone(self.places.sure[place - self.places.first], test)
    }
}
