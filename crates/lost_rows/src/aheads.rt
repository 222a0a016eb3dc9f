// The states after a place of one channel, by how many of its rows are lost after it.
ghost use Rattle.std.specs.Prelude.{◌≡◌, ℕ, ℤ, pos, negsuc, ◌≤ℤ◌, ◌<◌, ◌≤◌, ◌^◌, ◌↔◌, drop, length};
ghost use Rattle.reach.specs.Runs.{State};
ghost use Rattle.channel_path.specs.Walks.{IsMove, InOrder};
ghost use Rattle.channel_path.specs.Places.{EntersBefore};
ghost use Rattle.lost_rows.specs.Walks.{end_of, MovedTo, StillTo, WalkedTo};
ghost use Rattle.lost_rows.specs.Credits.{latest_with, AdmitsLost, AllAheads};

use crate::pasts::{still_before, still_begin, still_up_to};
use crate::still::{Still, put_ahead};
use channel_path::{Move, move_ahead};
use colour_machine::Machine;
use reach::Ahead;

/// The states from which the rest can be met, for each number of rows lost in it from none to
/// three.
#[derive(Drop)]
pub struct LostAheads {
    pub none: Ahead,
    pub one: Ahead,
    pub two: Ahead,
    pub three: Ahead,
}

impl LostAheads {
    /// The states with so many rows lost.
    pub fn with(&self, lost: u8) -> &Ahead
        requires { lost ≤ 3 }
        ensures { result.now ≡ latest_with self.now lost }
    {
        match lost {
            0 => &self.none,
            1 => &self.one,
            2 => &self.two,
            _ => &self.three,
        }
    }
}

/// The states before the moves and the stills between them, before the first from a tenth on and
/// after the last up to but without another: with each number of lost rows in all, those from which
/// some run leads on of which so many rows are lost. It says this of states that are entered early
/// enough for the first move.
pub fn walk_aheads<M: Machine>(
    machine: &M,
    from: u32,
    moves: &[Move],
    to: u32,
    aheads: &mut LostAheads,
)
    requires order { InOrder (M.rules machine.now) 0 moves.now }
    requires colours { AllAheads (M.rules machine.now).colours aheads.old }
    ensures states { (j : ℕ) (s : State) → j ≤ 3 → EntersBefore moves.now s
        → AdmitsLost aheads.new j s
        ↔ WalkedTo (M.rules machine.now) (AdmitsLost aheads.old) from moves.now to j s }
    ensures colours { AllAheads (M.rules machine.now).colours aheads.new }
{
    for turn in 0..moves.len() {
        let place = moves.len() - 1 - turn;
        let one = moves[place];
        let still = still_at(moves, place + 1, still_begin(one), to);
        still_aheads(machine, still, aheads);
        move_aheads(machine, aheads, one);
    }
    still_aheads(machine, still_at(moves, 0, from, to), aheads);
}

// The still from a tenth up to the move with this place, or else to the last tenth.
fn still_at(moves: &[Move], place: usize, since: u32, to: u32) -> Still
    ensures from { result.from ≡ pos since }
    ensures to { result.to ≡ pos (end_of (drop place moves.now) to) }
    ensures low { negsuc (2 ^ 39) ≤ℤ result.from }
    ensures high { result.to ≤ℤ pos (2 ^ 39) }
{
    if place < moves.len() {
        return still_before(since, moves[place]);
    }
    still_up_to(since, to)
}

// One still more: up to three rows lost in it.
fn still_aheads<M: Machine>(machine: &M, still: Still, aheads: &mut LostAheads)
    requires low { negsuc (2 ^ 39) ≤ℤ still.from }
    requires high { still.to ≤ℤ pos (2 ^ 39) }
    requires colours { AllAheads (M.rules machine.now).colours aheads.old }
    ensures states { (j : ℕ) (s : State) → j ≤ 3 → AdmitsLost aheads.new j s
        ↔ StillTo (M.rules machine.now) (AdmitsLost aheads.old) still.from still.to j s }
    ensures colours { AllAheads (M.rules machine.now).colours aheads.new }
{
    put_ahead(machine, &aheads.none, still, &mut aheads.one);
    put_ahead(machine, &aheads.one, still, &mut aheads.two);
    put_ahead(machine, &aheads.two, still, &mut aheads.three);
}

// One move more.
fn move_aheads<M: Machine>(machine: &M, aheads: &mut LostAheads, one: Move)
    requires fits { IsMove (M.rules machine.now) one }
    requires colours { AllAheads (M.rules machine.now).colours aheads.old }
    ensures states { (j : ℕ) (s : State) → j ≤ 3 → AdmitsLost aheads.new j s
        ↔ MovedTo (M.rules machine.now) (AdmitsLost aheads.old) one j s }
    ensures colours { AllAheads (M.rules machine.now).colours aheads.new }
{
    move_ahead(machine, &mut aheads.none, one);
    move_ahead(machine, &mut aheads.one, one);
    move_ahead(machine, &mut aheads.two, one);
    move_ahead(machine, &mut aheads.three, one);
}
