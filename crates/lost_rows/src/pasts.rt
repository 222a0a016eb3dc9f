// The states before a place of one channel, by how many of its rows were lost before it.
ghost use Rattle.std.specs.Prelude.{◌≡◌, ℕ, ℤ, pos, negsuc, ◌≤ℤ◌, ◌<◌, ◌≤◌, ◌^◌, ◌+◌, ◌↔◌, length, OnOk};
ghost use Rattle.reach.specs.Runs.{State};
ghost use Rattle.reach.specs.Past.{AfterRow, Holds};
ghost use Rattle.channel_path.specs.Walks.{limit_before, limit_after, IsMove, InOrder, AfterMove, EnteredBefore};
ghost use Rattle.channel_path.specs.Places.{limit_of};
ghost use Rattle.lost_rows.specs.Walks.{still_after, MovedFrom, StillFrom, WalkedFrom};
ghost use Rattle.lost_rows.specs.Credits.{sets_with, AllBefore, AllOf, HoldsLost};

use crate::asked::Asked;
use crate::still::{Still, put_past};
use channel_path::Move;
use colour_machine::Machine;
use reach::{Past, past_gap, past_row};
use sig_base::NoMemory;
use std::alloc::Global;

/// The possible states, for each number of lost rows from none to three.
#[derive(Drop)]
pub struct LostPasts {
    pub none: Past,
    pub one: Past,
    pub two: Past,
    pub three: Past,
}

impl LostPasts {
    /// The states with so many rows lost.
    pub fn with(&self, lost: u8) -> &Past
        requires { lost ≤ 3 }
        ensures { result.now ≡ sets_with self.now lost }
    {
        match lost {
            0 => &self.none,
            1 => &self.one,
            2 => &self.two,
            _ => &self.three,
        }
    }
}

/// The states after the moves and the stills between them, before the first from a tenth on and
/// after the last up to but without another: with each number of lost rows in all, those to which
/// some run leads of which so many rows were lost.
pub fn walk_pasts<M: Machine>(
    alloc: Global,
    machine: &M,
    asked: Asked,
    from: u32,
    moves: &[Move],
    to: u32,
    pasts: &mut LostPasts,
) -> Result<(), NoMemory>
    requires order { (low : ℕ) × AllBefore pasts.old low
        × InOrder (M.rules machine.now) low moves.now }
    requires colours { AllOf (M.rules machine.now).colours pasts.old }
    ensures states { OnOk result ((j : ℕ) (u : State) → j ≤ 3 → HoldsLost pasts.new j u
        ↔ WalkedFrom (M.rules machine.now) asked (HoldsLost pasts.old) from moves.now to j u) }
    ensures entered { OnOk result ((low : ℕ) → AllBefore pasts.old low
        → InOrder (M.rules machine.now) low moves.now → limit_of low moves.now ≤ to
        → AllBefore pasts.new to) }
    ensures colours { AllOf (M.rules machine.now).colours pasts.new }
{
    let mut since = from;
    for place in 0..moves.len() {
        let one = moves[place];
        still_pasts(alloc, machine, asked, still_before(since, one), pasts)?;
        move_pasts(machine, pasts, one)?;
        since = still_begin(one);
    }
    still_pasts(alloc, machine, asked, still_up_to(since, to), pasts)
}

/// The still from the tenth up to the move.
pub fn still_before(since: u32, one: Move) -> Still
    ensures from { result.from ≡ pos since }
    ensures to { result.to ≡ pos (limit_before one) }
    ensures low { negsuc (2 ^ 39) ≤ℤ result.from }
    ensures high { result.to ≤ℤ pos (2 ^ 39) }
{
    let to = match one {
        Move::Letter { at, .. } => i64::from(at) + 1,
        Move::Gap { from, .. } => i64::from(from),
    };
    Still {
        from: i64::from(since),
        to,
    }
}

/// The still from one tenth up to but without another.
pub fn still_up_to(since: u32, to: u32) -> Still
    ensures from { result.from ≡ pos since }
    ensures to { result.to ≡ pos to }
    ensures low { negsuc (2 ^ 39) ≤ℤ result.from }
    ensures high { result.to ≤ℤ pos (2 ^ 39) }
{
    Still {
        from: i64::from(since),
        to: i64::from(to),
    }
}

/// The first tenth of the still after the move.
pub fn still_begin(one: Move) -> u32
    ensures { result ≡ still_after one }
{
    match one {
        Move::Letter { at, .. } => at,
        Move::Gap { to, .. } => to,
    }
}

// One still more: up to three rows lost in it.
fn still_pasts<M: Machine>(
    alloc: Global,
    machine: &M,
    asked: Asked,
    still: Still,
    pasts: &mut LostPasts,
) -> Result<(), NoMemory>
    requires low { negsuc (2 ^ 39) ≤ℤ still.from }
    requires high { still.to ≤ℤ pos (2 ^ 39) }
    requires colours { AllOf (M.rules machine.now).colours pasts.old }
    ensures states { OnOk result ((j : ℕ) (u : State) → j ≤ 3 → HoldsLost pasts.new j u
        ↔ StillFrom (M.rules machine.now) asked (HoldsLost pasts.old) still.from still.to j u) }
    ensures colours { AllOf (M.rules machine.now).colours pasts.new }
{
    put_past(alloc, machine, &pasts.none, asked, still, &mut pasts.one)?;
    put_past(alloc, machine, &pasts.one, asked, still, &mut pasts.two)?;
    put_past(alloc, machine, &pasts.two, asked, still, &mut pasts.three)
}

// One move more.
fn move_pasts<M: Machine>(machine: &M, pasts: &mut LostPasts, one: Move) -> Result<(), NoMemory>
    requires fits { IsMove (M.rules machine.now) one }
    requires place { AllBefore pasts.old (limit_before one) }
    requires colours { AllOf (M.rules machine.now).colours pasts.old }
    ensures states { OnOk result ((j : ℕ) (u : State) → j ≤ 3 → HoldsLost pasts.new j u
        ↔ MovedFrom (M.rules machine.now) (HoldsLost pasts.old) one j u) }
    ensures place { OnOk result (AllBefore pasts.new (limit_after one)) }
    ensures colours { AllOf (M.rules machine.now).colours pasts.new }
{
    move_past(machine, &mut pasts.none, one)?;
    move_past(machine, &mut pasts.one, one)?;
    move_past(machine, &mut pasts.two, one)?;
    move_past(machine, &mut pasts.three, one)
}

fn move_past<M: Machine>(machine: &M, past: &mut Past, one: Move) -> Result<(), NoMemory>
    requires fits { IsMove (M.rules machine.now) one }
    requires place { EnteredBefore past.old (limit_before one) }
    requires colours { length past.old ≡ (M.rules machine.now).colours }
    ensures states { OnOk result ((u : State) → Holds past.new u
        ↔ AfterMove (M.rules machine.now) past.old one u) }
    ensures place { OnOk result (EnteredBefore past.new (limit_after one)) }
    ensures colours { length past.new ≡ length past.old }
{
    match one {
        Move::Letter { at, letter, .. } => {
            letter_past(machine, past, at, letter)?;
            Ok(())
        }
        Move::Gap { from, to } => past_gap(machine, past, i64::from(from), i64::from(to)),
    }
}

fn letter_past<M: Machine>(
    machine: &M,
    past: &mut Past,
    at: u32,
    letter: u8,
) -> Result<bool, NoMemory>
    requires fits { letter < (M.rules machine.now).letters }
    requires place { EnteredBefore past.old (at + 1) }
    requires colours { length past.old ≡ (M.rules machine.now).colours }
    ensures after { OnOk result ((u : State) → Holds past.new u
        ↔ AfterRow (M.rules machine.now) past.old (pos at) letter u) }
    ensures place { EnteredBefore past.new (at + 1) }
    ensures colours { length past.new ≡ length past.old }
{
    past_row(machine, past, i64::from(at), letter)
}
