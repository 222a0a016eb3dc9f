// The states before a row.
ghost use Rattle.std.specs.Prelude.{◌≡◌, ℕ, ℤ, pos, negsuc, ◌+ℤ◌, ◌≤ℤ◌, ◌<◌, ◌≤◌, ◌^◌, ◌↔◌, length, None, IsTrue};
ghost use Rattle.reach.specs.Runs.{State, state};
ghost use Rattle.reach.specs.Ahead.{NotLater, Admits, BeforeRow};
ghost use Rattle.reach.specs.Latest.{entry_of};

use crate::ahead::{Ahead, lowered};
use colour_machine::Machine;
use sig_base::Tenth;

/// The states up to the tenth from which the row's letter legally leads to one that was admitted.
/// No latest entry that is left is after the tenth.
pub fn ahead_row<M: Machine>(machine: &M, ahead: &mut Ahead, at: Tenth, letter: u8)
    requires low { negsuc (2 ^ 39) ≤ℤ at }
    requires high { at ≤ℤ pos (2 ^ 39) }
    requires letter { letter < (M.rules machine.now).letters }
    requires colours { length ahead.old ≡ (M.rules machine.now).colours }
    ensures before { (s : State) → Admits ahead.new s ↔ ((s.entry ≤ℤ at)
        × BeforeRow (M.rules machine.now) ahead.old at letter s) }
    ensures colours { length ahead.new ≡ length ahead.old }
{
    ahead.latest = row_latest(machine, &ahead.latest, at, letter);
}

fn row_latest<M: Machine>(
    machine: &M,
    latest: &[Option<Tenth>; 16],
    at: Tenth,
    letter: u8,
) -> [Option<Tenth>; 16]
    requires low { negsuc (2 ^ 39) ≤ℤ at }
    requires high { at ≤ℤ pos (2 ^ 39) }
    requires letter { letter < (M.rules machine.now).letters }
    ensures before { (s : State) → Admits result s ↔ ((s.entry ≤ℤ at)
        × BeforeRow (M.rules machine.now) latest.now at letter s) }
    ensures none { (c : ℕ) → (M.rules machine.now).colours ≤ c → entry_of result c ≡ None }
{
    let mut new = [None; 16];
    for colour in 0..machine.colours() {
        new[colour as usize] = row_one(machine, latest, colour, at, letter);
    }
    new
}

fn row_one<M: Machine>(
    machine: &M,
    latest: &[Option<Tenth>],
    colour: u8,
    at: Tenth,
    letter: u8,
) -> Option<Tenth>
    requires low { negsuc (2 ^ 39) ≤ℤ at }
    requires high { at ≤ℤ pos (2 ^ 39) }
    requires letter { letter < (M.rules machine.now).letters }
    requires colour { colour < (M.rules machine.now).colours }
    requires all { length latest.now ≡ 16 }
    ensures { (e : ℤ) → NotLater result e ↔ ((e ≤ℤ at) × BeforeRow (M.rules machine.now) latest.now
        at letter (state colour e)) }
{
    match machine.step(colour, letter) {
        Some(next) if next == colour => lowered(latest[colour as usize], at),
        Some(next) => left(latest[next as usize], machine.floor(colour), at),
        None => None,
    }
}

// The latest entry for leaving a colour at the tenth, to one that is entered then.
fn left(next: Option<Tenth>, floor: u32, at: Tenth) -> Option<Tenth>
    requires low { negsuc (2 ^ 39) ≤ℤ at }
    requires high { at ≤ℤ pos (2 ^ 39) }
    requires floor { floor ≤ 36000 }
    ensures { (e : ℤ) → NotLater result e ↔ (NotLater next at × ((e +ℤ pos floor) ≤ℤ at)) }
{
    if is_good(next, at) {
        return Some(at - i64::from(floor));
    }
    None
}

// Whether the tenth is not later than the latest entry.
fn is_good(latest: Option<Tenth>, at: Tenth) -> bool
    ensures { IsTrue result ↔ NotLater latest at }
{
    match latest {
        None => false,
        Some(x) => at <= x,
    }
}
