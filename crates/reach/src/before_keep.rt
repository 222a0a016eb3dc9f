// The states of those that can be completed that are what they are to be.
ghost use Rattle.std.specs.Prelude.{◌≡◌, ◌↔◌, ℤ, ◌<◌, length};
ghost use Rattle.reach.specs.Runs.{State};
ghost use Rattle.reach.specs.Ahead.{NotLater, Admits};
ghost use Rattle.reach.specs.Latest.{IsMeet};

use crate::ahead::{Ahead, lowered};
use sig_base::Tenth;

/// Leaves of each colour only entries up to its limit, and none where it has none.
pub fn ahead_meet(ahead: &mut Ahead, limits: &[Option<Tenth>; 16])
    ensures states { (s : State) → Admits ahead.new s ↔ (Admits ahead.old s
        × Admits limits.now s) }
    ensures colours { length ahead.new ≡ length ahead.old }
{
    ahead.latest = meet_all(&ahead.latest, limits);
}

fn meet_all(latest: &[Option<Tenth>; 16], limits: &[Option<Tenth>; 16]) -> [Option<Tenth>; 16]
    ensures { IsMeet latest.now limits.now result 16 }
{
    let mut new = [None; 16];
    for colour in 0..16 {
        new[colour] = meet_one(latest[colour], limits[colour]);
    }
    new
}

fn meet_one(latest: Option<Tenth>, limit: Option<Tenth>) -> Option<Tenth>
    ensures { (e : ℤ) → NotLater result e ↔ (NotLater latest e × NotLater limit e) }
{
    match limit {
        None => None,
        Some(limit) => lowered(latest, limit),
    }
}
