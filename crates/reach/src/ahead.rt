// Which states can still be completed, and what is made of that without a row or a gap.
ghost use Rattle.std.specs.Prelude.{◌≡◌, ℕ, ℤ, pos, negsuc, ◌≤ℤ◌, ◌<ℤ◌, ◌<◌, ◌≤◌, ◌^◌, ◌↔◌, length, None, IsTrue};
ghost use Rattle.reach.specs.Runs.{State};
ghost use Rattle.reach.specs.Ahead.{NotLater, Admits};
ghost use Rattle.reach.specs.Latest.{IsLower, entry_of};

use sig_base::Tenth;
use std::marker::Model;

/// Which states can still be completed: for each colour the latest entry with which it can, or
/// none.
#[derive(Drop)]
pub struct Ahead {
    pub(crate) latest: [Option<Tenth>; 16],
    pub(crate) colours: u8,
}

impl Model for Ahead {
    ghost use Rattle.std.specs.Prelude.{List, ℤ, Option, take, ◌≤◌};
    ghost use Rattle.reach.specs.Latest.{IsTable};

    ghost Value = { List (Option ℤ) };

    ghost view = { λ a. take a.colours a.latest };

    ghost invariant = { λ a. IsTable a.colours a.latest };
}

impl Ahead {
    /// Each colour with every entry before the point.
    pub fn end(colours: u8, point: Tenth) -> Ahead
        requires some { 1 ≤ colours }
        requires few { colours ≤ 16 }
        requires low { negsuc (2 ^ 39) ≤ℤ point }
        requires high { point ≤ℤ pos (2 ^ 39) }
        ensures colours { length result ≡ colours }
        ensures states { (s : State) → Admits result s ↔ ((s.colour < colours)
            × (s.entry <ℤ point)) }
    {
        let mut latest = [None; 16];
        for colour in 0..colours {
            latest[colour as usize] = Some(point - 1);
        }
        Ahead { latest, colours }
    }

    /// An equal value. It can't run out of memory.
    pub fn copy(&self) -> Ahead
        ensures { result ≡ self.now }
    {
        Ahead {
            latest: self.latest,
            colours: self.colours,
        }
    }

    /// Whether both have equally many colours and admit the same states.
    pub fn same(&self, other: &Ahead) -> bool
        ensures value { IsTrue result ↔ (self.now ≡ other.now) }
        ensures states { IsTrue result ↔ ((length self.now ≡ length other.now)
            × ((s : State) → Admits self.now s ↔ Admits other.now s)) }
    {
        same_entries(
            &self.latest[..self.colours as usize],
            &other.latest[..other.colours as usize],
        )
    }

    /// The latest entry of a colour, or none.
    pub fn latest(&self, colour: u8) -> Option<Tenth>
        requires { colour < length self.now }
        ensures { result ≡ entry_of self.now colour }
    {
        self.latest[colour as usize]
    }

    /// Leaves only entries up to the limit.
    pub fn lower(&mut self, limit: Tenth)
        ensures states { (s : State) → Admits self.new s
            ↔ (Admits self.old s × (s.entry ≤ℤ limit)) }
        ensures colours { length self.new ≡ length self.old }
    {
        self.latest = lower_all(&self.latest, limit);
    }
}

/// Whether two lists of latest entries are the same.
pub fn same_entries(a: &[Option<Tenth>], b: &[Option<Tenth>]) -> bool
    ensures { IsTrue result ↔ (a.now ≡ b.now) }
{
    a == b
}

/// The latest entries, each of them at most the limit.
pub fn lower_all(latest: &[Option<Tenth>; 16], limit: Tenth) -> [Option<Tenth>; 16]
    ensures { IsLower limit latest.now result 16 }
{
    let mut new = [None; 16];
    for colour in 0..16 {
        new[colour] = lowered(latest[colour], limit);
    }
    new
}

/// A latest entry that is at most the limit.
pub fn lowered(latest: Option<Tenth>, limit: Tenth) -> Option<Tenth>
    ensures { (e : ℤ) → NotLater result e ↔ (NotLater latest e × (e ≤ℤ limit)) }
{
    match latest {
        None => None,
        Some(x) if limit < x => Some(limit),
        Some(x) => Some(x),
    }
}
