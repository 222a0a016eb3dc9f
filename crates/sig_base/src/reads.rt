// How often the rows of each hour were shown.
ghost use Rattle.std.specs.Prelude.{◌≡◌, ◌<◌, replicate, length, slice_index};
ghost use Rattle.sig_base.specs.Reads.{raised};

use crate::Hour;
use std::marker::Model;

/// One count for each of the hours 0 to 743. It is made only of a mark, which it never gives back.
#[derive(Drop)]
pub struct Reads<L> {
    counts: [u64; 744],
    mark: L,
}

impl<L> Model for Reads<L> {
    ghost use Rattle.std.specs.Prelude.{List, ℕ, length, ◌≡◌};

    ghost Value = { List ℕ };

    ghost view = { λ r. r.counts };

    ghost invariant = { λ r. length r.counts ≡ 744 };
}

impl<L> Reads<L> {
    /// All counts at 0.
    pub fn new(mark: L) -> Self
        ensures { result ≡ replicate 744 0 }
    {
        Reads {
            counts: [0; 744],
            mark,
        }
    }

    /// How often the rows of this hour, 0 to 743, were handed out.
    pub fn count(&self, hour: Hour) -> u64
        requires { hour < 744 }
        ensures value { result ≡ slice_index self.now hour }
        ensures hours { length self.now ≡ 744 }
    {
        self.counts[hour as usize]
    }

    /// Adds one to the count of this hour, up to the last value of a u64.
    pub fn raise(&mut self, hour: Hour)
        requires { hour < 744 }
        ensures raised { self.new ≡ raised self.old hour }
        ensures hours { length self.new ≡ 744 }
    {
        let at = hour as usize;
        self.counts[at] = self.counts[at].saturating_add(1);
    }
}
