// The counts that a search gives, and the best of them.
ghost use Rattle.std.specs.Prelude.{◌≡◌, ◌≤◌, ◌↔◌, [], length, vec_len, IsNone, IfSome};
ghost use Rattle.offset_search.specs.Best.{IsBest};

use std::marker::Model;

/// How many vehicles would have met green at each shift: the count at place `j` is that of a shift
/// by `j` seconds.
#[derive(Drop)]
pub struct Shifts {
    counts: Vec<u64>,
}

impl Model for Shifts {
    ghost use Rattle.std.specs.Prelude.{List, ℕ, ◌≤◌, vec_len};

    ghost Value = { List ℕ };

    ghost view = { λ s. s.counts.items };

    ghost invariant = { λ s. vec_len s.counts ≤ 300 };
}

impl Shifts {
    pub(crate) fn new(counts: Vec<u64>) -> Shifts
        requires { vec_len counts ≤ 300 }
        ensures { result ≡ counts.items }
    {
        Shifts { counts }
    }

    /// The counts, by the shift in seconds.
    pub fn counts(&self) -> &[u64]
        ensures value { result.now ≡ self.now }
        ensures few { length result.now ≤ 300 }
    {
        self.counts.as_slice()
    }

    /// The least shift, in seconds, whose count no other exceeds, with its count; `None` where
    /// there were no arrivals.
    pub fn best(&self) -> Option<(u32, u64)>
        ensures none { IsNone result ↔ (self.now ≡ []) }
        ensures best { IfSome result (λ b. IsBest self.now b.0 b.1) }
    {
        best_of(self.counts())
    }
}

fn best_of(counts: &[u64]) -> Option<(u32, u64)>
    requires { length counts.now ≤ 300 }
    ensures none { IsNone result ↔ (counts.now ≡ []) }
    ensures best { IfSome result (λ b. IsBest counts.now b.0 b.1) }
{
    let mut most = *counts.first()?;
    let mut shift = 0;
    for (j, count) in counts.iter().enumerate() {
        if most < *count {
            most = *count;
            shift = j as u32;
        }
    }
    Some((shift, most))
}
