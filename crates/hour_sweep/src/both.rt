// Two watches in one pass.
ghost use Rattle.std.specs.Prelude.{◌≡◌, IfOk};
ghost use Rattle.hour_sweep.specs.Passes.{both_after, both_cleared, swept};

use crate::watch::{Watch, sweep};
use gap_map::Stretch;
use sig_base::{NoMemory, Row};
use std::marker::Model;

/// Two watches, seen as a pair of them: what is told the one is then told the other.
#[derive(Drop)]
pub struct Both<A, B> {
    one: A,
    other: B,
}

impl<A, B> Model for Both<A, B> {
    ghost Value = { A × B };

    ghost view = { λ b. (b.one, b.other) };
}

impl<A: Drop, B: Drop> Both<A, B> {
    /// These two.
    pub fn of(one: A, other: B) -> Both<A, B>
        ensures { result ≡ (one, other) }
    {
        Both { one, other }
    }

    /// The two.
    pub fn into_parts(self) -> (A, B)
        ensures { result ≡ self }
    {
        let Both { one, other } = self;
        (one, other)
    }
}

impl<A: Watch, B: Watch> Watch for Both<A, B> {
    ghost after = { both_after A.after B.after };

    ghost cleared = { both_cleared A.cleared B.cleared };

    fn row(&mut self, row: &Row) -> Result<(), NoMemory> {
        self.one.row(row)?;
        self.other.row(row)
    }

    fn gap(&mut self) {
        self.one.gap();
        self.other.gap();
    }
}

/// One pass over an hour for two watches, each of which comes to what a pass of its own gives.
pub fn sweep_both<A: Watch + Drop, B: Watch + Drop>(
    one: A,
    other: B,
    rows: &[Row],
    stretches: &[Stretch],
) -> Result<(A, B), NoMemory>
    ensures one { IfOk result (λ p. p.0 ≡ swept A.after A.cleared stretches.now rows.now one) }
    ensures other { IfOk result (λ p. p.1 ≡ swept B.after B.cleared stretches.now rows.now other) }
{
    let mut both = Both::of(one, other);
    sweep(&mut both, rows, stretches)?;
    Ok(both.into_parts())
}
