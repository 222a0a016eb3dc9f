// A cycle that has begun.
ghost use Rattle.std.specs.Prelude.{◌≡◌, ◌≤◌, ◌<◌, ◌++◌, ℕ, List, All};
ghost use Rattle.sig_base.specs.declared.values.Row.{Row};
ghost use Rattle.hour_sweep.specs.Hours.{AreOrdered};
ghost use Rattle.arrival_measures.specs.Opens.{open_at};

use crate::in_tenth::InTenth;
use sig_base::Row;

/// What a cycle that has begun gives so far, of its phase and of one detector. Counting stops at
/// the last value of a u64, which no log reaches.
#[derive(Clone, Copy, Debug, PartialEq, Eq)]
pub struct Open {
    /// The tenth of the end of yellow with which it began, since the window's start.
    pub from: u32,
    pub arrivals: u64,
    /// The arrivals at whose tenth's end the phase is green.
    pub green: u64,
    /// The tenths at whose end the phase is green.
    pub green_tenths: u32,
    /// Whether the phase is green now.
    pub is_green: bool,
}

impl Open {
    /// A cycle that begins at this tenth.
    pub fn begin(from: u32) -> Open
        ensures { (p d : ℕ) (rows : List Row) → result ≡ open_at p d from from rows }
    {
        Open {
            from,
            arrivals: 0,
            green: 0,
            green_tenths: 0,
            is_green: false,
        }
    }

    /// The cycle of the phase up to tenth `to`, from the cycle up to tenth `at`: these are the rows
    /// between, by their tenths. Arrivals are rows 82 of the detector.
    pub fn over(self, phase: u8, detector: u8, rows: &[Row], at: u32, to: u32) -> Open
        ensures { (earlier : List Row) → AreOrdered at to rows.now
            → self ≡ open_at phase detector self.from at earlier → self.from ≤ at
            → All (λ x. x.at < at) earlier → result ≡ open_at phase detector self.from to
            (earlier ++ rows.now) }
    {
        let mut now = InTenth {
            cycle: self,
            at,
            arrivals: 0,
        };
        for row in rows {
            now = now.after(phase, detector, row);
        }
        now.moved_to(to).cycle
    }
}
