// Cycles of an hour, followed over its rows.
ghost use Rattle.std.specs.Prelude.{◌≡◌, ◌≤◌, ◌<◌, ◌+◌, ◌++◌, ℕ, Bool, List, Option, All};
ghost use Rattle.sig_base.specs.declared.values.Row.{Row};
ghost use Rattle.gap_map.specs.Stretches.{AreStretches};
ghost use Rattle.hour_sweep.specs.Rows.{known_rows};
ghost use Rattle.hour_sweep.specs.Hours.{AreOrdered};
ghost use Rattle.arrival_measures.specs.Arrivals.{rows_within};
ghost use Rattle.arrival_measures.specs.Opens.{open_at};
ghost use Rattle.arrival_measures.specs.Steps.{IsUnderWay};
ghost use Rattle.arrival_measures.specs.Travel.{from_tenth};

use crate::open::Open;
use gap_map::Stretch;
use sig_base::Row;

/// Those of the rows that are at this tenth or later; they stand by tenth.
pub(crate) fn rows_from(rows: &[Row], from: u32) -> &[Row]
    ensures { (a b : ℕ) → AreOrdered a b rows.now → result.now ≡ from_tenth from rows.now }
{
    let (_, later) = rows.split_at(rows.partition_point(|row| row.at < from));
    later
}

// The rows at the tenths from one up to another; an hour's rows stand by tenth.
fn rows_between(rows: &[Row], from: u32, to: u32) -> &[Row]
    ensures { (a b : ℕ) → AreOrdered a b rows.now → result.now ≡ rows_within from to rows.now }
{
    let later = rows_from(rows, from);
    let (between, _) = later.split_at(later.partition_point(|row| row.at < to));
    between
}

// The cycle up to tenth `to`, from the cycle up to tenth `at`.
fn follow(begun: Open, phase: u8, detector: u8, rows: &[Row], at: u32, to: u32) -> Open
    ensures { (a b : ℕ) (earlier : List Row) → AreOrdered a b rows.now → at ≤ to
        → begun ≡ open_at phase detector begun.from at earlier → begun.from ≤ at
        → All (λ x. x.at < at) earlier → result ≡ open_at phase detector begun.from to
        (earlier ++ rows_within at to rows.now) }
{
    begun.over(phase, detector, rows_between(rows, at, to), at, to)
}

/// The cycle of the phase from one tenth up to another. What has begun of it before the hour, which
/// has its first tenth here, is at hand.
pub(crate) fn cycle_given(
    phase: u8,
    detector: u8,
    begun: Option<Open>,
    rows: &[Row],
    first: u32,
    from: u32,
    to: u32,
) -> Open
    ensures { (known : ℕ → Bool) (before : List Row) (end : ℕ)
        → IsUnderWay known phase detector before rows.now first end begun from to
        → result ≡ open_at phase detector from to (before ++ known_rows known rows.now) }
{
    match begun {
        Some(begun) if from < first => follow(begun, phase, detector, rows, first, to),
        _ => follow(Open::begin(from), phase, detector, rows, from, to),
    }
}
