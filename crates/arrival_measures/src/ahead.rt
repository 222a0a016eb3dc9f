// What an hour gives of an approach by its advance detector: its arrivals and its cycles.
ghost use Rattle.std.specs.Prelude.{◌≡◌, ◌≤◌, ◌<◌, ◌+◌, ◌++◌, map, ℕ, length, IfOk};
ghost use Rattle.sig_base.specs.declared.values.Row.{Row};
ghost use Rattle.hour_sweep.specs.Hours.{AreOrdered, point};
ghost use Rattle.hour_sweep.specs.Passes.{front};
ghost use Rattle.arrival_measures.specs.Results.{IsApproachHour};
ghost use Rattle.arrival_measures.specs.Steps.{due_of, merged, moved, row_on};
ghost use Rattle.arrival_measures.specs.Travel.{from_tenth};

use crate::carry::{Crossing, Tenths};
use crate::chains::{Chain, chain_rows};
use crate::cycles::{CycleSum, cycle_sum, no_cycles, open_after};
use crate::sources::Sources;
use crate::under_way::rows_from;
use ring_config::Approach;
use service_cut::Cuts;
use sig_base::{NoMemory, Row};
use std::alloc::Global;

/// What an hour gives of an approach.
#[derive(Drop)]
pub(crate) struct ApproachHour {
    /// The arrivals at the hour's first tenth or later, by tenth: each a row at its arrival tenth.
    pub(crate) arriving: Vec<Row>,
    /// The numbers of the whole cycles that end in the hour.
    pub(crate) cycles: CycleSum,
    /// What crosses the point after the hour.
    pub(crate) crossing: Crossing,
}

/// A vehicle detector goes on.
const DETECTOR_ON: u8 = 82;

fn row_on(detector: u8, at: u32) -> Row
    ensures { result ≡ row_on detector at }
{
    Row {
        at,
        code: DETECTOR_ON,
        param: u16::from(detector),
    }
}

fn moved(travel: u32, row: &Row) -> Row
    ensures { result ≡ moved travel row.now }
{
    Row {
        at: row.at.saturating_add(travel),
        code: row.code,
        param: row.param,
    }
}

/// The arrivals whose rows stand before the hour, by their arrival tenths, and those of the hour.
pub(crate) fn arriving(
    alloc: Global,
    detector: u8,
    travel: u32,
    pending: &[u32],
    rows: &[Row],
) -> Result<Vec<Row>, NoMemory>
    ensures { IfOk result (λ v. v.items ≡ map (row_on detector) pending.now ++ map
        (moved travel) rows.now) }
{
    let mut all = Vec::with_capacity(alloc, pending.len() + rows.len())?;
    for at in pending {
        all.push(row_on(detector, *at))?;
    }
    for row in rows {
        all.push(moved(travel, row))?;
    }
    Ok(all)
}

// How many rows are before this tenth, up to the first that isn't.
fn count_below(rows: &[Row], to: u32) -> usize
    ensures count { result ≡ length (front to rows.now) }
    ensures within { result ≤ length rows.now }
{
    rows.iter().take_while(|row| row.at < to).count()
}

/// The rows of both lists by tenth.
pub(crate) fn merged(alloc: Global, turns: &[Row], arriving: &[Row]) -> Result<Vec<Row>, NoMemory>
    ensures { IfOk result (λ v. v.items ≡ merged turns.now arriving.now) }
{
    let mut all = Vec::with_capacity(alloc, turns.len() + arriving.len())?;
    let mut left = arriving;
    for turn in turns {
        let (here, rest) = left.split_at(count_below(left, turn.at));
        all.extend_from_slice(here)?;
        all.push(*turn)?;
        left = rest;
    }
    all.extend_from_slice(left)?;
    Ok(all)
}

/// The tenths of those of the rows that are at this tenth or later; they stand by tenth.
pub(crate) fn pending(alloc: Global, rows: &[Row], from: u32) -> Result<Tenths, NoMemory>
    ensures { IfOk result (λ v. (a b : ℕ) → AreOrdered a b rows.now
        → v ≡ map (λ x. x.at) (from_tenth from rows.now)) }
{
    let mut tenths = Tenths::new(alloc);
    let later = rows_from(rows, from);
    for row in later {
        tenths.push(row.at)?;
    }
    Ok(tenths)
}

/// Those of the arrivals that count in the hour: those before its end, or all in the last hour.
pub(crate) fn due_of(rows: &[Row], end: u32, last: bool) -> &[Row]
    ensures { (a b : ℕ) → AreOrdered a b rows.now → result.now ≡ due_of last end rows.now }
{
    if last {
        return rows;
    }
    let (here, _) = rows.split_at(rows.partition_point(|row| row.at < end));
    here
}

// Of an approach with this advance detector.
fn detector_hour(
    alloc: Global,
    approach: &Approach,
    detector: u8,
    crossing: &Crossing,
    cuts: &Cuts,
    sources: &Sources<'_>,
) -> Result<ApproachHour, NoMemory>
    requires { approach.now.advance ≡ Some detector }
    ensures { IfOk result
        (IsApproachHour sources.now cuts.now approach.now crossing.now) }
{
    let phase = approach.phase;
    let end = sources.first.saturating_add(36_000);
    let turns = chain_rows(alloc, &sources.turns, Chain::Green(phase))?;
    let ons = chain_rows(alloc, &sources.arrivals, Chain::On(detector))?;
    let arriving = arriving(
        alloc,
        detector,
        approach.travel,
        crossing.pending.list(),
        &ons,
    )?;
    let own = merged(alloc, &turns, &arriving)?;
    let cycles = cycle_sum(
        phase,
        detector,
        crossing.begun,
        cuts.cycles(),
        &own,
        sources.first,
    );
    let begun = open_after(phase, detector, crossing.begun, cuts, &own, sources.first);
    let pending = pending(alloc, &arriving, end)?;
    Ok(ApproachHour {
        arriving,
        cycles,
        crossing: Crossing { begun, pending },
    })
}

/// What the hour gives of an approach, by what crosses the point before it.
pub(crate) fn approach_hour(
    alloc: Global,
    approach: &Approach,
    crossing: &Crossing,
    cuts: &Cuts,
    sources: &Sources<'_>,
) -> Result<ApproachHour, NoMemory>
    ensures { IfOk result
        (IsApproachHour sources.now cuts.now approach.now crossing.now) }
{
    match approach.advance {
        Some(detector) => detector_hour(alloc, approach, detector, crossing, cuts, sources),
        None => Ok(ApproachHour {
            arriving: Vec::new(alloc),
            cycles: no_cycles(),
            crossing: Crossing::none(alloc),
        }),
    }
}
