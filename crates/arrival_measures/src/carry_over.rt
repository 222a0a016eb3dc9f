// What crosses the point after an hour, without the hour's numbers.
ghost use Rattle.std.specs.Prelude.{◌≡◌, ℕ, Bool, IfOk, OnOk, OnErr};
ghost use Rattle.gap_map.specs.Stretches.{AreStretches};
ghost use Rattle.hour_sweep.specs.Hours.{AreOrdered};
ghost use Rattle.hour_sweep.specs.Rows.{known_rows};
ghost use Rattle.arrival_measures.specs.Onward.{CrossNext, IsNextCrossing, counts_from};
ghost use Rattle.arrival_measures.specs.Results.{IsCarriedOn};

use crate::ahead::{arriving, merged, pending};
use crate::approach::approach_of;
use crate::carry::{ArrivalCarry, Crossing};
use crate::chains::{Chain, rows_in};
use crate::cycles::{open_after, open_cycle_of};
use crate::faults::{detect, is_faultless, put_flags};
use crate::hour::crossing_at;
use crate::judged::is_known;
use crate::under_way::rows_from;
use gap_map::{Stretch, first_of};
use ring_config::{Approach, Config};
use service_cut::{Cuts, OpenCycle};
use sig_base::{NoMemory, Row};
use std::alloc::Global;

/// The rows of an hour, and of these the ones that may pass a detector.
#[derive(Clone, Copy)]
pub(crate) struct PassingRows<'a> {
    pub(crate) rows: &'a [Row],
    /// Of these, by tenth, the known ones at which a detector of an approach goes on are its
    /// arrivals.
    pub(crate) passing: &'a [Row],
    pub(crate) stretches: &'a [Stretch],
    /// The hour's first tenth.
    pub(crate) first: u32,
}

// The first tenth whose rows count at the end of the hour, which has its first tenth here, where
// this cycle is open there.
fn counts_from(cycle: Option<OpenCycle>, first: u32) -> u32
    ensures { result ≡ counts_from first cycle }
{
    match cycle {
        Some(cycle) => cycle.from.max(first),
        None => first.saturating_add(36_000),
    }
}

// Those of the hour's rows whose tenth is known.
fn known_among(alloc: Global, rows: &[Row], stretches: &[Stretch]) -> Result<Vec<Row>, NoMemory>
    ensures { IfOk result (λ v. (known : ℕ → Bool) (a b : ℕ) → AreStretches known a b stretches.now
        → AreOrdered a b rows.now → v.items ≡ known_rows known rows.now) }
{
    let mut own = Vec::new(alloc);
    for row in rows {
        if is_known(stretches, row.at) {
            own.push(*row)?;
        }
    }
    Ok(own)
}

// Of an approach with this advance detector. An arrival counts from its arrival tenth on.
fn detector_after(
    alloc: Global,
    approach: &Approach,
    detector: u8,
    crossing: &Crossing,
    cuts: &Cuts,
    hour: &PassingRows<'_>,
) -> Result<Crossing, NoMemory>
    requires { approach.now.advance ≡ Some detector }
    ensures { IfOk result (IsNextCrossing hour.now cuts.now approach.now crossing.now) }
{
    let phase = approach.phase;
    let travel = approach.travel;
    let first = hour.first;
    let from = counts_from(open_cycle_of(cuts.open_cycles(), phase), first);
    let turns = rows_in(alloc, rows_from(hour.rows, from), Chain::Green(phase))?;
    let passing = rows_from(hour.passing, from.saturating_sub(travel));
    let passes = rows_in(alloc, passing, Chain::On(detector))?;
    let ons = known_among(alloc, &passes, hour.stretches)?;
    let arriving = arriving(alloc, detector, travel, crossing.pending.list(), &ons)?;
    let own = merged(alloc, &turns, &arriving)?;
    let begun = open_after(phase, detector, crossing.begun, cuts, &own, first);
    let pending = pending(alloc, &arriving, first.saturating_add(36_000))?;
    Ok(Crossing { begun, pending })
}

// What crosses the point after the hour of an approach, by what crosses the point before it.
fn approach_after(
    alloc: Global,
    approach: &Approach,
    crossing: &Crossing,
    cuts: &Cuts,
    hour: &PassingRows<'_>,
) -> Result<Crossing, NoMemory>
    ensures { IfOk result (IsNextCrossing hour.now cuts.now approach.now crossing.now) }
{
    match approach.advance {
        Some(detector) => detector_after(alloc, approach, detector, crossing, cuts, hour),
        None => Ok(Crossing::none(alloc)),
    }
}

// The same of all approaches, in file order.
fn crossings_after(
    alloc: Global,
    config: &Config,
    crossings: &[Crossing],
    cuts: &Cuts,
    hour: &PassingRows<'_>,
) -> Result<Vec<Crossing>, NoMemory>
    ensures { IfOk result (λ v. CrossNext config.now hour.now cuts.now crossings.now v.items) }
{
    let none = Crossing::none(alloc);
    let mut after = Vec::new(alloc);
    for place in 0..config.approach_count() {
        let approach = approach_of(config, place);
        let crossing = crossing_at(crossings, place, &none);
        after.push(approach_after(alloc, approach, crossing, cuts, hour)?)?;
    }
    Ok(after)
}

/// What crosses the point after the hour, in `carry` in place of what crosses the point before it,
/// without the hour's numbers. The cuts are those of the hour.
pub fn arrivals_carried(
    alloc: Global,
    config: &Config,
    carry: &mut ArrivalCarry,
    cuts: &Cuts,
    rows: &[Row],
    stretches: &[Stretch],
) -> Result<(), NoMemory>
    ensures carry { OnOk result (
        IsCarriedOn config.now rows.now stretches.now cuts.now carry.old carry.new) }
    ensures err { OnErr result (carry.new ≡ carry.old) }
{
    if config.approach_count() == 0 {
        return Ok(());
    }
    let first = first_of(stretches);
    if is_faultless(&carry.flags, rows) {
        let hour = PassingRows {
            rows,
            passing: rows,
            stretches,
            first,
        };
        let crossings = crossings_after(alloc, config, &carry.crossings, cuts, &hour)?;
        carry.crossings = crossings;
        return Ok(());
    }
    let found = detect(alloc, &carry.flags, rows, stretches)?;
    let crossings = {
        let hour = PassingRows {
            rows,
            passing: &found.arrivals,
            stretches,
            first,
        };
        crossings_after(alloc, config, &carry.crossings, cuts, &hour)?
    };
    carry.crossings = crossings;
    put_flags(&mut carry.flags, found.flags);
    Ok(())
}
