// Back over the hours before that of the place.
ghost use Rattle.std.specs.Prelude.{◌≡◌, ◌∷◌, [], ◌+◌, ◌<◌, ◌≤◌, ℕ, pos, ◌-ℤ◌, length, IfOk};
ghost use Rattle.reach.specs.Past.{Holds};
ghost use Rattle.board.specs.Channels.{AreSpecs};
ghost use Rattle.board.specs.Logs.{first_tenth};
ghost use Rattle.gap_ways.specs.Ways.{state_of};
ghost use Rattle.strand_search.specs.Crossings.{AddsHoursBack};
ghost use Rattle.sig_base.specs.Reads.{Grow};
ghost use Rattle.strand_search.specs.Points.{ArePastsUpTo, past_at};

use crate::over::clamped_back_over;
use crate::part::hour_part;
use board::Pasts;
use channel_tables::Spec;
use gap_ways::Entered;
use hour_store::HourStore;
use sig_base::{Hour, NoMemory, Reads, Row, Tenth};
use std::alloc::Global;

/// A state at an hour point, and the rows that lead on from there, last first.
#[derive(Drop)]
pub(crate) struct Back {
    pub(crate) here: Entered,
    pub(crate) rows: Vec<Row>,
}

// The tenth to which earlier entries are put at the point after the hour.
fn limit_after(hour: Hour) -> Tenth
    requires { hour < 744 }
    ensures { result ≡ (pos (first_tenth (hour + 1)) -ℤ pos 36001) }
{
    i64::from(36_000 * (hour + 1)) - 36_001
}

// Back over one hour, which is opened.
#[tactic(auto, using(crate::proofs::Growing::grow_on, crate::proofs::Growing::grow_same))]
fn back_over_hour<L>(
    alloc: Global,
    store: &HourStore<L>,
    spec: &Spec,
    hour: Hour,
    way: Back,
    pasts: &[Pasts],
    reads: &mut Reads<L>,
) -> Result<Back, NoMemory>
    requires spec { AreSpecs (spec.now ∷ []) }
    requires hour { hour < length store.now.hours }
    requires pasts { (n : ℕ) × (hour < n) × ArePastsUpTo spec.now store.now n pasts.now }
    requires held { Holds (past_at pasts.now (hour + 1)) (state_of way.here) }
    ensures held { IfOk result (λ r. Holds (past_at pasts.now hour) (state_of r.here)) }
    ensures way { IfOk result (λ r. AddsHoursBack spec.now store.now hour (hour + 1)
        way.rows.items r.rows.items (state_of r.here) (state_of way.here)) }
    ensures grow { Grow reads.old reads.new }
{
    let mut way = way;
    let part = hour_part(alloc, store, hour, reads)?;
    let limit = limit_after(hour);
    let before = pasts[hour as usize].at(0);
    let here = clamped_back_over(alloc, spec, &part, before, limit, way.here, &mut way.rows)?;
    Ok(Back {
        here,
        rows: way.rows,
    })
}

/// Back over the hours before this one, to the window's start. They are opened.
#[tactic(auto, using(crate::proofs::Growing::grow_on, crate::proofs::Growing::grow_same))]
pub(crate) fn back_to_start<L>(
    alloc: Global,
    store: &HourStore<L>,
    spec: &Spec,
    hour: Hour,
    way: Back,
    pasts: &[Pasts],
    reads: &mut Reads<L>,
) -> Result<Back, NoMemory>
    requires spec { AreSpecs (spec.now ∷ []) }
    requires hour { hour ≤ length store.now.hours }
    requires pasts { ArePastsUpTo spec.now store.now hour pasts.now }
    requires held { Holds (past_at pasts.now hour) (state_of way.here) }
    ensures held { IfOk result (λ r. Holds (past_at pasts.now 0) (state_of r.here)) }
    ensures way { IfOk result (λ r. AddsHoursBack spec.now store.now 0 hour way.rows.items
        r.rows.items (state_of r.here) (state_of way.here)) }
    ensures grow { Grow reads.old reads.new }
{
    let mut at = way;
    for turn in 0..hour {
        at = back_over_hour(alloc, store, spec, hour - 1 - turn, at, pasts, reads)?;
    }
    Ok(at)
}
