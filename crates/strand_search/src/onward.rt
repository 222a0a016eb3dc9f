// On over the hours after that of the place.
ghost use Rattle.std.specs.Prelude.{◌≡◌, ◌∷◌, [], ◌+◌, ◌<◌, ◌≤◌, ℕ, length, IfOk};
ghost use Rattle.board.specs.Channels.{AreSpecs};
ghost use Rattle.gap_ways.specs.Ways.{state_of};
ghost use Rattle.signal_log.specs.Points.{AreAheadsAt};
ghost use Rattle.strand_search.specs.Crossings.{AddsHours, GoesOn};
ghost use Rattle.sig_base.specs.Reads.{Grow};
ghost use Rattle.strand_search.specs.Points.{AreAheadsBack, log_alone};

use crate::over::on_over;
use crate::part::hour_part;
use board::Aheads;
use channel_tables::Spec;
use channel_ways::Passing;
use hour_store::HourStore;
use sig_base::{Hour, NoMemory, Reads, Row};
use std::alloc::Global;

/// A state at an hour point, and the rows that led there, first to last.
#[derive(Drop)]
pub(crate) struct Onward {
    pub(crate) here: Passing,
    pub(crate) rows: Vec<Row>,
}

// Over one hour, which is opened.
#[tactic(auto, using(crate::proofs::Growing::grow_on, crate::proofs::Growing::grow_same))]
fn on_over_hour<L>(
    alloc: Global,
    store: &HourStore<L>,
    spec: &Spec,
    hour: Hour,
    way: Onward,
    after: &Aheads,
    reads: &mut Reads<L>,
) -> Result<Onward, NoMemory>
    requires spec { AreSpecs (spec.now ∷ []) }
    requires hour { hour < length store.now.hours }
    requires here { GoesOn spec.now store.now hour way.here }
    requires after { AreAheadsAt (log_alone spec.now store.now) (hour + 1) after.now }
    ensures here { IfOk result (λ r. GoesOn spec.now store.now (hour + 1) r.here) }
    ensures way { IfOk result (λ r. AddsHours spec.now store.now hour (hour + 1)
        way.rows.items r.rows.items (state_of way.here.state) (state_of r.here.state)) }
    ensures grow { Grow reads.old reads.new }
{
    let mut way = way;
    let part = hour_part(alloc, store, hour, reads)?;
    let here = on_over(alloc, spec, &part, &way.here, after.at(0), &mut way.rows)?;
    Ok(Onward {
        here,
        rows: way.rows,
    })
}

/// Over the hours from one on to the window's end, which are opened.
#[tactic(auto, using(crate::proofs::Growing::grow_on, crate::proofs::Growing::grow_same))]
pub(crate) fn on_to_end<L>(
    alloc: Global,
    store: &HourStore<L>,
    spec: &Spec,
    from: Hour,
    way: Onward,
    aheads: &[Aheads],
    reads: &mut Reads<L>,
) -> Result<Onward, NoMemory>
    requires spec { AreSpecs (spec.now ∷ []) }
    requires from { from ≤ length store.now.hours }
    requires here { GoesOn spec.now store.now from way.here }
    requires aheads { (n : ℕ) × (n + from ≡ length store.now.hours)
        × AreAheadsBack spec.now store.now n aheads.now }
    ensures way { IfOk result (λ r. AddsHours spec.now store.now from (length store.now.hours)
        way.rows.items r.rows.items (state_of way.here.state) (state_of r.here.state)) }
    ensures grow { Grow reads.old reads.new }
{
    let hours = store.hours();
    let mut at = way;
    for hour in from..hours {
        let after = &aheads[(hours - 1 - hour) as usize];
        at = on_over_hour(alloc, store, spec, hour, at, after, reads)?;
    }
    Ok(at)
}
