// The states at the hour points of a window.
ghost use Rattle.std.specs.Prelude.{◌∷◌, [], ◌+◌, ◌≤◌, ◌<◌, length, IfOk, MatchOption};
ghost use Rattle.board.specs.Channels.{AreSpecs};
ghost use Rattle.signal_log.specs.Points.{AreAheadsAt, ArePastsAt};
ghost use Rattle.sig_base.specs.Reads.{Grow};
ghost use Rattle.strand_search.specs.Points.{AreAheadsBack, ArePastsUpTo, HasNone, log_alone};

use board::{Aheads, Pasts, PastsError};
use channel_tables::Spec;
use hour_store::HourStore;
use sig_base::{Hour, NoMemory, Reads};
use signal_log::{aheads_before, pasts_after};
use std::alloc::Global;

// The states at the point after an hour, which is opened. None where no history agrees.
#[tactic(auto, using(crate::proofs::Growing::grow_raised_to))]
fn next_pasts<L>(
    alloc: Global,
    store: &HourStore<L>,
    spec: &Spec,
    hour: Hour,
    before: &Pasts,
    reads: &mut Reads<L>,
) -> Result<Option<Pasts>, NoMemory>
    requires spec { AreSpecs (spec.now ∷ []) }
    requires hour { hour < length store.now.hours }
    requires before { ArePastsAt (log_alone spec.now store.now) hour before.now }
    ensures pasts { IfOk result (λ r. MatchOption r (HasNone spec.now store.now)
        (ArePastsAt (log_alone spec.now store.now) (hour + 1))) }
    ensures grow { Grow reads.old reads.new }
{
    let specs = std::slice::from_ref(spec);
    let rows = store.open_hour(hour, reads);
    match pasts_after(alloc, specs, hour, before, rows, store.blanked()) {
        Ok(pasts) => Ok(Some(pasts)),
        Err(PastsError::NoState(_row)) => Ok(None),
        Err(PastsError::Memory) => Err(NoMemory),
    }
}

// The states before the window.
fn first_pasts<L>(alloc: Global, store: &HourStore<L>, spec: &Spec) -> Result<Pasts, NoMemory>
    requires spec { AreSpecs (spec.now ∷ []) }
    ensures { IfOk result (ArePastsAt (log_alone spec.now store.now) 0) }
{
    Pasts::start(alloc, std::slice::from_ref(spec))
}

/// The states at each point from the window's start up to that before the hour. The hours before it
/// are opened. None where no history agrees.
#[tactic(auto, using(crate::proofs::Growing::grow_on, crate::proofs::Growing::grow_same))]
pub(crate) fn pasts_up_to<L>(
    alloc: Global,
    store: &HourStore<L>,
    spec: &Spec,
    hour: Hour,
    reads: &mut Reads<L>,
) -> Result<Option<Vec<Pasts>>, NoMemory>
    requires spec { AreSpecs (spec.now ∷ []) }
    requires hour { hour ≤ length store.now.hours }
    ensures pasts { IfOk result (λ r. MatchOption r (HasNone spec.now store.now)
        (λ v. ArePastsUpTo spec.now store.now hour v.items)) }
    ensures grow { Grow reads.old reads.new }
{
    let mut pasts = Vec::new(alloc);
    let first = first_pasts(alloc, store, spec)?;
    pasts.push(first)?;
    for past in 0..hour {
        let next = next_pasts(alloc, store, spec, past, &pasts[past as usize], reads)?;
        match next {
            Some(next) => pasts.push(next)?,
            None => return Ok(None),
        }
    }
    Ok(Some(pasts))
}

// The states that can be completed at the window's end.
fn last_aheads<L>(alloc: Global, store: &HourStore<L>, spec: &Spec) -> Result<Aheads, NoMemory>
    requires spec { AreSpecs (spec.now ∷ []) }
    ensures { IfOk result (AreAheadsAt (log_alone spec.now store.now) (length store.now.hours)) }
{
    let end = i64::from(36_000 * store.hours());
    Aheads::end(alloc, std::slice::from_ref(spec), end)
}

// Those at the point before an hour, which is opened.
#[tactic(auto, using(crate::proofs::Growing::grow_raised_to))]
fn previous_aheads<L>(
    alloc: Global,
    store: &HourStore<L>,
    spec: &Spec,
    hour: Hour,
    after: &Aheads,
    reads: &mut Reads<L>,
) -> Result<Aheads, NoMemory>
    requires spec { AreSpecs (spec.now ∷ []) }
    requires hour { hour < length store.now.hours }
    requires after { AreAheadsAt (log_alone spec.now store.now) (hour + 1) after.now }
    ensures aheads { IfOk result (AreAheadsAt (log_alone spec.now store.now) hour) }
    ensures grow { Grow reads.old reads.new }
{
    let specs = std::slice::from_ref(spec);
    let rows = store.open_hour(hour, reads);
    aheads_before(alloc, specs, hour, after, rows, store.blanked())
}

/// The states that can be completed at each point, from the window's end back over so many hours,
/// which are opened.
#[tactic(auto, using(crate::proofs::Growing::grow_on, crate::proofs::Growing::grow_same))]
pub(crate) fn aheads_back<L>(
    alloc: Global,
    store: &HourStore<L>,
    spec: &Spec,
    count: u32,
    reads: &mut Reads<L>,
) -> Result<Vec<Aheads>, NoMemory>
    requires spec { AreSpecs (spec.now ∷ []) }
    requires count { count ≤ length store.now.hours }
    ensures aheads { IfOk result (λ v. AreAheadsBack spec.now store.now count v.items) }
    ensures grow { Grow reads.old reads.new }
{
    let hours = store.hours();
    let mut aheads = Vec::new(alloc);
    let last = last_aheads(alloc, store, spec)?;
    aheads.push(last)?;
    for done in 0..count {
        let hour = hours - 1 - done;
        let next = previous_aheads(alloc, store, spec, hour, &aheads[done as usize], reads)?;
        aheads.push(next)?;
    }
    Ok(aheads)
}
