// The search for a run.
ghost use Rattle.std.specs.Prelude.{◌≡◌, ◌∷◌, [], ◌++◌, ◌/◌, ◌<◌, length, reverse, MatchOption, IfOk};
ghost use Rattle.board.specs.Channels.{AreSpecs};
ghost use Rattle.strand_search.specs.Crossings.{IsCrossedFrom};
ghost use Rattle.sig_base.specs.Reads.{Grow};
ghost use Rattle.strand_search.specs.Points.{ArePointsAround, HasNone};
ghost use Rattle.strand_search.specs.Runs.{IsAsked, IsFound, NoneComes};

use crate::back::{Back, back_to_start};
use crate::crossing::{Crossing, cross};
use crate::onward::{Onward, on_to_end};
use crate::points::{aheads_back, pasts_up_to};
use board::{Aheads, Pasts};
use channel_tables::Spec;
use colour_machine::Mask;
use hour_store::HourStore;
use reach::AgeBound;
use sig_base::{Hour, NoMemory, Reads, Row, Tenth};
use std::alloc::Global;

/// What is asked of a channel's state at a place of a known tenth.
#[derive(Clone, Copy)]
pub struct Asked {
    /// Tenths of a second since the start of the window.
    pub at: u32,
    /// The place is before the row with this number among those of the tenth's hour, or at the
    /// tenth's end.
    pub before: Option<u32>,
    pub colours: Mask,
    /// It tells no ages of more than an hour apart.
    pub bound: AgeBound,
    /// Whether the state is to have one of the colours at such an age, or not.
    pub met: bool,
}

/// A run of a channel: its state before the window, and its events at unknown tenths.
#[derive(Drop)]
pub struct Found {
    pub colour: u8,
    /// The tenth at which that colour was entered, at most -1.
    pub entry: Tenth,
    /// In the order of their tenths.
    pub fills: Vec<Row>,
}

// The states at the points up to that before an hour, and from the window's end back to that after
// it.
#[derive(Drop)]
struct Points {
    pasts: Vec<Pasts>,
    aheads: Vec<Aheads>,
}

#[tactic(auto, using(crate::proofs::Growing::grow_on, crate::proofs::Growing::grow_same))]
fn points_around<L>(
    alloc: Global,
    store: &HourStore<L>,
    spec: &Spec,
    hour: Hour,
    reads: &mut Reads<L>,
) -> Result<Option<Points>, NoMemory>
    requires spec { AreSpecs (spec.now ∷ []) }
    requires hour { hour < length store.now.hours }
    ensures points { IfOk result (λ r. MatchOption r (HasNone spec.now store.now)
        (ArePointsAround spec.now store.now hour)) }
    ensures grow { Grow reads.old reads.new }
{
    let found = pasts_up_to(alloc, store, spec, hour, reads)?;
    let Some(pasts) = found else {
        return Ok(None);
    };
    let aheads = aheads_back(alloc, store, spec, store.hours() - 1 - hour, reads)?;
    Ok(Some(Points { pasts, aheads }))
}

// A way over the hour of the place, between the states at the points around it.
fn cross_between<L>(
    alloc: Global,
    store: &HourStore<L>,
    spec: &Spec,
    asked: &Asked,
    points: &Points,
    reads: &mut Reads<L>,
) -> Result<Option<Crossing>, NoMemory>
    requires spec { AreSpecs (spec.now ∷ []) }
    requires asked { IsAsked store.now asked.now }
    requires points { ArePointsAround spec.now store.now (asked.now.at / 36000) points.now }
    ensures way { IfOk result (λ r. MatchOption r (NoneComes spec.now store.now asked.now)
        (IsCrossedFrom spec.now store.now asked.now points.now)) }
    ensures grow { Grow reads.old reads.new }
{
    let hour = (asked.at / 36_000) as usize;
    let before = &points.pasts[hour];
    let after = &points.aheads[points.aheads.len() - 1];
    cross(alloc, store, spec, asked, before, after, reads)
}

// The rows of a run: the first, which are last first, and then the others.
fn joined(first: Vec<Row>, others: &[Row]) -> Result<Vec<Row>, NoMemory>
    ensures { IfOk result (λ v. v.items ≡ reverse first.items ++ others.now) }
{
    let mut rows = first;
    rows.reverse();
    rows.extend_from_slice(others)?;
    Ok(rows)
}

// The run over the hours before that of the place and those after it.
#[tactic(auto, using(crate::proofs::Growing::grow_on, crate::proofs::Growing::grow_same))]
fn whole_run<L>(
    alloc: Global,
    store: &HourStore<L>,
    spec: &Spec,
    hour: Hour,
    crossing: Crossing,
    points: &Points,
    reads: &mut Reads<L>,
) -> Result<Found, NoMemory>
    requires spec { AreSpecs (spec.now ∷ []) }
    requires hour { hour < length store.now.hours }
    requires points { ArePointsAround spec.now store.now hour points.now }
    requires crossing { (asked : Asked) × (asked.at / 36000 ≡ hour)
        × IsCrossedFrom spec.now store.now asked points.now crossing }
    ensures found { IfOk result (λ f. (asked : Asked) → asked.at / 36000 ≡ hour
        → IsAsked store.now asked
        → IsCrossedFrom spec.now store.now asked points.now crossing
        → IsFound spec.now store.now asked f) }
    ensures grow { Grow reads.old reads.new }
{
    let way = Back {
        here: crossing.before,
        rows: crossing.earlier,
    };
    let start = back_to_start(alloc, store, spec, hour, way, &points.pasts, reads)?;
    let way = Onward {
        here: crossing.after,
        rows: crossing.later,
    };
    let end = on_to_end(alloc, store, spec, hour + 1, way, &points.aheads, reads)?;
    Ok(Found {
        colour: start.here.colour,
        entry: start.here.entry,
        fills: joined(start.rows, &end.rows)?,
    })
}

/// A run of the channel over the window that agrees with the known rows and comes at the place to a
/// state that answers. None where no history of the channel that agrees does. Each hour of the
/// window is opened.
#[tactic(auto, using(crate::proofs::Growing::grow_on, crate::proofs::Growing::grow_same))]
pub fn find_run<L>(
    alloc: Global,
    store: &HourStore<L>,
    spec: &Spec,
    asked: &Asked,
    reads: &mut Reads<L>,
) -> Result<Option<Found>, NoMemory>
    requires spec { AreSpecs (spec.now ∷ []) }
    requires asked { IsAsked store.now asked.now }
    ensures run { IfOk result (λ r. MatchOption r (NoneComes spec.now store.now asked.now)
        (IsFound spec.now store.now asked.now)) }
    ensures grow { Grow reads.old reads.new }
{
    let hour = asked.at / 36_000;
    let around = points_around(alloc, store, spec, hour, reads)?;
    let Some(points) = around else {
        return Ok(None);
    };
    let way = cross_between(alloc, store, spec, asked, &points, reads)?;
    let Some(crossing) = way else {
        return Ok(None);
    };
    let found = whole_run(alloc, store, spec, hour, crossing, &points, reads)?;
    Ok(Some(found))
}
