// The best shift of an approach.
ghost use Rattle.std.specs.Prelude.{◌≡◌, ◌++◌, ◌≤◌, All, IfOk, None, OnOk, length};
ghost use Rattle.offset_search.specs.Shifted.{counts_of};
ghost use Rattle.sig_base.specs.Reads.{Grow};
ghost use Rattle.sigaudit.specs.Offsets.{advance_of, arrivals_at, arrivals_in, arrivals_of, is_taken, offsets_of, store_arrivals};
ghost use Rattle.sigaudit.specs.Run.{TakesBy};

use crate::refused::refuse;
use crate::status::Stopped;
use arrival_measures::{Diagram, Point, diagrams_fit};
use hour_work::hours_make_up_the_log;
use offset_search::{Arrival, Shifts, shift_counts};
use outside::Sink;
use report_text::{Refusal, put_shifts};
use ring_config::Config;
use service_cut::Cycle;
use session::Draft;
use sig_base::{NoMemory, Reads};
use std::alloc::Global;

// The longest cycle that is taken, in tenths.
const LONGEST: u32 = 3000;

// The place and the phase of the approach of this name, where it has an advance detector.
fn advance_of(config: &Config, name: &str) -> Option<(u32, u8)>
    ensures { result ≡ advance_of config.now name.now }
{
    let place = config.approach_named(name)?;
    let approach = config.approach_at(place)?;
    if approach.advance.is_some() {
        Some((place, approach.phase))
    } else {
        None
    }
}

fn is_taken(cycle: &Cycle) -> bool
    requires { cycle.now.from ≤ cycle.now.to }
    ensures { result ≡ is_taken cycle.now }
{
    let length = cycle.to - cycle.from;
    1 <= length && length <= LONGEST && cycle.green <= cycle.yellow
}

// Adds the arrival of a point, where it is one at the approach of this place.
fn add_arrival(
    arrivals: &mut Vec<Arrival>,
    cycle: &Cycle,
    point: &Point,
    place: u32,
) -> Result<(), NoMemory>
    requires { cycle.now.from ≤ cycle.now.to }
    ensures { OnOk result (arrivals.new.items
        ≡ arrivals.old.items ++ arrivals_at place cycle.now point.now) }
{
    if point.approach != place {
        return Ok(());
    }
    arrivals.push(Arrival {
        length: cycle.to - cycle.from,
        green: cycle.green,
        yellow: cycle.yellow,
        offset: point.offset,
    })?;
    Ok(())
}

// Adds the arrivals in a diagram at the approach of this place.
fn add_arrivals(arrivals: &mut Vec<Arrival>, diagram: &Diagram, place: u32) -> Result<(), NoMemory>
    requires { diagram.now.cycle.from ≤ diagram.now.cycle.to }
    ensures { OnOk result (arrivals.new.items ≡ arrivals.old.items
        ++ arrivals_in place diagram.now) }
{
    if !is_taken(&diagram.cycle) {
        return Ok(());
    }
    for point in diagram.points.list() {
        add_arrival(arrivals, &diagram.cycle, point, place)?;
    }
    Ok(())
}

fn arrivals_of(alloc: Global, diagrams: &[Diagram], place: u32) -> Result<Vec<Arrival>, NoMemory>
    requires { All (λ d. d.cycle.from ≤ d.cycle.to) diagrams.now }
    ensures { IfOk result (λ v. v.items ≡ arrivals_of place diagrams.now) }
{
    let mut arrivals = Vec::new(alloc);
    for diagram in diagrams {
        add_arrivals(&mut arrivals, diagram, place)?;
    }
    Ok(arrivals)
}

// The shifts of the arrivals at the approach of this place, which is of this phase, and how many
// arrivals there are.
fn shifts_of<L>(
    alloc: Global,
    place: u32,
    phase: u8,
    session: &Draft<L>,
    reads: &mut Reads<L>,
) -> Result<(usize, Shifts), NoMemory>
    ensures shifts { IfOk result (λ found. found.1 ≡ counts_of
        (store_arrivals session.now.config session.now.store (place, phase))) }
    ensures arrivals { IfOk result (λ found. found.0 ≡ length
        (store_arrivals session.now.config session.now.store (place, phase))) }
    ensures grow { Grow reads.old reads.new }
{
    hours_make_up_the_log();
    diagrams_fit();
    let diagrams = session.points(phase, reads)?;
    let arrivals = arrivals_of(alloc, &diagrams, place)?;
    let shifts = shift_counts(alloc, &arrivals)?;
    Ok((arrivals.len(), shifts))
}

/// Writes how many vehicles would have met green at each shift of an approach's arrivals, and the
/// best shift. A name that is no approach with an advance detector makes a bad line, for which no
/// hour is opened.
#[tactic(auto, using(crate::proofs::GrowFacts::grow_same))]
pub fn offsets_line<L, K: Sink>(
    alloc: Global,
    number: u32,
    name: &str,
    session: &Draft<L>,
    sink: &mut K,
    reads: &mut Reads<L>,
) -> Result<bool, Stopped>
    ensures turn { TakesBy (λ t. t ≡ offsets_of session.now.config number name.now
        session.now.store) (K.taken sink.old) (K.taken sink.new) session.now.store result }
    ensures still { advance_of session.now.config name.now ≡ None → reads.new ≡ reads.old }
    ensures grow { Grow reads.old reads.new }
{
    let Some((place, phase)) = advance_of(session.config(), name) else {
        return refuse(session.config(), number, Refusal::BadLine, sink);
    };
    let (arrivals, shifts) = shifts_of(alloc, place, phase, session, reads)?;
    put_shifts(number, name.as_bytes(), arrivals, &shifts, sink)?;
    Ok(false)
}
