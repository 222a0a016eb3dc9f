// Arrivals of an hour by its view, as points of diagrams.
ghost use Rattle.std.specs.Prelude.{◌≡◌, ◌↔◌, ◌<◌, ◌≤◌, ◌^◌, List, length, slice_index_or, IsTrue, IfOk};
ghost use Rattle.sig_base.specs.declared.values.Row.{Row};
ghost use Rattle.board.specs.Logs.{HourLog, no_row};
ghost use Rattle.board.specs.Places.{IsViewOf};
ghost use Rattle.board.specs.Verdicts.{MayPassRow};
ghost use Rattle.arrival_measures.specs.Judged.{AllPass};
ghost use Rattle.arrival_measures.specs.Points.{ArePicked, ArePointsOf, IsArrival, MayWork, is_ahead, is_fault};
ghost use Rattle.arrival_measures.specs.Steps.{IsKnownRow, IsMaskOf};
ghost use Rattle.arrival_measures.specs.Views.{IsSeen};

use crate::approach::approach_of;
use crate::judged::is_known;
use crate::points::{Points, arrives, points_among};
use board::HourView;
use colour_machine::Mask;
use event_codes::{Channel, Kind};
use gap_map::Stretch;
use reach::{AgeBound, Test};
use ring_config::Config;
use sig_base::{NoMemory, Row};
use std::alloc::Global;

// The colour Fault.
fn fault() -> Mask
    ensures { IsMaskOf is_fault result }
{
    Mask::none().with(2)
}

// Whether the detector with this place among the channels is sure to have a fault before the known
// row, which has this place among the hour's.
fn is_sure(view: &HourView, spec: u16, index: u32, row: &Row) -> bool
    requires { spec < length view.now.specs }
    ensures { (log : HourLog) → IsViewOf log view.now → IsKnownRow log index row.now
        → IsTrue result ↔ AllPass is_fault (MayPassRow log index spec) }
{
    let test = Test {
        colours: fault(),
        bound: AgeBound::Any,
        at: i64::from(row.at),
    };
    !view.seen_before_row(index, spec, &test).some_false
}

// Whether the detector of the known row isn't sure to have a fault before it.
fn may_work(config: &Config, view: &HourView, index: u32, row: &Row) -> bool
    requires view { length view.now.specs ≡ length config.now.specs }
    requires number { row.now.param < 256 }
    ensures { (log : HourLog) → IsViewOf log view.now → IsKnownRow log index row.now
        → IsTrue result ↔ MayWork config.now log index row.now }
{
    let channel = Channel {
        kind: Kind::Detector,
        number: row.param as u8,
    };
    match config.spec_of(channel) {
        Some(spec) => !is_sure(view, spec, index, row),
        None => false,
    }
}

// Whether a detector goes on at the row that is ahead of an approach of the phase.
fn is_ahead(config: &Config, phase: u8, row: &Row) -> bool
    ensures ahead { result ≡ is_ahead phase config.now.approaches row.now }
    ensures number { IsTrue result → row.now.param < 256 }
{
    for place in 0..config.approach_count() {
        if arrives(approach_of(config, place), phase, row) {
            return true;
        }
    }
    false
}

// Whether the row, which has this place among the hour's, is an arrival of the phase.
fn is_arrival(
    config: &Config,
    phase: u8,
    view: &HourView,
    stretches: &[Stretch],
    index: u32,
    row: &Row,
) -> bool
    requires view { length view.now.specs ≡ length config.now.specs }
    ensures { (log : HourLog) (rows : List Row) → IsSeen config.now view.now rows stretches.now log
        → index < length rows → row.now ≡ slice_index_or rows index no_row
        → IsTrue result ↔ IsArrival config.now log phase index row.now }
{
    if !is_ahead(config, phase, row) {
        return false;
    }
    if !is_known(stretches, row.at) {
        return false;
    }
    may_work(config, view, index, row)
}

// How many of the rows a u32 can number: in an hour all of them.
fn numbered(rows: &[Row]) -> u32
    ensures within { result ≤ length rows.now }
    ensures all { length rows.now < 2 ^ 32 → result ≡ length rows.now }
{
    rows.len().min(4_294_967_295) as u32
}

// The arrivals of the phase among the hour's rows.
fn arrivals_among(
    alloc: Global,
    config: &Config,
    phase: u8,
    view: &HourView,
    rows: &[Row],
    stretches: &[Stretch],
) -> Result<Vec<Row>, NoMemory>
    requires view { length view.now.specs ≡ length config.now.specs }
    ensures { IfOk result (λ v. (log : HourLog)
        → IsSeen config.now view.now rows.now stretches.now log
        → ArePicked (IsArrival config.now log phase) 0 rows.now v.items) }
{
    let mut arrivals = Vec::new(alloc);
    for i in 0..numbered(rows) {
        let row = rows[i as usize];
        if is_arrival(config, phase, view, stretches, i, &row) {
            arrivals.push(row)?;
        }
    }
    Ok(arrivals)
}

/// The arrivals of an hour at the advance detectors of a phase's approaches, in row order, and for
/// one row in the approaches' file order. An arrival is a known row at which the detector goes on,
/// but not one before which it is sure to have a fault by the view of the hour. An offset is here
/// the arrival tenth, of the window. The view has the configuration's channels.
pub fn arrival_points(
    alloc: Global,
    config: &Config,
    phase: u8,
    view: &HourView,
    rows: &[Row],
    stretches: &[Stretch],
) -> Result<Points, NoMemory>
    requires view { length view.now.specs ≡ length config.now.specs }
    ensures { IfOk result (λ points. (log : HourLog)
        → IsSeen config.now view.now rows.now stretches.now log
        → ArePointsOf config.now log phase points) }
{
    let arrivals = arrivals_among(alloc, config, phase, view, rows, stretches)?;
    points_among(alloc, config, phase, &arrivals)
}
