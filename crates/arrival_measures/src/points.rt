// The points of diagrams.
ghost use Rattle.std.specs.Prelude.{◌≡◌, ◌++◌, ◌∷◌, ◌==◌, ◌&&◌, ◌<◌, ◌-◌, [], List, All, flat_map, map, IfOk, OnOk, OnErr};
ghost use Rattle.sig_base.specs.declared.values.Row.{Row};
ghost use Rattle.arrival_measures.specs.Arrivals.{is_on};
ghost use Rattle.arrival_measures.specs.declared.points.Point.{Point};
ghost use Rattle.arrival_measures.specs.Points.{IsByTenth, by_tenth, diagram_of, is_on_at, points_at};

use crate::approach::approach_of;
use ring_config::{Approach, Config};
use service_cut::Cycle;
use sig_base::{NoMemory, Row};
use std::alloc::Global;
use std::marker::Model;

/// An arrival of an approach.
#[derive(Clone, Copy, Debug, PartialEq, Eq)]
pub struct Point {
    /// The approach's place in file order, from 0.
    pub approach: u32,
    /// Tenths since the begin of its cycle; since the window's start where no cycle is named.
    pub offset: u32,
}

/// Points in their order, seen as a list of them.
#[derive(Drop)]
pub struct Points {
    items: Vec<Point>,
}

impl Model for Points {
    ghost use Rattle.std.specs.Prelude.{List};
    ghost use Rattle.arrival_measures.specs.declared.points.Point.{Point};

    ghost Value = { List Point };

    ghost view = { λ p. p.items.items };
}

impl Points {
    /// No points. Can't run out of memory.
    pub fn new(alloc: Global) -> Points
        ensures { result ≡ [] }
    {
        Points {
            items: Vec::new(alloc),
        }
    }

    /// Adds a point at the end.
    pub fn push(&mut self, point: Point) -> Result<(), NoMemory>
        ensures ok { OnOk result (self.new ≡ self.old ++ point ∷ []) }
        ensures err { OnErr result (self.new ≡ self.old) }
    {
        self.items.push(point)?;
        Ok(())
    }

    /// The points, as they were added.
    pub fn list(&self) -> &[Point]
        ensures { result.now ≡ self.now }
    {
        self.items.as_slice()
    }
}

/// A whole cycle with the arrivals in it: from its first tenth up to its last, which is left out.
#[derive(Drop)]
pub struct Diagram {
    pub cycle: Cycle,
    pub points: Points,
}

/// A vehicle detector goes on.
const DETECTOR_ON: u8 = 82;

// Whether it is this detector that goes on.
fn is_on(detector: u8, row: &Row) -> bool
    ensures { result ≡ is_on detector row.now }
{
    row.code == DETECTOR_ON && row.param == u16::from(detector)
}

/// Whether the row is one of the advance detector of an approach of the phase.
pub(crate) fn arrives(approach: &Approach, phase: u8, row: &Row) -> bool
    ensures { result ≡ (approach.now.phase == phase && is_on_at approach.now.advance row.now) }
{
    match approach.advance {
        None => false,
        Some(detector) => approach.phase == phase && is_on(detector, row),
    }
}

// Adds the points of a row, one for each approach at which it is an arrival.
fn add_points(config: &Config, phase: u8, row: &Row, points: &mut Points) -> Result<(), NoMemory>
    ensures { OnOk result (row.now.at < 26820000
        → points.new ≡ points.old ++ points_at phase 0 config.now.approaches row.now) }
{
    for place in 0..config.approach_count() {
        let approach = approach_of(config, place);
        if arrives(approach, phase, row) {
            points.push(Point {
                approach: place,
                offset: row.at.saturating_add(approach.travel),
            })?;
        }
    }
    Ok(())
}

/// The points of arrivals.
pub(crate) fn points_among(
    alloc: Global,
    config: &Config,
    phase: u8,
    rows: &[Row],
) -> Result<Points, NoMemory>
    ensures { IfOk result (λ points. All (λ x. x.at < 26820000) rows.now
        → points ≡ flat_map (points_at phase 0 config.now.approaches) rows.now) }
{
    let mut points = Points::new(alloc);
    for row in rows {
        add_points(config, phase, row, &mut points)?;
    }
    Ok(points)
}

fn copied(alloc: Global, points: &[Point]) -> Result<Vec<Point>, NoMemory>
    ensures { IfOk result (λ v. v.items ≡ points.now) }
{
    let all = points.iter().copied().collect(alloc)?;
    Ok(all)
}

// The points by tenth, those of one tenth in their order.
fn sorted(alloc: Global, points: &[Point]) -> Result<Vec<Point>, NoMemory>
    ensures { IfOk result (λ v. IsByTenth points.now v.items) }
{
    let mut all = copied(alloc, points)?;
    all.sort_by_key(|point| point.offset)?;
    Ok(all)
}

// Those of the points at the tenths from one up to another; they stand by tenth.
fn points_within(points: &[Point], from: u32, to: u32) -> &[Point]
    ensures { (all : List Point) → IsByTenth all points.now
        → result.now ≡ by_tenth (to - from) from all }
{
    let (_, later) = points.split_at(points.partition_point(|point| point.offset < from));
    let (within, _) = later.split_at(later.partition_point(|point| point.offset < to));
    within
}

// The cycle with those of the points that are in it; they stand by tenth.
fn with_points(alloc: Global, cycle: &Cycle, points: &[Point]) -> Result<Diagram, NoMemory>
    ensures { IfOk result (λ d. (all : List Point) → IsByTenth all points.now
        → d ≡ diagram_of all cycle.now) }
{
    let mut own = Points::new(alloc);
    let within = points_within(points, cycle.from, cycle.to);
    for point in within {
        own.push(Point {
            approach: point.approach,
            offset: point.offset.saturating_sub(cycle.from),
        })?;
    }
    Ok(Diagram {
        cycle: *cycle,
        points: own,
    })
}

/// The cycles of a phase, each with those of the points that are in it, by tenth; points of one
/// tenth stand in their order. The points of the hours follow one another.
pub fn diagrams(alloc: Global, cycles: &[Cycle], points: &Points) -> Result<Vec<Diagram>, NoMemory>
    ensures { IfOk result (λ v. v.items ≡ map (diagram_of points.now) cycles.now) }
{
    let ordered = sorted(alloc, points.list())?;
    let mut all = Vec::new(alloc);
    for cycle in cycles {
        all.push(with_points(alloc, cycle, &ordered)?)?;
    }
    Ok(all)
}
