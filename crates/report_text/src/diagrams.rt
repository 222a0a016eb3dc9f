// The cycles of a phase with their arrivals.
ghost use Rattle.std.specs.Prelude.{◌≡◌, ◌<◌, ◌*◌, ◌++◌, All, flat_map, slice_get};
ghost use Rattle.outside.specs.Sink.{Puts};
ghost use Rattle.report_text.specs.Approaches.{cycle_line, diagram_text, diagrams_text, name_of, point_line};
ghost use Rattle.report_text.specs.Heads.{points_head};

use crate::heads::put_points_head;
use arrival_measures::{Diagram, Point};
use itoa::Buffer;
use outside::{PutFailed, Sink, put_parts};
use ring_config::Config;
use service_cut::Cycle;
use sig_base::Window;

fn put_cycle<K: Sink>(window: &Window, cycle: &Cycle, sink: &mut K) -> Result<(), PutFailed>
    requires { cycle.now.from < 36000 * window.now.hours }
    ensures { Puts (K.taken sink.old) (K.taken sink.new) (cycle_line window.now cycle.now) result }
{
    let stamp = window.stamp(cycle.from);
    let mut length = Buffer::new();
    let mut green = Buffer::new();
    let mut yellow = Buffer::new();
    put_parts(
        sink,
        &[
            b"cycle ",
            &stamp,
            b" length ",
            length
                .format(cycle.to.saturating_sub(cycle.from))
                .as_bytes(),
            b" green ",
            green.format(cycle.green).as_bytes(),
            b" yellow ",
            yellow.format(cycle.yellow).as_bytes(),
            b"\n",
        ],
    )
}

// The name of the approach at this place, empty where there is none.
fn name_at(config: &Config, place: u32) -> &[u8]
    ensures { result.now ≡ name_of (slice_get config.now.approaches place) }
{
    match config.approach_at(place) {
        Some(approach) => approach.name.bytes(),
        None => b"",
    }
}

fn put_point<K: Sink>(config: &Config, point: Point, sink: &mut K) -> Result<(), PutFailed>
    ensures { Puts (K.taken sink.old) (K.taken sink.new) (point_line config.now point) result }
{
    let mut offset = Buffer::new();
    put_parts(
        sink,
        &[
            b"point ",
            name_at(config, point.approach),
            b" ",
            offset.format(point.offset).as_bytes(),
            b"\n",
        ],
    )
}

fn put_points<K: Sink>(config: &Config, points: &[Point], sink: &mut K) -> Result<(), PutFailed>
    ensures { Puts (K.taken sink.old) (K.taken sink.new)
        (flat_map (point_line config.now) points.now) result }
{
    for point in points {
        put_point(config, *point, sink)?;
    }
    Ok(())
}

/// Writes a whole cycle: its begin, its length and its last begins of green and of yellow, in tenths
/// of a second, and then a line for each arrival in it.
pub fn put_diagram<K: Sink>(
    config: &Config,
    diagram: &Diagram,
    sink: &mut K,
) -> Result<(), PutFailed>
    requires { diagram.now.cycle.from < 36000 * config.now.window.hours }
    ensures { Puts (K.taken sink.old) (K.taken sink.new) (diagram_text config.now diagram.now)
        result }
{
    put_cycle(config.window(), &diagram.cycle, sink)?;
    put_points(config, diagram.points.list(), sink)
}

fn put_each<K: Sink>(config: &Config, diagrams: &[Diagram], sink: &mut K) -> Result<(), PutFailed>
    requires { All (λ d. d.cycle.from < 36000 * config.now.window.hours) diagrams.now }
    ensures { Puts (K.taken sink.old) (K.taken sink.new) (diagrams_text config.now diagrams.now)
        result }
{
    for diagram in diagrams {
        put_diagram(config, diagram, sink)?;
    }
    Ok(())
}

/// Writes the number of a script line, and a phase with these whole cycles of it: of each its begin,
/// its length and its last begins of green and of yellow, in tenths of a second, and then a line for
/// each arrival in it.
pub fn put_diagrams<K: Sink>(
    line: u32,
    phase: u8,
    config: &Config,
    diagrams: &[Diagram],
    sink: &mut K,
) -> Result<(), PutFailed>
    requires { All (λ d. d.cycle.from < 36000 * config.now.window.hours) diagrams.now }
    ensures { Puts (K.taken sink.old) (K.taken sink.new)
        (points_head line phase ++ diagrams_text config.now diagrams.now) result }
{
    put_points_head(line, phase, sink)?;
    put_each(config, diagrams, sink)
}
