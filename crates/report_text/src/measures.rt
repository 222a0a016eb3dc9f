// The lines of a report.
ghost use Rattle.outside.specs.Sink.{Puts};
ghost use Rattle.report_text.specs.Measures.{held_line, hour_measures, measures_text, others_text, window_measures};

use crate::approaches::put_approaches;
use crate::coordination::put_coordination;
use crate::heads::{put_hour_head, put_window_head};
use crate::lines::put_lines;
use hour_work::Partial;
use itoa::Buffer;
use outside::{PutFailed, Sink, put_parts};
use ring_config::Config;
use sig_base::Hour;

fn put_held<K: Sink>(part: &Partial, sink: &mut K) -> Result<(), PutFailed>
    ensures { Puts (K.taken sink.old) (K.taken sink.new) (held_line part.now) result }
{
    let mut hours = Buffer::new();
    let mut rows = Buffer::new();
    let mut known = Buffer::new();
    put_parts(
        sink,
        &[
            b"held ",
            hours.format(part.held_hours()).as_bytes(),
            b" rows ",
            rows.format(part.held_rows()).as_bytes(),
            b" known ",
            known.format(part.known_tenths()).as_bytes(),
            b"\n",
        ],
    )
}

fn put_others<K: Sink>(config: &Config, part: &Partial, sink: &mut K) -> Result<(), PutFailed>
    ensures { Puts (K.taken sink.old) (K.taken sink.new) (others_text config.now part.now) result }
{
    let others = part.others();
    put_lines(config, others.peds(), sink)?;
    put_lines(config, others.preempts(), sink)?;
    put_coordination(config.coordination(), others.coordination(), sink)
}

/// Writes the held hours, their rows with those at blanked tenths, and the known tenths; then a line
/// for each phase, each pedestrian signal and each preempt, by ascending number, and one for the
/// coordination where it is on; then for each approach, in file order, a line for its advance
/// detector and two for its stop bar detector.
pub fn put_measures<K: Sink>(config: &Config, part: &Partial, sink: &mut K) -> Result<(), PutFailed>
    ensures { Puts (K.taken sink.old) (K.taken sink.new)
        (measures_text config.now part.now) result }
{
    put_held(part, sink)?;
    put_lines(config, part.splits().phases(), sink)?;
    put_others(config, part, sink)?;
    let splits = part.splits().approaches();
    put_approaches(config, part.arrivals().approaches(), splits, sink)
}

/// Writes the number of a script line and the measures of the window.
pub fn put_window_measures<K: Sink>(
    line: u32,
    config: &Config,
    total: &Partial,
    sink: &mut K,
) -> Result<(), PutFailed>
    ensures { Puts (K.taken sink.old) (K.taken sink.new) (window_measures line config.now total.now)
        result }
{
    put_window_head(line, sink)?;
    put_measures(config, total, sink)
}

/// Writes the number of a script line, and an hour with its measures.
pub fn put_hour_measures<K: Sink>(
    line: u32,
    hour: Hour,
    config: &Config,
    part: &Partial,
    sink: &mut K,
) -> Result<(), PutFailed>
    ensures { Puts (K.taken sink.old) (K.taken sink.new)
        (hour_measures line hour config.now part.now) result }
{
    put_hour_head(line, hour, sink)?;
    put_measures(config, part, sink)
}
