// The line of an accepted edit.
ghost use Rattle.outside.specs.Sink.{Puts};
ghost use Rattle.report_text.specs.Applied.{applied_text};

use itoa::Buffer;
use outside::{PutFailed, Sink, put_parts};
use sig_base::Applied;

/// Writes the line of an accepted edit: the number of its script line, for a load or a replacement
/// the rows and the repeats, and the hours that moved.
pub fn put_applied<K: Sink>(
    line: u32,
    loaded: Option<(u32, u32)>,
    applied: &Applied,
    sink: &mut K,
) -> Result<(), PutFailed>
    ensures { Puts (K.taken sink.old) (K.taken sink.new) (applied_text line loaded applied.now)
        result }
{
    match loaded {
        Some((rows, repeats)) => put_loaded(line, rows, repeats, applied, sink),
        None => put_moved(line, applied, sink),
    }
}

fn put_loaded<K: Sink>(
    line: u32,
    rows: u32,
    repeats: u32,
    applied: &Applied,
    sink: &mut K,
) -> Result<(), PutFailed>
    ensures { Puts (K.taken sink.old) (K.taken sink.new)
        (applied_text line (Some (rows, repeats)) applied.now) result }
{
    let mut number = Buffer::new();
    let mut kept = Buffer::new();
    let mut dropped = Buffer::new();
    let mut from = Buffer::new();
    let mut to = Buffer::new();
    put_parts(
        sink,
        &[
            number.format(line).as_bytes(),
            b" ok rows ",
            kept.format(rows).as_bytes(),
            b" repeats ",
            dropped.format(repeats).as_bytes(),
            b" moved ",
            from.format(applied.from).as_bytes(),
            b" ",
            to.format(applied.to).as_bytes(),
            b"\n",
        ],
    )
}

fn put_moved<K: Sink>(line: u32, applied: &Applied, sink: &mut K) -> Result<(), PutFailed>
    ensures { Puts (K.taken sink.old) (K.taken sink.new)
        (applied_text line None applied.now) result }
{
    let mut number = Buffer::new();
    let mut from = Buffer::new();
    let mut to = Buffer::new();
    put_parts(
        sink,
        &[
            number.format(line).as_bytes(),
            b" ok moved ",
            from.format(applied.from).as_bytes(),
            b" ",
            to.format(applied.to).as_bytes(),
            b"\n",
        ],
    )
}
