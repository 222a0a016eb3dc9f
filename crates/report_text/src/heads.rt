// The lines before answers of several lines.
ghost use Rattle.std.specs.Prelude.{◌∷◌, [], decimal};
ghost use Rattle.outside.specs.Sink.{Puts};
ghost use Rattle.report_text.specs.Line.{line_of};
ghost use Rattle.report_text.specs.Heads.{audit_head, hour_head, points_head, verdicts_head, window_head};

use itoa::Buffer;
use outside::{PutFailed, Sink, put_parts};
use sig_base::Hour;

// The number of a script line, and a word.
fn put_word<K: Sink>(line: u32, word: &[u8], sink: &mut K) -> Result<(), PutFailed>
    ensures { Puts (K.taken sink.old) (K.taken sink.new) (line_of (decimal line ∷ word.now ∷ []))
        result }
{
    let mut number = Buffer::new();
    put_parts(sink, &[number.format(line).as_bytes(), word, b"\n"])
}

// The same with the number of an hour or of a phase behind it.
fn put_numbered<K: Sink>(line: u32, word: &[u8], number: u32, sink: &mut K) -> Result<(), PutFailed>
    ensures { Puts (K.taken sink.old) (K.taken sink.new)
        (line_of (decimal line ∷ word.now ∷ decimal number ∷ [])) result }
{
    let mut first = Buffer::new();
    let mut last = Buffer::new();
    put_parts(
        sink,
        &[
            first.format(line).as_bytes(),
            word,
            last.format(number).as_bytes(),
            b"\n",
        ],
    )
}

pub(crate) fn put_window_head<K: Sink>(line: u32, sink: &mut K) -> Result<(), PutFailed>
    ensures { Puts (K.taken sink.old) (K.taken sink.new) (window_head line) result }
{
    put_word(line, b" measures", sink)
}

pub(crate) fn put_hour_head<K: Sink>(line: u32, hour: Hour, sink: &mut K) -> Result<(), PutFailed>
    ensures { Puts (K.taken sink.old) (K.taken sink.new) (hour_head line hour) result }
{
    put_numbered(line, b" measures ", hour, sink)
}

pub(crate) fn put_audit_head<K: Sink>(line: u32, sink: &mut K) -> Result<(), PutFailed>
    ensures { Puts (K.taken sink.old) (K.taken sink.new) (audit_head line) result }
{
    put_word(line, b" audit", sink)
}

pub(crate) fn put_verdicts_head<K: Sink>(
    line: u32,
    hour: Hour,
    sink: &mut K,
) -> Result<(), PutFailed>
    ensures { Puts (K.taken sink.old) (K.taken sink.new) (verdicts_head line hour) result }
{
    put_numbered(line, b" verdicts ", hour, sink)
}

pub(crate) fn put_points_head<K: Sink>(line: u32, phase: u8, sink: &mut K) -> Result<(), PutFailed>
    ensures { Puts (K.taken sink.old) (K.taken sink.new) (points_head line phase) result }
{
    put_numbered(line, b" points ", u32::from(phase), sink)
}
