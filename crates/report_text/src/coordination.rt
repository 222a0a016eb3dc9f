// The line of the coordination.
ghost use Rattle.outside.specs.Sink.{Puts};
ghost use Rattle.report_text.specs.Measures.{coordination_line, coordination_rows, coordination_states, coordination_text};

use itoa::Buffer;
use other_measures::CoordSum;
use outside::{PutFailed, Sink, put_parts};

fn put_states<K: Sink>(sums: &CoordSum, sink: &mut K) -> Result<(), PutFailed>
    ensures { Puts (K.taken sink.old) (K.taken sink.new) (coordination_states sums.now) result }
{
    let mut state0 = Buffer::new();
    let mut state1 = Buffer::new();
    let mut state2 = Buffer::new();
    let mut state3 = Buffer::new();
    let mut state4 = Buffer::new();
    let mut state5 = Buffer::new();
    let mut state6 = Buffer::new();
    put_parts(
        sink,
        &[
            b"coordination 0 ",
            state0.format(sums.tenths[0]).as_bytes(),
            b" 1 ",
            state1.format(sums.tenths[1]).as_bytes(),
            b" 2 ",
            state2.format(sums.tenths[2]).as_bytes(),
            b" 3 ",
            state3.format(sums.tenths[3]).as_bytes(),
            b" 4 ",
            state4.format(sums.tenths[4]).as_bytes(),
            b" 5 ",
            state5.format(sums.tenths[5]).as_bytes(),
            b" 6 ",
            state6.format(sums.tenths[6]).as_bytes(),
        ],
    )
}

fn put_rows<K: Sink>(sums: &CoordSum, sink: &mut K) -> Result<(), PutFailed>
    ensures { Puts (K.taken sink.old) (K.taken sink.new) (coordination_rows sums.now) result }
{
    let mut undecided = Buffer::new();
    let mut patterns = Buffer::new();
    let mut changes = Buffer::new();
    let mut yields = Buffer::new();
    let mut begins = Buffer::new();
    put_parts(
        sink,
        &[
            b" undecided ",
            undecided.format(sums.undecided).as_bytes(),
            b" patterns ",
            patterns.format(sums.patterns).as_bytes(),
            b" cycle_changes ",
            changes.format(sums.cycle_changes).as_bytes(),
            b" yields ",
            yields.format(sums.yields).as_bytes(),
            b" begins ",
            begins.format(sums.begins).as_bytes(),
            b"\n",
        ],
    )
}

fn put_line<K: Sink>(sums: &CoordSum, sink: &mut K) -> Result<(), PutFailed>
    ensures { Puts (K.taken sink.old) (K.taken sink.new) (coordination_line sums.now) result }
{
    put_states(sums, sink)?;
    put_rows(sums, sink)
}

/// Writes the line, where the coordination is on.
pub(crate) fn put_coordination<K: Sink>(
    on: bool,
    sums: &CoordSum,
    sink: &mut K,
) -> Result<(), PutFailed>
    ensures { Puts (K.taken sink.old) (K.taken sink.new) (coordination_text on sums.now) result }
{
    if on { put_line(sums, sink) } else { Ok(()) }
}
