// The shifts of an approach, and the best of them.
ghost use Rattle.std.specs.Prelude.{◌++◌};
ghost use Rattle.outside.specs.Sink.{Puts};
ghost use Rattle.report_text.specs.Shifts.{best_line, shift_line, shift_lines, shifts_head, shifts_text};

use itoa::Buffer;
use offset_search::Shifts;
use outside::{PutFailed, Sink, put_parts};

fn put_head<K: Sink>(line: u32, name: &[u8], sink: &mut K) -> Result<(), PutFailed>
    ensures { Puts (K.taken sink.old) (K.taken sink.new) (shifts_head line name.now) result }
{
    let mut number = Buffer::new();
    put_parts(
        sink,
        &[number.format(line).as_bytes(), b" offsets ", name, b"\n"],
    )
}

fn put_best<K: Sink>(shifts: &Shifts, arrivals: usize, sink: &mut K) -> Result<(), PutFailed>
    ensures { Puts (K.taken sink.old) (K.taken sink.new) (best_line shifts.now arrivals) result }
{
    let Some((shift, count)) = shifts.best() else {
        return put_parts(sink, &[b"best -", b"\n"]);
    };
    let mut by = Buffer::new();
    let mut most = Buffer::new();
    let mut all = Buffer::new();
    put_parts(
        sink,
        &[
            b"best ",
            by.format(shift).as_bytes(),
            b" count ",
            most.format(count).as_bytes(),
            b" of ",
            all.format(arrivals).as_bytes(),
            b"\n",
        ],
    )
}

fn put_shift<K: Sink>(shift: usize, count: u64, sink: &mut K) -> Result<(), PutFailed>
    ensures { Puts (K.taken sink.old) (K.taken sink.new) (shift_line shift count) result }
{
    let mut by = Buffer::new();
    let mut meet = Buffer::new();
    put_parts(
        sink,
        &[
            b"shift ",
            by.format(shift).as_bytes(),
            b" count ",
            meet.format(count).as_bytes(),
            b"\n",
        ],
    )
}

fn put_each<K: Sink>(counts: &[u64], sink: &mut K) -> Result<(), PutFailed>
    ensures { Puts (K.taken sink.old) (K.taken sink.new) (shift_lines 0 counts.now) result }
{
    for (shift, count) in counts.iter().enumerate() {
        put_shift(shift, *count, sink)?;
    }
    Ok(())
}

fn put_found<K: Sink>(shifts: &Shifts, arrivals: usize, sink: &mut K) -> Result<(), PutFailed>
    ensures { Puts (K.taken sink.old) (K.taken sink.new)
        (best_line shifts.now arrivals ++ shift_lines 0 shifts.now) result }
{
    put_best(shifts, arrivals, sink)?;
    put_each(shifts.counts(), sink)
}

/// Writes the number of a script line and the name of an approach, the least shift that no other
/// exceeds, with its count and the number of arrivals, and then for each shift, in seconds, how many
/// of the arrivals would have met green.
pub fn put_shifts<K: Sink>(
    line: u32,
    name: &[u8],
    arrivals: usize,
    shifts: &Shifts,
    sink: &mut K,
) -> Result<(), PutFailed>
    ensures { Puts (K.taken sink.old) (K.taken sink.new)
        (shifts_text line name.now shifts.now arrivals) result }
{
    put_head(line, name, sink)?;
    put_found(shifts, arrivals, sink)
}
