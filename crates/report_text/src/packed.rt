// The line of a packed hour that was refused.
ghost use Rattle.outside.specs.Sink.{Puts};
ghost use Rattle.report_text.specs.Packed.{packed_text};

use crate::refusal::{put_reason, put_refused};
use hour_pack::PackError;
use itoa::Buffer;
use outside::{PutFailed, Sink};

fn put_row_refusal<K: Sink>(line: Option<u32>, number: u32, sink: &mut K) -> Result<(), PutFailed>
    ensures { Puts (K.taken sink.old) (K.taken sink.new) (packed_text line (PackError.Row number))
        result }
{
    let mut buffer = Buffer::new();
    put_refused(
        line,
        &[b"packed row ", buffer.format(number).as_bytes(), b"\n"],
        sink,
    )
}

/// Writes the line of a script line whose packed hour was refused, or of the file that was to be
/// packed where there is no line number. Bytes without the mark of a packed hour are no packed
/// hour, and they and a lack of memory have no line.
pub fn put_packed_refusal<K: Sink>(
    line: Option<u32>,
    error: PackError,
    sink: &mut K,
) -> Result<(), PutFailed>
    ensures { Puts (K.taken sink.old) (K.taken sink.new) (packed_text line error) result }
{
    match error {
        PackError::NotPacked => Ok(()),
        PackError::Short => put_reason(line, b"packed short", sink),
        PackError::WrongSignal => put_reason(line, b"packed wrong signal", sink),
        PackError::WrongHour => put_reason(line, b"packed wrong hour", sink),
        PackError::TooManyRows => put_reason(line, b"too many rows", sink),
        PackError::Row(number) => put_row_refusal(line, number, sink),
        PackError::Extra => put_reason(line, b"packed extra", sink),
        PackError::Memory => Ok(()),
    }
}
