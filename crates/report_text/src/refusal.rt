// The line of what was refused.
ghost use Rattle.std.specs.Prelude.{◌++◌, ◌∷◌, [], ◌<◌, ◌*◌};
ghost use Rattle.outside.specs.Sink.{Puts};
ghost use Rattle.outside.specs.Parts.{texts};
ghost use Rattle.report_text.specs.Line.{line_of};
ghost use Rattle.report_text.specs.Refusals.{refused, record_reason, file_text, edit_text, refusal_text, NamesRowIn, IsOfWindow};

use itoa::Buffer;
use outside::{PutFailed, Sink, put_parts};
use row_reader::RowError;
use sig_base::{EditError, Row, Window};

/// Why a line of a script, or the counted file, was refused.
#[derive(Clone, Copy, Debug, PartialEq, Eq)]
pub enum Refusal {
    /// The line isn't one of those that a script has.
    BadLine,
    /// The file isn't there.
    MissingFile,
    /// The file is longer than 32 MiB.
    FileTooLong,
    /// The file has a bad record, or too many.
    File(RowError),
    /// The edit isn't one that the store takes.
    Edit(EditError),
}

fn put_head<K: Sink>(line: Option<u32>, sink: &mut K) -> Result<(), PutFailed>
    ensures { Puts (K.taken sink.old) (K.taken sink.new) (refused line) result }
{
    let Some(line) = line else {
        return sink.put(b"refused ");
    };
    let mut number = Buffer::new();
    put_parts(sink, &[number.format(line).as_bytes(), b" refused "])
}

// Writes the head of a refusal and the parts of its reason.
pub(crate) fn put_refused<K: Sink>(
    line: Option<u32>,
    reason: &[&[u8]],
    sink: &mut K,
) -> Result<(), PutFailed>
    ensures { Puts (K.taken sink.old) (K.taken sink.new) (refused line ++ texts reason.now) result }
{
    put_head(line, sink)?;
    put_parts(sink, reason)
}

pub(crate) fn put_reason<K: Sink>(
    line: Option<u32>,
    reason: &[u8],
    sink: &mut K,
) -> Result<(), PutFailed>
    ensures { Puts (K.taken sink.old) (K.taken sink.new) (refused line ++ line_of (reason.now ∷ []))
        result }
{
    put_refused(line, &[reason, b"\n"], sink)
}

fn put_record<K: Sink>(
    line: Option<u32>,
    number: u32,
    test: &[u8],
    sink: &mut K,
) -> Result<(), PutFailed>
    ensures { Puts (K.taken sink.old) (K.taken sink.new)
        (refused line ++ record_reason number test.now) result }
{
    let mut buffer = Buffer::new();
    put_refused(
        line,
        &[b"row ", buffer.format(number).as_bytes(), b" ", test, b"\n"],
        sink,
    )
}

fn put_file_refusal<K: Sink>(
    line: Option<u32>,
    error: RowError,
    sink: &mut K,
) -> Result<(), PutFailed>
    ensures { Puts (K.taken sink.old) (K.taken sink.new) (file_text line error) result }
{
    match error {
        RowError::TooManyRows => put_reason(line, b"too many rows", sink),
        RowError::Fields(n) => put_record(line, n, b"fields", sink),
        RowError::WrongSignal(n) => put_record(line, n, b"wrong signal", sink),
        RowError::Stamp(n) => put_record(line, n, b"stamp", sink),
        RowError::OutsideHour(n) => put_record(line, n, b"outside hour", sink),
        RowError::Code(n) => put_record(line, n, b"code", sink),
        RowError::Param(n) => put_record(line, n, b"param", sink),
        RowError::Memory => Ok(()),
    }
}

fn put_contradiction<K: Sink>(
    window: &Window,
    line: Option<u32>,
    row: Row,
    sink: &mut K,
) -> Result<(), PutFailed>
    requires { row.at < 36000 * window.now.hours }
    ensures { Puts (K.taken sink.old) (K.taken sink.new)
        (edit_text window.now line (EditError.Contradiction row)) result }
{
    let stamp = window.stamp(row.at);
    let mut code = Buffer::new();
    let mut param = Buffer::new();
    put_refused(
        line,
        &[
            b"contradiction ",
            &stamp,
            b" code ",
            code.format(row.code).as_bytes(),
            b" param ",
            param.format(row.param).as_bytes(),
            b"\n",
        ],
        sink,
    )
}

fn put_edit_refusal<K: Sink>(
    window: &Window,
    line: Option<u32>,
    error: EditError,
    sink: &mut K,
) -> Result<(), PutFailed>
    requires { NamesRowIn window.now error }
    ensures { Puts (K.taken sink.old) (K.taken sink.new) (edit_text window.now line error) result }
{
    match error {
        EditError::OutOfWindow => put_reason(line, b"out of window", sink),
        EditError::AlreadyHeld => put_reason(line, b"already held", sink),
        EditError::NotHeld => put_reason(line, b"not held", sink),
        EditError::EmptyRange => put_reason(line, b"empty range", sink),
        EditError::TooManyRows => put_reason(line, b"too many held rows", sink),
        EditError::TooManyBlanks => put_reason(line, b"too many blanks", sink),
        EditError::Contradiction(row) => put_contradiction(window, line, row, sink),
        EditError::Memory => Ok(()),
    }
}

/// Writes the line of a refused script line, or of the counted file where there is no line number.
/// Out of memory has no line.
pub fn put_refusal<K: Sink>(
    window: &Window,
    line: Option<u32>,
    refusal: &Refusal,
    sink: &mut K,
) -> Result<(), PutFailed>
    requires { IsOfWindow window.now refusal.now }
    ensures { Puts (K.taken sink.old) (K.taken sink.new) (refusal_text window.now line refusal.now)
        result }
{
    match *refusal {
        Refusal::BadLine => put_reason(line, b"bad line", sink),
        Refusal::MissingFile => put_reason(line, b"missing file", sink),
        Refusal::FileTooLong => put_reason(line, b"file too long", sink),
        Refusal::File(error) => put_file_refusal(line, error, sink),
        Refusal::Edit(error) => put_edit_refusal(window, line, error, sink),
    }
}
