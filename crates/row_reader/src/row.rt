// The row of one record.
ghost use Rattle.std.specs.Prelude.{◌≡◌, ◌+◌, ◌*◌, ◌<◌, ◌≤◌, ◌==◌, ◌||◌, ℕ, Ok, IfSome, IfOk, OnOk, IsTrue, codes, length};
ghost use Rattle.csv.specs.Records.{fields_of};
ghost use Rattle.row_reader.specs.Rows.{at_in_hour, field, is_header, is_word, record_row, row_of};
ghost use Rattle.row_reader.specs.Trim.{trimmed};

use crate::RowError;
use crate::minute::{Minute, read_next_stamp, usual_tenth};
use crate::number::{plain_number, read_number};
use crate::trim::{is_plain, trimmed};
use crate::word::same_text;
use csv::ByteRecord;
use sig_base::{Hour, Row, Tenth, Window};

// What rows are wanted.
#[derive(Drop)]
pub(crate) struct Request<'a> {
    pub signal: &'a str,
    pub hour: Hour,
    pub window: &'a Window,
}

ghost use Rattle.row_reader.specs.Request.{wanted};

// The place of a tenth in the window, where it lies in this hour.
fn at_in_hour(hour: Hour, at: Tenth) -> Option<u32>
    requires { hour < 744 }
    ensures value { result ≡ at_in_hour hour at }
    ensures range { IfSome result (λ n. (36000 * hour ≤ n) × (n < 36000 * hour + 36000)) }
{
    let from = 36_000 * hour as i64;
    if from <= at && at < from + 36_000 {
        Some(at as u32)
    } else {
        None
    }
}

// The field at a place as it is, or no bytes.
fn whole_field(fields: &ByteRecord, i: usize) -> &[u8]
    ensures { trimmed result.now ≡ field (fields_of fields.now) i }
{
    fields.get(i).unwrap_or(b"")
}

fn field(fields: &ByteRecord, i: usize) -> &[u8]
    ensures { result.now ≡ field (fields_of fields.now) i }
{
    trimmed(whole_field(fields, i))
}

fn is_header_word(text: &[u8]) -> bool
    ensures { result ≡ (is_word (codes "signalid") text.now
        || is_word (codes "locationidentifier") text.now) }
{
    text.eq_ignore_ascii_case(b"signalid") || text.eq_ignore_ascii_case(b"locationidentifier")
}

pub(crate) fn is_header(number: u32, fields: &ByteRecord) -> bool
    ensures value { result ≡ is_header number (fields_of fields.now) }
    ensures first { IsTrue result → number ≡ 1 }
{
    number == 1 && is_header_word(field(fields, 0))
}

// The row of four fields as most loggers write them: without spaces at their ends, in the minute of
// the stamp before. No answer where they are otherwise.
fn usual_row(
    request: &Request<'_>,
    minute: &Option<Minute>,
    signal: &[u8],
    stamp: &[u8],
    code: &[u8],
    param: &[u8],
) -> Option<Row>
    requires { request.now.hour < 744 }
    ensures value { IfSome result (λ r. (n : ℕ) → row_of (wanted request.now) n (trimmed signal.now)
        (trimmed stamp.now) (trimmed code.now) (trimmed param.now) ≡ Ok r) }
    ensures range { IfSome result (λ r. (36000 * request.now.hour ≤ r.at)
        × (r.at < 36000 * request.now.hour + 36000)) }
{
    if !same_text(signal, request.signal.as_bytes()) || !is_plain(signal) {
        return None;
    }
    let tenth = usual_tenth(minute, stamp, request.window)?;
    let at = at_in_hour(request.hour, tenth)?;
    let code = plain_number(code, 255)?;
    let param = plain_number(param, 65_535)?;
    Some(Row {
        at,
        code: code as u8,
        param: param as u16,
    })
}

// The row of four fields. `minute` is that of the stamp before, where it is known, and then that of
// this one.
#[inline(never)]
fn row_of(
    request: &Request<'_>,
    minute: &mut Option<Minute>,
    n: u32,
    signal: &[u8],
    stamp: &[u8],
    code: &[u8],
    param: &[u8],
) -> Result<Row, RowError>
    requires { request.now.hour < 744 }
    ensures value { result ≡ row_of (wanted request.now) n signal.now stamp.now code.now param.now }
    ensures range { IfOk result (λ r. (36000 * request.now.hour ≤ r.at)
        × (r.at < 36000 * request.now.hour + 36000)) }
{
    if signal != request.signal.as_bytes() {
        return Err(RowError::WrongSignal(n));
    }
    let Some(tenth) = read_next_stamp(minute, stamp, request.window) else {
        return Err(RowError::Stamp(n));
    };
    let Some(at) = at_in_hour(request.hour, tenth) else {
        return Err(RowError::OutsideHour(n));
    };
    let Some(code) = read_number(code, 1, 9, 255) else {
        return Err(RowError::Code(n));
    };
    let Some(param) = read_number(param, 1, 9, 65_535) else {
        return Err(RowError::Param(n));
    };
    Ok(Row {
        at,
        code: code as u8,
        param: param as u16,
    })
}

// The row of the record of this number; so many records before it were a header. `minute` is that
// of the stamp before, as in `row_of`.
pub(crate) fn record_row(
    request: &Request<'_>,
    minute: &mut Option<Minute>,
    headers: u32,
    number: u32,
    fields: &ByteRecord,
) -> Result<Row, RowError>
    requires hour { request.now.hour < 744 }
    requires headers { headers ≤ 1 }
    requires number { number ≤ headers + 400001 }
    ensures value { result ≡ record_row (wanted request.now) headers number (fields_of fields.now) }
    ensures range { IfOk result (λ r. (36000 * request.now.hour ≤ r.at)
        × (r.at < 36000 * request.now.hour + 36000)) }
    ensures few { OnOk result (number ≤ headers + 400000) }
{
    if number == headers + 400_001 {
        return Err(RowError::TooManyRows);
    }
    if fields.len() != 4 {
        return Err(RowError::Fields(number));
    }
    if let Some(row) = usual_row(
        request,
        minute,
        whole_field(fields, 0),
        whole_field(fields, 1),
        whole_field(fields, 2),
        whole_field(fields, 3),
    ) {
        return Ok(row);
    }
    row_of(
        request,
        minute,
        number,
        field(fields, 0),
        field(fields, 1),
        field(fields, 2),
        field(fields, 3),
    )
}
