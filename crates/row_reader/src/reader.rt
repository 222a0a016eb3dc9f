// Reads a log file, record by record.
ghost use Rattle.std.specs.Prelude.{◌≡◌, ◌+◌, ◌*◌, ◌<◌, ◌≤◌, [], true, Ok, IfOk, IfErr, OnOk, length};
ghost use Rattle.std.specs.List.Sorted.{IsNonDecreasingBy};
ghost use Rattle.sig_base.specs.HourRows.{RiseIn};
ghost use Rattle.row_reader.specs.Order.{AreWithin, in_row_order};
ghost use Rattle.row_reader.specs.Rows.{good_rows, rows_of, shown_of, IsRefusal};
ghost use Rattle.row_reader.specs.Repeats.{HasNoRepeat};
ghost use Rattle.row_reader.specs.Request.{wanted};

use crate::RowError;
use crate::order::put_in_order;
use crate::repeats::drop_repeats;
use crate::row::{Request, is_header, record_row};
use csv::{ByteRecord, ReaderBuilder};
use sig_base::{Hour, HourRows, NoMemory, Row, Window};
use std::alloc::Global;

// No rows, with room for those that a file of these bytes may have. Few records take less than 24.
fn room_for(alloc: Global, bytes: &[u8]) -> Result<Vec<Row>, NoMemory>
    ensures { IfOk result (λ v. v.items ≡ []) }
{
    Ok(Vec::with_capacity(alloc, (bytes.len() / 24).min(400_000))?)
}

// The rows of a file as it has them, and whether no row is before the one in front of it.
#[derive(Drop)]
struct FileRows {
    rows: Vec<Row>,
    rise: bool,
}

fn good_rows(alloc: Global, bytes: &[u8], request: &Request<'_>) -> Result<FileRows, RowError>
    requires { request.now.hour < 744 }
    ensures ok { IfOk result (λ v. good_rows (wanted request.now) bytes.now ≡ Ok v.rows.items) }
    ensures within { IfOk result (λ v. AreWithin (36000 * request.now.hour)
        (36000 * request.now.hour + 36000) v.rows.items) }
    ensures few { IfOk result (λ v. length v.rows.items ≤ 400000) }
    ensures rise { IfOk result
        (λ v. v.rise ≡ true → IsNonDecreasingBy (λ r. r.at) v.rows.items) }
    ensures err { IfErr result (IsRefusal (good_rows (wanted request.now) bytes.now)) }
{
    let mut reader = ReaderBuilder::new()
        .has_headers(false)
        .flexible(true)
        .from_reader(alloc, bytes);
    let mut fields = ByteRecord::new(alloc);
    let mut rows = room_for(alloc, bytes)?;
    let mut rise = true;
    let mut last = 0;
    let mut headers = 0;
    let mut minute = None;
    for number in 1..400_003 {
        match reader.read_byte_record(&mut fields) {
            Ok(true) => {}
            Ok(false) => return Ok(FileRows { rows, rise }),
            Err(_) => return Err(RowError::Memory),
        }
        if is_header(number, &fields) {
            headers = 1;
            continue;
        }
        let row = match record_row(request, &mut minute, headers, number, &fields) {
            Ok(row) => row,
            Err(error) => return Err(error),
        };
        if rows.push(row).is_err() {
            return Err(RowError::Memory);
        }
        rise &= last <= row.at;
        last = row.at;
    }
    unreachable!()
}

// Puts the rows of an hour into row order, which they may have already.
fn order_rows(hour: Hour, rows: &mut Vec<Row>, rise: bool) -> Result<(), NoMemory>
    requires within { AreWithin (36000 * hour) (36000 * hour + 36000) rows.old.items }
    requires rise { rise ≡ true → IsNonDecreasingBy (λ r. r.at) rows.old.items }
    ensures order { OnOk result (rows.new.items ≡ in_row_order hour rows.old.items) }
    ensures rise { OnOk result (RiseIn (36000 * hour) (36000 * hour + 36000) rows.new.items) }
    ensures len { length rows.new.items ≡ length rows.old.items }
{
    if rise {
        return Ok(());
    }
    put_in_order(hour, rows)
}

// The rows of an hour in row order, without the repeats and with their count.
fn hour_rows<L>(alloc: Global, hour: Hour, read: FileRows) -> Result<HourRows<L>, NoMemory>
    requires hour { hour < 744 }
    requires within { AreWithin (36000 * hour) (36000 * hour + 36000) read.rows.items }
    requires few { length read.rows.items ≤ 400000 }
    requires rise { read.rise ≡ true → IsNonDecreasingBy (λ r. r.at) read.rows.items }
    ensures shown { IfOk result (λ h. h ≡ shown_of hour read.rows.items) }
    ensures no_repeat { IfOk result (λ h. HasNoRepeat [] h.rows) }
{
    let FileRows { mut rows, rise } = read;
    order_rows(hour, &mut rows, rise)?;
    let kept = drop_repeats(alloc, hour, &rows)?;
    let repeats = (rows.len() - kept.len()) as u32;
    Ok(HourRows::of(hour, kept, repeats))
}

/// The rows of a file that are of this signal and this hour, in row order and without repeats, or
/// the first bad record with the first test that it fails.
///
/// `hour` is one of the window's, and so at most 743. An error of the `csv` reader itself is
/// `Memory`: it refuses no record.
pub fn read_rows<L>(
    alloc: Global,
    bytes: &[u8],
    signal: &str,
    hour: Hour,
    window: &Window,
) -> Result<HourRows<L>, RowError>
    requires { hour < 744 }
    ensures ok { IfOk result (λ h. rows_of (record {
      signal = signal.now;
      hour = hour;
      window = window.now;
    }) bytes.now ≡ Ok h) }
    ensures err { IfErr result (IsRefusal (rows_of (record {
      signal = signal.now;
      hour = hour;
      window = window.now;
    }) bytes.now)) }
    ensures no_repeat { IfOk result (λ h. HasNoRepeat [] h.rows) }
{
    let request = Request {
        signal,
        hour,
        window,
    };
    let rows = good_rows(alloc, bytes, &request)?;
    Ok(hour_rows(alloc, hour, rows)?)
}
