// The records of the hour files.
ghost use Rattle.std.specs.Prelude.{◌≡◌, ◌*◌, ◌<◌, ◌≤◌, ◌++◌, All, codes, filter, length, OnOk};
ghost use Rattle.std.specs.List.Sorted.{IsNonDecreasingBy, IsPartitionPoint};
ghost use Rattle.demonstration.specs.Texts.{calendar, is_of_hour, record_of, record_start, records_of};

use itoa::write_digits;
use sig_base::{NoMemory, Row, Window};

// The bytes of the longest record.
const LONGEST: usize = 37;

// How the record of a row at this tenth begins.
#[tactic(auto, unfolding(crate::specs::Texts::spaced_stamp))]
fn record_start(window: &Window, at: u32) -> [u8; 27]
    requires days { window.now ≡ calendar }
    requires at { at < 36000 * 169 }
    ensures { result ≡ record_start at }
{
    let mut start = *b"9000,2024-01-01 00:00:00.0,";
    start[5..26].copy_from_slice(&window.stamp(at));
    start[15] = b' ';
    start
}

// Takes the start of a record to another tenth.
#[tactic(auto, unfolding(crate::specs::Texts::spaced_stamp))]
fn move_start(start: &mut [u8; 27], window: &Window, from: u32, to: u32)
    requires days { window.now ≡ calendar }
    requires at { to < 36000 * 169 }
    requires start { start.old ≡ record_start from }
    ensures { start.new ≡ record_start to }
{
    if from / 600 == to / 600 {
        start[22] = b'0' + (to / 100 % 6) as u8;
        start[23] = b'0' + (to / 10 % 10) as u8;
        start[25] = b'0' + (to % 10) as u8;
    } else {
        *start = record_start(window, to);
    }
}

// Writes a record, which is put together from its end on.
#[tactic(auto, unfolding(crate::specs::Texts::record_of))]
fn put_record(out: &mut Vec<u8>, start: &[u8; 27], row: Row) -> Result<(), NoMemory>
    requires { start.now ≡ record_start row.at }
    ensures { OnOk result (out.new.items ≡ out.old.items ++ record_of row) }
{
    let mut line = [b'\n'; LONGEST];
    let comma = write_digits(row.param as u64, &mut line, LONGEST - 1) - 1;
    line[comma] = b',';
    let code = write_digits(row.code as u64, &mut line, comma);
    line[code - 27..code].copy_from_slice(start);
    out.extend_from_slice(&line[code - 27..])?;
    Ok(())
}

// The number of first rows before the tenth, of rows that rise by their tenths.
fn rows_before(rows: &[Row], tenth: u32) -> usize
    requires { IsNonDecreasingBy (λ r. r.at) rows.now }
    ensures within { result ≤ length rows.now }
    ensures point { IsPartitionPoint (λ r. r.at < tenth) (λ r. tenth ≤ r.at) rows.now result }
{
    rows.partition_point(|row| row.at < tenth)
}

/// The rows of an hour, of rows that rise by their tenths.
pub(crate) fn rows_of_hour(hour: u32, rows: &[Row]) -> &[Row]
    requires hour { hour < 168 }
    requires rise { IsNonDecreasingBy (λ r. r.at) rows.now }
    ensures { result.now ≡ filter (is_of_hour hour) rows.now }
{
    let from = 36_000 * hour;
    let (_, later) = rows.split_at(rows_before(rows, from));
    let (here, _) = later.split_at(rows_before(later, from + 36_000));
    here
}

/// Writes the records of these rows.
pub(crate) fn put_records(out: &mut Vec<u8>, window: &Window, rows: &[Row]) -> Result<(), NoMemory>
    requires days { window.now ≡ calendar }
    requires at { All (λ r. r.at < 36000 * 169) rows.now }
    ensures { OnOk result (out.new.items ≡ out.old.items ++ records_of rows.now) }
{
    out.reserve(LONGEST.saturating_mul(rows.len()))?;
    let mut at = 0;
    let mut start = record_start(window, at);
    for row in rows {
        move_start(&mut start, window, at, row.at);
        at = row.at;
        put_record(out, &start, *row)?;
    }
    Ok(())
}
