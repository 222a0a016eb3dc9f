// Reads the bytes of a packed hour.
ghost use Rattle.std.specs.Prelude.{◌≡◌, ◌+◌, ◌*◌, ◌<◌, ◌≤◌, ◌⊎◌, true, [], List, IfOk, IfErr, IsErrAnd, MatchResult};
ghost use Rattle.sig_base.specs.declared.values.Row.{Row as Row_type};
ghost use Rattle.hour_pack.specs.declared.pack_error.PackError.{PackError as PackError_type};
ghost use Rattle.hour_pack.specs.Faults.{HasCause};
ghost use Rattle.row_reader.specs.Signal.{is_signal};
ghost use Rattle.hour_pack.specs.Grammar.{ArePackable, packed};
ghost use Rattle.hour_pack.specs.Reading.{Gives, GivesInMemory, count_at, hour_rows, reading, rows_at};

use crate::PackError;
use crate::head::after_head;
use crate::row::{row_at, with_row};
use row_reader::KeptRows;
use sig_base::{Hour, HourRows, Row, Window};
use std::alloc::Global;

#[tactic(auto, unfolding(crate::specs::Reading::count_at))]
fn count_at(bytes: &[u8]) -> Result<(u32, &[u8]), PackError>
    ensures value { Gives (λ x. (x.0, x.1.now)) result (count_at bytes.now) }
    ensures few { IfOk result (λ x. x.0 ≤ 400000) }
{
    if bytes.len() < 4 {
        return Err(PackError::Short);
    }
    let (front, rest) = bytes.split_at(4);
    let count = u32::from_be_bytes([front[0], front[1], front[2], front[3]]);
    if count > 400_000 {
        return Err(PackError::TooManyRows);
    }
    Ok((count, rest))
}

// So many rows, and the bytes behind them. A row takes three bytes or more, so room is made for no
// more rows than there can be.
fn rows_at(
    alloc: Global,
    hour: Hour,
    count: u32,
    bytes: &[u8],
) -> Result<(Vec<Row>, &[u8]), PackError>
    requires hour { hour < 744 }
    requires few { count ≤ 400000 }
    ensures { GivesInMemory (λ x. (x.0.items, x.1.now)) result
        (rows_at count (36000 * hour + 36000) (36000 * hour) [] bytes.now) }
{
    let room = bytes.len().min(3 * count as usize) / 3;
    let mut kept = KeptRows::with_room(alloc, room)?;
    let mut last = 36_000 * hour;
    let mut rest = bytes;
    for _ in 0..count {
        let (row, after) = row_at(hour, last, kept.len() as u32 + 1, rest)?;
        kept = with_row(kept, row)?;
        last = row.at;
        rest = after;
    }
    Ok((kept.into_rows(), rest))
}

#[tactic(auto, unfolding(crate::specs::Reading::hour_rows))]
fn hour_rows(alloc: Global, hour: Hour, bytes: &[u8]) -> Result<Vec<Row>, PackError>
    requires { hour < 744 }
    ensures { GivesInMemory (λ rows. rows.items) result (hour_rows hour bytes.now) }
{
    let (count, rest) = count_at(bytes)?;
    let (rows, rest) = rows_at(alloc, hour, count, rest)?;
    if rest.is_empty() {
        Ok(rows)
    } else {
        Err(PackError::Extra)
    }
}

#[tactic(auto, unfolding(crate::specs::Reading::reading))]
fn rows_of(
    alloc: Global,
    bytes: &[u8],
    signal: &str,
    hour: Hour,
    window: &Window,
) -> Result<Vec<Row>, PackError>
    requires signal { is_signal signal.now ≡ true }
    requires hour { hour < 744 }
    requires in_window { hour < window.now.hours }
    ensures { GivesInMemory (λ rows. rows.items) result
        (reading signal.now window.now hour bytes.now) }
{
    let body = after_head(bytes, signal, hour, window)?;
    hour_rows(alloc, hour, body)
}

/// The rows of this signal and this hour of the window that the bytes of a packed hour spell, none
/// of them dropped as a repeat; else the first fault from the front.
///
/// The signal has 1 to 32 bytes from 0x21 to 0x7E without comma and double quote.
pub fn unpack<L>(
    alloc: Global,
    bytes: &[u8],
    signal: &str,
    hour: Hour,
    window: &Window,
) -> Result<HourRows<L>, PackError>
    requires signal { is_signal signal.now ≡ true }
    requires hour { hour < window.now.hours }
    // What is read is spelled so, each byte of it, and could have been packed.
    ensures ok { IfOk result (λ h. (h ≡ record { hour = hour; rows = h.rows; repeats = 0 })
        × ArePackable hour h.rows × (bytes.now ≡ packed signal.now window.now hour h.rows)) }
    // What is spelled so is read, unless memory runs out.
    ensures only { (rows : List Row_type) → ArePackable hour rows
        → bytes.now ≡ packed signal.now window.now hour rows
        → MatchResult result (λ h. h.rows ≡ rows) (λ e. e ≡ PackError.Memory) }
    // An error has its cause in the bytes, or memory ran out.
    ensures err { IfErr result
        (λ e. (e ≡ PackError.Memory) ⊎ HasCause signal.now window.now hour bytes.now e) }
    // Where a cause is in the bytes, its error comes, unless memory runs out.
    ensures refused { (e : PackError_type) → HasCause signal.now window.now hour bytes.now e
        → IsErrAnd result (λ f. (f ≡ PackError.Memory) ⊎ (f ≡ e)) }
    // It is the first fault that is met from the front.
    ensures found { GivesInMemory (λ h. h.rows) result
        (reading signal.now window.now hour bytes.now) }
{
    // A window has at most 744 hours.
    let hours = window.hours();
    prove!(hour < hours);
    let rows = rows_of(alloc, bytes, signal, hour, window)?;
    Ok(HourRows::of(hour, rows, 0))
}
