// One row of a packed hour.
ghost use Rattle.std.specs.Prelude.{◌≡◌, ◌+◌, ◌*◌, ◌^◌, ◌<◌, ◌≤◌, IfOk, length};
ghost use Rattle.sig_base.specs.HourRows.{RiseIn};
ghost use Rattle.hour_pack.specs.Reading.{Gives, GivesInMemory, any_row_at, code_at, param_at, tenth_at, with_row};

use crate::PackError;
use crate::number::number_at;
use row_reader::KeptRows;
use sig_base::{Hour, Row};

// The tenth of the row of this place, before `to`, and the bytes behind it.
#[tactic(auto, unfolding(crate::specs::Reading::tenth_at))]
fn tenth_at(row: u32, to: u32, last: u32, bytes: &[u8]) -> Result<(u32, &[u8]), PackError>
    requires { last < 2 ^ 31 }
    ensures value { Gives (λ x. (x.0, x.1.now)) result (tenth_at row to last bytes.now) }
    ensures range { IfOk result (λ x. (last ≤ x.0) × (x.0 < to)) }
{
    let (since, rest) = number_at(row, bytes)?;
    let at = last + since;
    if at < to {
        Ok((at, rest))
    } else {
        Err(PackError::Row(row))
    }
}

fn code_at(bytes: &[u8]) -> Result<(u8, &[u8]), PackError>
    ensures { Gives (λ x. (x.0, x.1.now)) result (code_at bytes.now) }
{
    match bytes {
        [] => Err(PackError::Short),
        [code, rest @ ..] => Ok((*code, rest)),
    }
}

// The parameter of the row of this place, and the bytes behind it.
#[tactic(auto, unfolding(crate::specs::Reading::param_at))]
fn param_at(row: u32, bytes: &[u8]) -> Result<(u16, &[u8]), PackError>
    ensures { Gives (λ x. (x.0, x.1.now)) result (param_at row bytes.now) }
{
    let (param, rest) = number_at(row, bytes)?;
    if param < 65_536 {
        Ok((param as u16, rest))
    } else {
        Err(PackError::Row(row))
    }
}

/// The row of this place, and the bytes behind it. `last` is the tenth of the row before it, or
/// that of the hour's start.
#[tactic(auto, unfolding(crate::specs::Reading::any_row_at))]
pub(crate) fn row_at(
    hour: Hour,
    last: u32,
    place: u32,
    bytes: &[u8],
) -> Result<(Row, &[u8]), PackError>
    requires hour { hour < 744 }
    requires last { last < 36000 * hour + 36000 }
    ensures value { Gives (λ x. (x.0, x.1.now)) result
        (any_row_at place (36000 * hour + 36000) last bytes.now) }
    ensures range { IfOk result (λ x. (last ≤ x.0.at) × (x.0.at < 36000 * hour + 36000)) }
{
    let (at, rest) = tenth_at(place, 36_000 * hour + 36_000, last, bytes)?;
    let (code, rest) = code_at(rest)?;
    let (param, rest) = param_at(place, rest)?;
    Ok((Row { at, code, param }, rest))
}

/// The rows and this one behind them, of which it is no repeat.
pub(crate) fn with_row(kept: KeptRows, row: Row) -> Result<KeptRows, PackError>
    requires rise { RiseIn 0 (row.at + 1) kept }
    requires few { length kept < 400000 }
    ensures { GivesInMemory (λ k. k) result (with_row kept row) }
{
    let place = kept.len() as u32 + 1;
    match kept.with(row)? {
        Some(kept) => Ok(kept),
        None => Err(PackError::Row(place)),
    }
}
