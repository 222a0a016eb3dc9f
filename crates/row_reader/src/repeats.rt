// Rows that were logged twice.
ghost use Rattle.std.specs.Prelude.{◌≡◌, ◌+◌, ◌*◌, [], IfOk, length};
ghost use Rattle.sig_base.specs.HourRows.{RiseIn};
ghost use Rattle.row_reader.specs.Repeats.{group_of_row, without_repeats, repeats_of, HasNoRepeat, IsPartOf};
ghost use Rattle.row_reader.specs.Last.{is_row};

use crate::noted::Noted;
use event_codes::{Group, group_of};
use sig_base::{Hour, NoMemory, Row};
use std::alloc::Global;

#[tactic(auto, unfolding(crate::specs::Repeats::group_of_row))]
pub(crate) fn group_of_row(row: Row) -> Group
    ensures { result ≡ group_of_row row }
{
    group_of(row.code, row.param)
}

// Whether there is such a row, and it is this one.
pub(crate) fn is_row(row: Row, last: Option<Row>) -> bool
    ensures { result ≡ is_row row last }
{
    match last {
        Some(other) => other == row,
        None => false,
    }
}

/// The rows of an hour in row order without those that were logged twice: a row is dropped where
/// the last row of its group at its tenth that was kept before it has its code and parameter.
pub fn drop_repeats(alloc: Global, hour: Hour, rows: &[Row]) -> Result<Vec<Row>, NoMemory>
    requires { RiseIn (36000 * hour) (36000 * hour + 36000) rows.now }
    ensures kept { IfOk result (λ v. v.items ≡ without_repeats rows.now) }
    ensures rise { IfOk result (λ v. RiseIn (36000 * hour) (36000 * hour + 36000) v.items) }
    ensures part { IfOk result (λ v. IsPartOf v.items rows.now) }
    ensures no_repeat { IfOk result (λ v. HasNoRepeat [] v.items) }
    ensures count { IfOk result (λ v. length v.items + repeats_of rows.now ≡ length rows.now) }
{
    let mut noted = Noted::none(alloc);
    let mut kept = Vec::with_capacity(alloc, rows.len())?;
    for row in rows {
        let repeats = noted.note_new(&kept, *row)?;
        if repeats {
            continue;
        }
        kept.push(*row)?;
    }
    Ok(kept)
}
