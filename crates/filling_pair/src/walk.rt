// Known rows of a channel, with fills between them.
ghost use Rattle.std.specs.Prelude.{◌≡◌, [], ◌∷◌};
ghost use Rattle.filling_pair.specs.Strands.{row_of, rows_of};
ghost use Rattle.filling_pair.specs.Walking.{Carries, IsFit, Passes, before, is_own, own_rows, since, track_of};

use crate::step::{Follower, Stand, letter_on, move_on};
use crate::strands::Fill;
use sig_base::Row;
use span_set::SpanSet;

/// Where a walk has come: its state, unless an event was illegal, and the fills that are left.
#[derive(Clone, Copy)]
pub(crate) struct Cursor<'a> {
    pub(crate) here: Option<Stand>,
    pub(crate) fills: &'a [Fill],
}

fn row_of(fill: Fill) -> Row
    ensures { result ≡ row_of fill }
{
    Row {
        at: fill.at,
        code: fill.code,
        param: fill.param,
    }
}

// The state after the row, where there is one before it.
fn moved(follower: &Follower, here: Option<Stand>, row: Row) -> Option<Stand>
    requires { IsFit follower.now here }
    ensures fits { IsFit follower.now result }
    ensures moved { Carries follower.now (row ∷ []) here result }
{
    match here {
        Some(here) => move_on(follower, here, row),
        None => None,
    }
}

/// Goes over the first fills, as far as they are before the tenth.
pub(crate) fn pass_fills<'a>(follower: &Follower, cursor: &Cursor<'a>, until: u32) -> Cursor<'a>
    requires { IsFit follower.now cursor.now.here }
    ensures fits { IsFit follower.now result.here }
    ensures rest { result.fills.now ≡ since until cursor.now.fills.now }
    ensures walked { Carries follower.now (rows_of (before until cursor.now.fills.now))
        cursor.now.here result.here }
{
    let fills = cursor.fills;
    let mut here = cursor.here;
    for (i, fill) in fills.iter().enumerate() {
        if until <= fill.at {
            return Cursor {
                here,
                fills: &fills[i..],
            };
        }
        here = moved(follower, here, row_of(*fill));
    }
    Cursor {
        here,
        fills: &fills[fills.len()..],
    }
}

// Goes over the fills before the row, and then over the row.
fn pass_row<'a>(follower: &Follower, cursor: &Cursor<'a>, row: Row) -> Cursor<'a>
    requires { IsFit follower.now cursor.now.here }
    ensures fits { IsFit follower.now result.here }
    ensures passed { Passes follower.now (row ∷ []) cursor.now result }
{
    let at_row = pass_fills(follower, cursor, row.at);
    Cursor {
        here: moved(follower, at_row.here, row),
        fills: at_row.fills,
    }
}

// Whether the row is of the channel, at a tenth that isn't blanked.
fn is_own(follower: &Follower, row: Row, blanked: &SpanSet) -> bool
    ensures { result ≡ is_own (track_of follower.now) blanked.now row }
{
    letter_on(follower.channel, row.code, row.param).is_some()
        && !blanked.contains(i64::from(row.at))
}

// Goes over the row, where it is of the channel and its tenth isn't blanked.
fn pass_own<'a>(follower: &Follower, cursor: &Cursor<'a>, row: Row, blanked: &SpanSet) -> Cursor<'a>
    requires { IsFit follower.now cursor.now.here }
    ensures fits { IsFit follower.now result.here }
    ensures passed { Passes follower.now (own_rows follower.now blanked.now (row ∷ []))
        cursor.now result }
{
    if is_own(follower, row, blanked) {
        return pass_row(follower, cursor, row);
    }
    *cursor
}

/// Goes over these rows of an hour that is held.
pub(crate) fn pass_rows<'a>(
    follower: &Follower,
    cursor: &Cursor<'a>,
    rows: &[Row],
    blanked: &SpanSet,
) -> Cursor<'a>
    requires { IsFit follower.now cursor.now.here }
    ensures fits { IsFit follower.now result.here }
    ensures passed { Passes follower.now (own_rows follower.now blanked.now rows.now)
        cursor.now result }
{
    let mut at = *cursor;
    for row in rows {
        at = pass_own(follower, &at, *row, blanked);
    }
    at
}
