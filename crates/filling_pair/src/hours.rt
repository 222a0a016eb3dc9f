// A channel's walk over the whole window, hour by hour.
ghost use Rattle.std.specs.Prelude.{◌≡◌, ◌↔◌, ◌+◌, ◌/◌, ◌<◌, ◌≤◌, ◌^◌, IsTrue, Some, length};
ghost use Rattle.channel_tables.specs.Any.{any_rules};
ghost use Rattle.hour_store.specs.Store.{IsStore};
ghost use Rattle.filling_pair.specs.Kept.{IsPlaceOf, IsPlaced};
ghost use Rattle.signal_log.specs.Rows.{hour_rows};
ghost use Rattle.sig_base.specs.Reads.{Grow};
ghost use Rattle.filling_pair.specs.Walking.{IsFit, IsFollowed, IsNoted, LeadsOn, Passes, count_to, rows_between, rows_in};

use crate::step::{Follower, Stand};
use crate::strands::Strand;
use crate::walk::{Cursor, pass_fills, pass_rows};
use board::count_before;
use hour_store::HourStore;
use rule_audit::{AuditLine, Place};
use sig_base::{Hour, Reads, Row};

/// The rows of an hour, which is opened; none where it isn't held.
#[tactic(auto, using(crate::proofs::Growing::grow_raised_to))]
pub(crate) fn rows_of_hour<'a, L>(
    store: &'a HourStore<L>,
    hour: Hour,
    reads: &mut Reads<L>,
) -> &'a [Row]
    requires { hour < length store.now.hours }
    ensures rows { result.now ≡ hour_rows store.now hour }
    ensures grow { Grow reads.old reads.new }
{
    store.open_hour(hour, reads).unwrap_or(&[])
}

// Goes over the rows of an hour, which is opened.
fn pass_hour<'a, L>(
    follower: &Follower,
    cursor: &Cursor<'a>,
    store: &HourStore<L>,
    hour: Hour,
    reads: &mut Reads<L>,
) -> Cursor<'a>
    requires fits { IsFit follower.now cursor.now.here }
    requires hour { hour < length store.now.hours }
    ensures fits { IsFit follower.now result.here }
    ensures passed { Passes follower.now (rows_in follower.now store.now hour) cursor.now result }
    ensures grow { Grow reads.old reads.new }
{
    let rows = rows_of_hour(store, hour, reads);
    pass_rows(follower, cursor, rows, store.blanked())
}

/// Goes over the rows of the hours from one up to but without another, which are opened.
#[tactic(auto, using(crate::proofs::Growing::grow_on, crate::proofs::Growing::grow_same))]
pub(crate) fn pass_hours<'a, L>(
    follower: &Follower,
    cursor: &Cursor<'a>,
    store: &HourStore<L>,
    from: Hour,
    to: Hour,
    reads: &mut Reads<L>,
) -> Cursor<'a>
    requires fits { IsFit follower.now cursor.now.here }
    requires order { from ≤ to }
    requires hours { to ≤ length store.now.hours }
    ensures fits { IsFit follower.now result.here }
    ensures passed { Passes follower.now (rows_between follower.now store.now from to)
        cursor.now result }
    ensures grow { Grow reads.old reads.new }
{
    let mut at = *cursor;
    for hour in from..to {
        at = pass_hour(follower, &at, store, hour, reads);
    }
    at
}

// How many of the hour's rows are before the place.
#[tactic(auto, using(board::proofs::Adding::count_le))]
fn count_to(rows: &[Row], at: u32, place: Place) -> usize
    requires place { IsPlaceOf rows.now at place }
    requires soon { at + 1 < 2 ^ 32 }
    ensures count { result ≡ count_to rows.now at place }
    ensures within { result ≤ length rows.now }
{
    match place {
        Place::BeforeRow(row) => row as usize,
        Place::EndOfTenth => count_before(rows, at + 1),
    }
}

// Where a walk has come, and its state at a place on the way.
#[derive(Clone, Copy)]
struct Noted<'a> {
    there: Option<Stand>,
    cursor: Cursor<'a>,
}

// Goes over the rows of the line's hour, and notes the state at its place.
#[tactic(auto, using(crate::proofs::Growing::grow_on, crate::proofs::Growing::grow_same))]
fn pass_place<'a, L>(
    follower: &Follower,
    cursor: &Cursor<'a>,
    store: &HourStore<L>,
    line: &AuditLine,
    reads: &mut Reads<L>,
) -> Noted<'a>
    requires fits { IsFit follower.now cursor.now.here }
    requires line { IsPlaced store.now line.now }
    ensures fits { IsFit follower.now result.cursor.here }
    ensures there_fits { IsFit follower.now result.there }
    ensures there { IsNoted follower.now store.now line.now cursor.now result.there }
    ensures passed { Passes follower.now (rows_in follower.now store.now (line.now.at / 36000))
        cursor.now result.cursor }
    ensures grow { Grow reads.old reads.new }
{
    let blanked = store.blanked();
    let rows = rows_of_hour(store, line.at / 36_000, reads);
    let (first, later) = rows.split_at(count_to(rows, line.at, line.place));
    let before = pass_rows(follower, cursor, first, blanked);
    let place = pass_fills(follower, &before, line.at);
    Noted {
        there: place.here,
        cursor: pass_rows(follower, &before, later, blanked),
    }
}

/// The state of a strand at the place of a line, and whether no event of the window is illegal.
#[derive(Clone, Copy)]
pub(crate) struct Followed {
    pub(crate) there: Option<Stand>,
    pub(crate) is_legal: bool,
}

// The start of a strand.
fn start_of<'a>(strand: &'a Strand) -> Cursor<'a>
    ensures here { result.here
        ≡ Some (record { colour = strand.now.colour; entry = strand.now.entry }) }
    ensures fills { result.fills.now ≡ strand.now.fills }
{
    Cursor {
        here: Some(Stand {
            colour: strand.colour,
            entry: strand.entry,
        }),
        fills: strand.fills.list(),
    }
}

/// Follows a strand over the whole window. Each hour is opened.
#[tactic(auto, using(crate::proofs::Growing::grow_on, crate::proofs::Growing::grow_same))]
pub(crate) fn follow<L>(
    follower: &Follower,
    store: &HourStore<L>,
    line: &AuditLine,
    strand: &Strand,
    reads: &mut Reads<L>,
) -> Followed
    requires colour { strand.now.colour < (any_rules follower.now.machine).colours }
    requires line { IsPlaced store.now line.now }
    ensures store { IsStore store.now }
    ensures fits { IsFit follower.now result.there }
    ensures there { IsFollowed follower.now store.now line.now strand.now result.there }
    ensures legal { IsTrue result.is_legal ↔ LeadsOn follower.now store.now strand.now }
    ensures grow { Grow reads.old reads.new }
{
    let hours = store.hours();
    let hour = line.at / 36_000;
    let start = start_of(strand);
    let before = pass_hours(follower, &start, store, 0, hour, reads);
    let noted = pass_place(follower, &before, store, line, reads);
    let after = pass_hours(follower, &noted.cursor, store, hour + 1, hours, reads);
    let end = pass_fills(follower, &after, 36_000 * hours);
    Followed {
        there: noted.there,
        is_legal: end.here.is_some(),
    }
}
