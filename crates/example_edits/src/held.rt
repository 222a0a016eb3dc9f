ghost use Rattle.std.specs.Prelude.{◌≡◌, ◌/◌, ◌<◌, IsTrue, length, option_copied};
ghost use Rattle.hour_store.specs.Store.{is_known};
ghost use Rattle.signal_log.specs.Points.{rows_or_none};
ghost use Rattle.signal_log.specs.Rows.{hour_rows};
ghost use Rattle.filling_pair.specs.Kept.{IsLineOf, IsPlaceOf};

use hour_store::HourStore;
use rule_audit::{AuditLine, Place, Rule};
use sig_base::{Hour, HourRows, Reads, Row};
use span_set::SpanSet;
use std::alloc::Global;
use std::test::Fail;

/// The mark of the rows of these tests.
#[derive(Drop)]
pub struct Mark;

const GREEN: Row = Row {
    at: 1000,
    code: 1,
    param: 2,
};

const YELLOW: Row = Row {
    at: 1200,
    code: 8,
    param: 2,
};

/// Green of phase 2 from 1000 to 1200.
pub fn green(alloc: Global) -> Result<HourRows<Mark>, Fail> {
    let rows = HourRows::new(0, vec![in alloc; GREEN, YELLOW]?, 0).ok_or("rows")?;
    Ok(rows)
}

/// The same, where the tenths from 1050 up to 1070 are blanked.
pub fn store_with_a_hole(alloc: Global) -> Result<HourStore<Mark>, Fail> {
    let mut store = HourStore::new(alloc, 2)?;
    let rows = green(alloc)?;
    if rows.hour() >= store.hours() {
        return Err(Fail::from("hour"));
    }
    let _before = store.put(rows);
    let mut blanked = SpanSet::new(alloc);
    blanked.add(1050, 1070)?;
    let _none = store.set_blanks(blanked);
    Ok(store)
}

fn held_rows<'a>(rows: Option<&'a [Row]>) -> &'a [Row]
    ensures { result.now ≡ rows_or_none (option_copied rows.entry) }
{
    match rows {
        Some(rows) => rows,
        None => &[],
    }
}

/// The rows of an hour, none where it isn't held.
pub fn rows_of_hour<'a>(
    store: &'a HourStore<Mark>,
    hour: Hour,
    reads: &mut Reads<Mark>,
) -> &'a [Row]
    requires { hour < length store.now.hours }
    ensures { result.now ≡ hour_rows store.now hour }
{
    held_rows(store.open_hour(hour, reads))
}

/// Whether the tenth is known.
pub fn is_known(store: &HourStore<Mark>, at: u32) -> bool
    requires { at / 36000 < length store.now.hours }
    ensures { result ≡ is_known store.now at }
{
    store.is_held(at / 36_000) && !store.blanked().contains(i64::from(at))
}

fn is_place(rows: &[Row], at: u32, place: Place) -> bool
    ensures { IsTrue result → IsPlaceOf rows.now at place }
{
    match place {
        Place::BeforeRow(row) => (row as usize) < rows.len() && rows[row as usize].at == at,
        Place::EndOfTenth => true,
    }
}

/// Whether the line is of one of the rules, at a place of a known tenth.
pub fn is_line(
    rules: &[Rule],
    store: &HourStore<Mark>,
    line: &AuditLine,
    reads: &mut Reads<Mark>,
) -> bool
    ensures { IsTrue result → IsLineOf store.now rules.now line.now }
{
    if line.rule < 1 || line.rule as usize > rules.len() {
        return false;
    }
    if 36_000 * store.hours() <= line.at {
        return false;
    }
    if !is_known(store, line.at) {
        return false;
    }
    let rows = rows_of_hour(store, line.at / 36_000, reads);
    is_place(rows, line.at, line.place)
}
