// The configuration, and the logs as stores.
ghost use Rattle.std.specs.Prelude.{IsTrue};
ghost use Rattle.example_hours.specs.Window.{IsWindowOfTwo};

use hour_store::HourStore;
use ring_config::Config;
use sig_base::{Hour, HourRows, Row};
use span_set::SpanSet;
use std::alloc::Global;
use std::test::Fail;

/// Two hours of phase 2, whose yellow is to last 3 to 6 seconds, with an approach whose vehicles
/// come to the stop bar 2 seconds after detector 5.
pub const CONFIG: &str = r#"signal = "7"
start = "2024-03-04T06"
hours = 2
[[phase]]
number = 2
ring = 1
side = 1
[[interval]]
channel = "phase 2"
colour = "Yellow"
at_least = 30
[[interval]]
channel = "phase 2"
colour = "Yellow"
at_most = 60
[[approach]]
name = "NB"
phase = 2
advance = 5
travel = 20
"#;

/// The rows of the two hours: tenth, code and parameter. An hour without rows isn't held. The tenths
/// from 10 up to 20 are blanked.
#[derive(Clone, Copy)]
pub struct Log {
    pub first: &'static [(u32, u8, u16)],
    pub second: &'static [(u32, u8, u16)],
}

/// Three services of phase 2 in the first hour and one in the second. The first vehicle is over the
/// detector in the blanked tenths, the last one so late that it comes to the stop bar in the second
/// hour.
pub const SERVICES: Log = Log {
    first: &[
        (15, 82, 5),
        (100, 1, 2),
        (300, 8, 2),
        (335, 9, 2),
        (480, 1, 2),
        (560, 82, 5),
        (695, 4, 2),
        (700, 8, 2),
        (735, 9, 2),
        (800, 82, 5),
        (905, 1, 2),
        (1100, 8, 2),
        (1129, 9, 2),
        (35_990, 82, 5),
    ],
    second: &[(36_100, 1, 2), (36_300, 8, 2), (36_335, 9, 2)],
};

/// A row 9 ends a yellow, or comes again in a red clearance. Only the green of the second hour, which
/// may not follow a red clearance that isn't over, tells that it ended a yellow.
pub const LATE_NEWS: Log = Log {
    first: &[(100, 9, 2)],
    second: &[(36_010, 1, 2)],
};

/// The same without the second hour.
pub const NO_NEWS: Log = Log {
    first: &[(100, 9, 2)],
    second: &[],
};

/// Phase 2 becomes inactive in the first hour, and may then not show yellow in the second.
pub const AGAINST: Log = Log {
    first: &[(100, 12, 2)],
    second: &[(36_200, 8, 2)],
};

/// The mark of the rows of these tests.
#[derive(Drop)]
pub struct Mark;

fn rows_of(alloc: Global, told: &[(u32, u8, u16)]) -> Result<Vec<Row>, Fail> {
    let mut rows = Vec::new(alloc);
    for (at, code, param) in told {
        rows.push(Row {
            at: *at,
            code: *code,
            param: *param,
        })?;
    }
    Ok(rows)
}

// Holds these rows of an hour, if there are any.
fn hold(
    alloc: Global,
    store: &mut HourStore<Mark>,
    hour: Hour,
    told: &[(u32, u8, u16)],
) -> Result<(), Fail> {
    if told.is_empty() {
        return Ok(());
    }
    let rows = HourRows::new(hour, rows_of(alloc, told)?, 0).ok_or("rows")?;
    if rows.hour() >= store.hours() {
        return Err(Fail::from("hour"));
    }
    let _before = store.put(rows);
    Ok(())
}

// Blanks the tenths from 10 up to 20.
fn blank(alloc: Global, store: &mut HourStore<Mark>) -> Result<(), Fail> {
    let mut blanked = SpanSet::new(alloc);
    blanked.add(10, 20)?;
    if store.hours() == 0 {
        return Err(Fail::from("hours"));
    }
    let _before = store.set_blanks(blanked);
    Ok(())
}

/// The log as a store.
pub fn store_of(alloc: Global, log: Log) -> Result<HourStore<Mark>, Fail> {
    let mut store = HourStore::new(alloc, 2)?;
    hold(alloc, &mut store, 0, log.first)?;
    hold(alloc, &mut store, 1, log.second)?;
    blank(alloc, &mut store)?;
    Ok(store)
}

/// Whether the window of both has two hours.
pub fn is_window_of_two(config: &Config, store: &HourStore<Mark>) -> bool
    ensures { IsTrue result → IsWindowOfTwo config.now store.now }
{
    let configured = config.hours();
    let stored = store.hours();
    configured == 2 && stored == 2
}
