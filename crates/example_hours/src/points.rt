// What is kept at the points of a window of two hours.
ghost use Rattle.std.specs.Prelude.{◌≡◌, ◌<◌, ◌+◌, length, option_copied, IfOk, IfSome, OnOk};
ghost use Rattle.sig_base.specs.HourRows.{AreRowsOf};
ghost use Rattle.hour_store.specs.Store.{rows_at};
ghost use Rattle.signal_log.specs.Log.{HasHistory, log_of};
ghost use Rattle.hour_work.specs.Points.{IsCarryAt, IsFutureAt};
ghost use Rattle.example_hours.specs.Window.{IsWindowOfTwo};

use crate::given::Mark;
use hour_store::HourStore;
use hour_work::{Carry, ForwardError, Future, backward, forward};
use ring_config::Config;
use sig_base::{Hour, NoMemory, Reads, Row};
use std::alloc::Global;

/// The rows of an hour of the store.
pub fn opened<'a>(
    store: &'a HourStore<Mark>,
    hour: Hour,
    reads: &mut Reads<Mark>,
) -> Option<&'a [Row]>
    requires { hour < length store.now.hours }
    ensures rows { option_copied result ≡ rows_at store.now hour }
    ensures of_hour { IfSome result (λ r. AreRowsOf hour r.now) }
{
    store.open_hour(hour, reads)
}

/// What is kept at the point after an hour.
pub fn carried(
    alloc: Global,
    config: &Config,
    store: &HourStore<Mark>,
    hour: Hour,
    before: &Carry,
    reads: &mut Reads<Mark>,
) -> Result<Carry, ForwardError>
    requires within { hour < length store.now.hours }
    requires before { IsCarryAt config.now store.now hour before.now }
    ensures { IfOk result (IsCarryAt config.now store.now (hour + 1)) }
{
    let rows = opened(store, hour, reads);
    forward(alloc, config, hour, before, rows, store.blanked())
}

/// Goes over the second hour to the window's end: some history agrees with the log.
pub fn reaches_end(
    alloc: Global,
    config: &Config,
    store: &HourStore<Mark>,
    middle: &Carry,
    reads: &mut Reads<Mark>,
) -> Result<(), ForwardError>
    requires window { IsWindowOfTwo config.now store.now }
    requires middle { IsCarryAt config.now store.now 1 middle.now }
    ensures { OnOk result (HasHistory (log_of config.now.specs store.now)) }
{
    let _end = carried(alloc, config, store, 1, middle, reads)?;
    Ok(())
}

/// What is kept going back at the window's end.
pub fn future_at_end(
    alloc: Global,
    config: &Config,
    store: &HourStore<Mark>,
) -> Result<Future, NoMemory>
    requires { IsWindowOfTwo config.now store.now }
    ensures { IfOk result (IsFutureAt config.now store.now 2) }
{
    Future::end(alloc, config)
}

/// What is kept going back at the point between the two hours.
pub fn future_between(
    alloc: Global,
    config: &Config,
    store: &HourStore<Mark>,
    reads: &mut Reads<Mark>,
) -> Result<Future, NoMemory>
    requires { IsWindowOfTwo config.now store.now }
    ensures { IfOk result (IsFutureAt config.now store.now 1) }
{
    let end = future_at_end(alloc, config, store)?;
    let rows = opened(store, 1, reads);
    backward(alloc, config, 1, &end, rows, store.blanked())
}
