// Whether the calls say of an hour what is wanted.
ghost use Rattle.std.specs.Prelude.{◌<◌, length};
ghost use Rattle.hour_store.specs.Store.{rows_at};
ghost use Rattle.ring_config.specs.Sound.{IsSound};
ghost use Rattle.hour_work.specs.Reports.{IsHourBetween};

use crate::audit::is_audit;
use crate::given::Mark;
use crate::points::opened;
use arrival_measures::{ArrivalSum, Point};
use hour_store::HourStore;
use hour_work::{Between, Carry, Partial, RuleCount, partial, phase_cycles, phase_points};
use ring_config::Config;
use rule_audit::{AuditLine, rules_of};
use service_cut::Cycle;
use sig_base::{Hour, NoMemory, Reads};
use split_measures::PhaseSum;
use std::alloc::Global;
use std::test::Fail;

/// What is to be said of an hour.
#[derive(Clone, Copy)]
pub struct Wanted<'a> {
    /// The held hours, the held rows and the known tenths.
    pub held: [u64; 3],
    pub rules: &'a [RuleCount],
    pub phases: &'a [PhaseSum],
    pub approaches: &'a [ArrivalSum],
    pub lines: &'a [AuditLine],
    /// The decisive window of the first broken line.
    pub window: Option<(u32, u32)>,
    /// The whole cycles of phase 2 that end in the hour.
    pub cycles: &'a [Cycle],
    /// The arrivals of its rows at the advance detector of phase 2's approach.
    pub points: &'a [Point],
}

fn are_numbers(part: &Partial, wanted: &Wanted<'_>) -> bool {
    let held = [part.held_hours(), part.held_rows(), part.known_tenths()];
    held == wanted.held
        && part.rules() == wanted.rules
        && part.splits().phases() == wanted.phases
        && part.arrivals().approaches() == wanted.approaches
}

fn has_numbers(
    alloc: Global,
    config: &Config,
    store: &HourStore<Mark>,
    hour: Hour,
    between: &Between<'_>,
    wanted: &Wanted<'_>,
    reads: &mut Reads<Mark>,
) -> Result<bool, NoMemory>
    requires { IsHourBetween config.now store.now hour between.now.before.now
        (rows_at store.now hour) store.now.blanks between.now.after.now }
{
    let (before, after) = (between.before, between.after);
    let rules = rules_of(alloc, config)?;
    let rows = opened(store, hour, reads);
    let blanked = store.blanked();
    let part = partial(alloc, config, &rules, hour, before, rows, blanked, after)?;
    Ok(are_numbers(&part, wanted))
}

fn has_cycles(
    alloc: Global,
    config: &Config,
    store: &HourStore<Mark>,
    hour: Hour,
    before: &Carry,
    wanted: &Wanted<'_>,
    reads: &mut Reads<Mark>,
) -> Result<bool, NoMemory>
    requires { hour < length store.now.hours }
{
    let rows = opened(store, hour, reads);
    let cycles = phase_cycles(alloc, config, 2, hour, before, rows, store.blanked())?;
    Ok(cycles.as_slice() == wanted.cycles)
}

fn has_points(
    alloc: Global,
    config: &Config,
    store: &HourStore<Mark>,
    hour: Hour,
    between: &Between<'_>,
    wanted: &Wanted<'_>,
    reads: &mut Reads<Mark>,
) -> Result<bool, NoMemory>
    requires { IsHourBetween config.now store.now hour between.now.before.now
        (rows_at store.now hour) store.now.blanks between.now.after.now }
{
    let (before, after) = (between.before, between.after);
    let rows = opened(store, hour, reads);
    let blanked = store.blanked();
    let points = phase_points(alloc, config, 2, hour, before, rows, blanked, after)?;
    Ok(points.list() == wanted.points)
}

/// Whether the numbers, the lines, the window, the cycles and the points of the hour are those that
/// are wanted.
pub fn are_wanted(
    alloc: Global,
    config: &Config,
    store: &HourStore<Mark>,
    hour: Hour,
    between: &Between<'_>,
    wanted: &Wanted<'_>,
) -> Result<[bool; 5], Fail>
    requires sound { IsSound config.now }
    requires agrees { IsHourBetween config.now store.now hour between.now.before.now
        (rows_at store.now hour) store.now.blanks between.now.after.now }
{
    let mut reads = Reads::new(Mark);
    let numbers = has_numbers(alloc, config, store, hour, between, wanted, &mut reads)?;
    let [lines, window] = is_audit(alloc, config, store, hour, between, wanted, &mut reads)?;
    let cycles = has_cycles(
        alloc,
        config,
        store,
        hour,
        between.before,
        wanted,
        &mut reads,
    )?;
    let points = has_points(alloc, config, store, hour, between, wanted, &mut reads)?;
    Ok([numbers, lines, window, cycles, points])
}
