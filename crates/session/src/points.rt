// The diagrams of a phase.
ghost use Rattle.std.specs.Prelude.{◌≡◌, ◌+◌, ◌++◌, ◌<◌, length, IfOk, OnOk};
ghost use Rattle.hour_sweep.specs.Sums.{own};
ghost use Rattle.hour_store.specs.Store.{is_known, known_rows};
ghost use Rattle.signal_log.specs.Log.{HasHistory, log_of};
ghost use Rattle.arrival_measures.specs.Points.{diagrams_of, points_from};
ghost use Rattle.hour_work.specs.Rows.{earlier_rows, own_rows};
ghost use Rattle.hour_work.specs.Measures.{cycles_in};
ghost use Rattle.hour_work.specs.Points.{IsCarryAt, IsFutureAt};
ghost use Rattle.session.specs.Links.{AreKept};
ghost use Rattle.sig_base.specs.Reads.{Grow};

use crate::renew::Worked;
use arrival_measures::{Diagram, Point, Points, diagrams};
use hour_store::HourStore;
use hour_work::{Between, cycles_over, hours_make_up_the_log, points_over};
use ring_config::Config;
use service_cut::Cycle;
use sig_base::{Hour, NoMemory, Reads};
use signal_log::Place;
use std::alloc::Global;

// The whole cycles of a phase that end in the hours so far, and its arrivals in them.
#[derive(Drop)]
struct Found {
    phase: u8,
    cycles: Vec<Cycle>,
    points: Points,
}

// Adds these points at the end.
fn add_points(points: &mut Points, more: &[Point]) -> Result<(), NoMemory>
    ensures { OnOk result (points.new ≡ points.old ++ more.now) }
{
    for point in more {
        points.push(*point)?;
    }
    Ok(())
}

// Adds what is found in an hour, which is opened, between what is kept at the points about it.
fn add_hour<L>(
    alloc: Global,
    config: &Config,
    store: &HourStore<L>,
    hour: Hour,
    between: &Between<'_>,
    found: &mut Found,
    reads: &mut Reads<L>,
) -> Result<(), NoMemory>
    requires in_store { hour < length store.now.hours }
    requires before { IsCarryAt config.now store.now hour between.now.before.now }
    requires after { IsFutureAt config.now store.now (hour + 1) between.now.after.now }
    requires history { HasHistory (log_of config.now.specs store.now) }
    ensures phase { found.new.phase ≡ found.old.phase }
    ensures cycles { OnOk result (found.new.cycles.items
        ≡ found.old.cycles.items ++ own (λ x. x.phase) found.old.phase
        (cycles_in config.now store.now hour)) }
    ensures points { OnOk result (found.new.points ≡ found.old.points
        ++ points_from (is_known store.now) config.now found.old.phase
        (earlier_rows store.now hour) (own_rows store.now hour)) }
    ensures grow { Grow reads.old reads.new }
{
    let rows = store.open_hour(hour, reads);
    let place = Place::new(alloc, hour, rows, store.blanked())?;
    let phase = found.phase;
    let mut cycles = cycles_over(alloc, config, phase, &place, between.before)?;
    let points = points_over(alloc, config, phase, &place, between)?;
    found.cycles.append(&mut cycles)?;
    add_points(&mut found.points, points.list())?;
    Ok(())
}

/// The diagrams of a phase in the whole window. Each hour is opened once.
pub fn phase_diagrams<L>(
    alloc: Global,
    config: &Config,
    store: &HourStore<L>,
    worked: &Worked,
    phase: u8,
    reads: &mut Reads<L>,
) -> Result<Vec<Diagram>, NoMemory>
    requires kept { AreKept config.now store.now worked.now.waiting.items worked.now.carries.items
        worked.now.futures.items worked.now.report }
    requires history { HasHistory (log_of config.now.specs store.now) }
    ensures points { IfOk result (λ v. v.items ≡ diagrams_of (is_known store.now) config.now phase
        (known_rows store.now)) }
    ensures grow { Grow reads.old reads.new }
{
    let mut found = Found {
        phase,
        cycles: Vec::new(alloc),
        points: Points::new(alloc),
    };
    for hour in 0..store.hours() {
        let before = &worked.carries[hour as usize];
        let after = &worked.futures[hour as usize + 1];
        let between = Between { before, after };
        add_hour(alloc, config, store, hour, &between, &mut found, reads)?;
    }
    hours_make_up_the_log();
    diagrams(alloc, &found.cycles, &found.points)
}
