// What is kept of a store that holds nothing.
ghost use Rattle.std.specs.Prelude.{◌≡◌, ◌+◌, ◌≤◌, ◌<◌, ◌-◌, ℕ, length, slice_index_or, IfOk, OnOk};
ghost use Rattle.hour_store.specs.Store.{Store, nothing_held};
ghost use Rattle.ring_config.specs.Sound.{IsSound};
ghost use Rattle.rule_audit.specs.Rules.{rules_for};
ghost use Rattle.hour_work.specs.Points.{Carried, IsCarryAt, IsFutureAt};
ghost use Rattle.session.specs.Links.{Ahead, AllSettled, AreKept, AreKeptBut};

use crate::hours::Touched;
use crate::marks::none_waiting;
use crate::renew::{Worked, adopt, renew};
use hour_store::HourStore;
use hour_work::{Carry, ForwardError, Future, Partial, Report};
use ring_config::Config;
use rule_audit::Rule;
use sig_base::{NoMemory, Reads};
use std::alloc::Global;

// The mark of rows that nobody has.
#[derive(Drop)]
struct NoRows;

// What is kept at the window's start, and room for what is kept at so many points after it.
fn start_with(alloc: Global, config: &Config, points: u32) -> Result<Vec<Carry>, NoMemory>
    ensures size { IfOk result (λ v. length v.items ≡ points + 1) }
    ensures start { IfOk result (λ v. (d : Carried) (r : Store)
        → IsCarryAt config.now r 0 (slice_index_or v.items 0 d)) }
{
    let mut carries = Vec::new(alloc);
    carries.push(Carry::start(alloc, config)?)?;
    for _ in 0..points {
        carries.push(Carry::nothing(alloc, config)?)?;
    }
    Ok(carries)
}

// So many times what is kept going back at the window's end.
fn ends(alloc: Global, config: &Config, points: u32) -> Result<Vec<Future>, NoMemory>
    ensures size { IfOk result (λ v. length v.items ≡ points) }
    ensures end { IfOk result (λ v. (k : ℕ) (d : Ahead) (r : Store) → k < points
        → length r.hours ≡ config.now.window.hours → IsFutureAt config.now r (length r.hours)
        (slice_index_or v.items k d)) }
{
    let mut futures = Vec::new(alloc);
    for _ in 0..points {
        futures.push(Future::end(alloc, config)?)?;
    }
    Ok(futures)
}

// Room for the numbers of so many hours.
fn no_parts(alloc: Global, hours: u32) -> Result<Report, NoMemory>
    requires { hours ≤ 744 }
    ensures { IfOk result (λ r. length r ≡ hours) }
{
    let mut parts = Vec::new(alloc);
    for _ in 0..hours {
        parts.push(Partial::nothing(alloc))?;
    }
    Report::new(alloc, parts)
}

// What is kept of a window of so many hours before they are worked through.
fn not_begun(alloc: Global, config: &Config, hours: u32) -> Result<Worked, NoMemory>
    requires some { 1 ≤ hours }
    requires few { hours ≤ 744 }
    requires window { hours ≡ config.now.window.hours }
    ensures kept { IfOk result (λ k. AreKeptBut config.now (nothing_held hours) 0 (hours - 1)
        k.waiting.items k.carries.items k.futures.items k.report) }
    ensures settled { IfOk result (λ k. AllSettled k.waiting.items) }
{
    Ok(Worked {
        carries: start_with(alloc, config, hours)?,
        futures: ends(alloc, config, hours + 1)?,
        report: no_parts(alloc, hours)?,
        waiting: none_waiting(alloc, hours as usize)?,
    })
}

// Works through the hours of a window of which none is held.
fn work_through(
    alloc: Global,
    config: &Config,
    rules: &[Rule],
    hours: u32,
    worked: &mut Worked,
) -> Result<(), NoMemory>
    requires some { 1 ≤ hours }
    requires few { hours ≤ 744 }
    requires sound { IsSound config.now }
    requires rules { rules.now ≡ rules_for config.now }
    requires kept { AreKeptBut config.now (nothing_held hours) 0 (hours - 1)
        worked.old.waiting.items worked.old.carries.items worked.old.futures.items
        worked.old.report }
    requires settled { AllSettled worked.old.waiting.items }
    ensures kept { OnOk result (AreKept config.now (nothing_held hours) worked.new.waiting.items
        worked.new.carries.items worked.new.futures.items worked.new.report) }
    ensures settled { OnOk result (AllSettled worked.new.waiting.items) }
{
    let store = HourStore::new(alloc, hours)?;
    let mut reads = Reads::new(NoRows);
    let touched = Touched {
        first: 0,
        last: hours - 1,
        same: Vec::new(alloc),
        may_wait: false,
    };
    match renew(alloc, config, rules, &store, worked, &touched, &mut reads) {
        Ok(fresh) => {
            adopt(worked, fresh);
            Ok(())
        }
        Err(ForwardError::Memory) => Err(NoMemory),
        Err(ForwardError::Contradiction(_)) => unreachable!(),
    }
}

/// What is kept of a window of so many hours of which none is held.
pub fn begin(alloc: Global, config: &Config, rules: &[Rule], hours: u32) -> Result<Worked, NoMemory>
    requires some { 1 ≤ hours }
    requires few { hours ≤ 744 }
    requires sound { IsSound config.now }
    requires rules { rules.now ≡ rules_for config.now }
    requires window { hours ≡ config.now.window.hours }
    ensures kept { IfOk result (λ k. AreKept config.now (nothing_held hours) k.waiting.items
        k.carries.items k.futures.items k.report) }
    ensures settled { IfOk result (λ k. AllSettled k.waiting.items) }
{
    let mut worked = not_begun(alloc, config, hours)?;
    work_through(alloc, config, rules, hours, &mut worked)?;
    Ok(worked)
}
