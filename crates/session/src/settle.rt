// The numbers that wait are worked out.
ghost use Rattle.std.specs.Prelude.{◌≡◌, ◌+◌, ◌<◌, ◌≤◌, true, false, length, OnErr, OnOk};
ghost use Rattle.hour_store.specs.Store.{IsStore};
ghost use Rattle.signal_log.specs.Log.{HasHistory, log_of};
ghost use Rattle.rule_audit.specs.Rules.{rules_for};
ghost use Rattle.session.specs.Links.{AllSettled, AreKept, AreMarked};
ghost use Rattle.session.specs.Opens.{AreOpened, AreOpenedOnce};
ghost use Rattle.sig_base.specs.Reads.{Grow};

use crate::renew::Worked;
use crate::steps::part_between;
use hour_store::HourStore;
use hour_work::Between;
use ring_config::Config;
use rule_audit::Rule;
use sig_base::{Hour, NoMemory, Reads};
use std::alloc::Global;

// Those of one hour, which is opened. Where memory is lacking they still wait.
fn settle_hour<L>(
    alloc: Global,
    config: &Config,
    rules: &[Rule],
    store: &HourStore<L>,
    worked: &mut Worked,
    hour: Hour,
    reads: &mut Reads<L>,
) -> Result<(), NoMemory>
    requires rules { rules.now ≡ rules_for config.now }
    requires store { IsStore store.now }
    requires in_store { hour < length store.now.hours }
    requires kept { AreKept config.now store.now worked.old.waiting.items worked.old.carries.items
        worked.old.futures.items worked.old.report }
    requires history { HasHistory (log_of config.now.specs store.now) }
    ensures carries { worked.new.carries.items ≡ worked.old.carries.items }
    ensures futures { worked.new.futures.items ≡ worked.old.futures.items }
    ensures kept { AreKept config.now store.now worked.new.waiting.items worked.new.carries.items
        worked.new.futures.items worked.new.report }
    ensures marked { OnOk result (AreMarked hour (hour + 1) false worked.old.waiting.items
        worked.new.waiting.items) }
    ensures once { AreOpened hour (hour + 1) 1 1 reads.old reads.new }
{
    let place = hour as usize;
    let between = Between {
        before: &worked.carries[place],
        after: &worked.futures[place + 1],
    };
    let part = part_between(alloc, config, rules, store, hour, &between, reads)?;
    let mut parts = Vec::new(alloc);
    parts.push(part)?;
    let sums = worked.report.sums_with(alloc, place, &parts)?;
    worked.report.exchange(place, parts.as_mut_slice(), sums);
    worked.waiting[place] = false;
    Ok(())
}

// Those of one hour, where they wait.
fn settle_next<L>(
    alloc: Global,
    config: &Config,
    rules: &[Rule],
    store: &HourStore<L>,
    worked: &mut Worked,
    hour: Hour,
    reads: &mut Reads<L>,
) -> Result<(), NoMemory>
    requires rules { rules.now ≡ rules_for config.now }
    requires store { IsStore store.now }
    requires in_store { hour < length store.now.hours }
    requires kept { AreKept config.now store.now worked.old.waiting.items worked.old.carries.items
        worked.old.futures.items worked.old.report }
    requires history { HasHistory (log_of config.now.specs store.now) }
    ensures carries { worked.new.carries.items ≡ worked.old.carries.items }
    ensures futures { worked.new.futures.items ≡ worked.old.futures.items }
    ensures kept { AreKept config.now store.now worked.new.waiting.items worked.new.carries.items
        worked.new.futures.items worked.new.report }
    ensures marked { OnOk result (AreMarked hour (hour + 1) false worked.old.waiting.items
        worked.new.waiting.items) }
    ensures opens { OnOk result (AreOpenedOnce worked.old.waiting.items worked.new.waiting.items
        reads.old reads.new) }
    ensures grow { Grow reads.old reads.new }
{
    if !worked.waiting[hour as usize] {
        return Ok(());
    }
    settle_hour(alloc, config, rules, store, worked, hour, reads)
}

/// Those of all hours. Each of these hours is opened once. Where memory is lacking some still wait.
pub fn settle_all<L>(
    alloc: Global,
    config: &Config,
    rules: &[Rule],
    store: &HourStore<L>,
    worked: &mut Worked,
    reads: &mut Reads<L>,
) -> Result<(), NoMemory>
    requires rules { rules.now ≡ rules_for config.now }
    requires store { IsStore store.now }
    requires kept { AreKept config.now store.now worked.old.waiting.items worked.old.carries.items
        worked.old.futures.items worked.old.report }
    requires history { HasHistory (log_of config.now.specs store.now) }
    ensures carries { worked.new.carries.items ≡ worked.old.carries.items }
    ensures futures { worked.new.futures.items ≡ worked.old.futures.items }
    ensures kept { AreKept config.now store.now worked.new.waiting.items worked.new.carries.items
        worked.new.futures.items worked.new.report }
    ensures settled { OnOk result (AllSettled worked.new.waiting.items) }
    ensures opens { OnOk result (AreOpenedOnce worked.old.waiting.items worked.new.waiting.items
        reads.old reads.new) }
    ensures grow { Grow reads.old reads.new }
{
    for hour in 0..store.hours() {
        settle_next(alloc, config, rules, store, worked, hour, reads)?;
    }
    Ok(())
}
