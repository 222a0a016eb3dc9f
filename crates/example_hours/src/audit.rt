// The audit of an hour, and the decisive window of its first broken line.
ghost use Rattle.std.specs.Prelude.{◌≡◌, ◌/◌, ℕ, All, IfOk};
ghost use Rattle.hour_store.specs.Store.{rows_at};
ghost use Rattle.ring_config.specs.Sound.{IsSound};
ghost use Rattle.signal_log.specs.Log.{HasHistory, log_of};
ghost use Rattle.signal_log.specs.Points.{ArePastsAt};
ghost use Rattle.rule_audit.specs.Rules.{rules_for};
ghost use Rattle.hour_work.specs.Reports.{IsHourBetween};
ghost use Rattle.hour_work.specs.Verdicts.{AreAuditLines};
ghost use Rattle.session.specs.HourLines.{IsLineIn};

use crate::given::Mark;
use crate::points::opened;
use crate::wanted::Wanted;
use board::Pasts;
use decisive::decisive_window;
use hour_store::HourStore;
use hour_work::{Between, audit_lines};
use ring_config::Config;
use rule_audit::{AuditLine, Rule, rules_of};
use sig_base::{Hour, NoMemory, Reads, Verdict};
use std::alloc::Global;

// The lines of the audit.
fn lines_of(
    alloc: Global,
    config: &Config,
    rules: &[Rule],
    store: &HourStore<Mark>,
    hour: Hour,
    between: &Between<'_>,
    reads: &mut Reads<Mark>,
) -> Result<Vec<AuditLine>, NoMemory>
    requires rules { rules.now ≡ rules_for config.now }
    requires agrees { IsHourBetween config.now store.now hour between.now.before.now
        (rows_at store.now hour) store.now.blanks between.now.after.now }
    ensures { IfOk result (λ v. AreAuditLines config.now store.now hour v.items) }
{
    let (before, after) = (between.before, between.after);
    let rows = opened(store, hour, reads);
    audit_lines(
        alloc,
        config,
        rules,
        hour,
        before,
        rows,
        store.blanked(),
        after,
    )
}

// The decisive window of a line, which a broken one has.
fn window_of(
    alloc: Global,
    config: &Config,
    rules: &[Rule],
    store: &HourStore<Mark>,
    before: &Pasts,
    line: &AuditLine,
    reads: &mut Reads<Mark>,
) -> Result<Option<(u32, u32)>, NoMemory>
    requires rules { rules.now ≡ rules_for config.now }
    requires history { HasHistory (log_of config.now.specs store.now) }
    requires line { IsLineIn config.now store.now (line.now.at / 36000) line.now }
    requires before { ArePastsAt (log_of config.now.specs store.now) (line.now.at / 36000)
        before.now }
{
    match line.verdict {
        Verdict::Broken => {
            let window = decisive_window(alloc, config, rules, store, before, line, reads)?;
            Ok(Some(window))
        }
        Verdict::Idle | Verdict::Kept | Verdict::Undecided => Ok(None),
    }
}

// The decisive window of the first broken one of these lines.
fn first_window(
    alloc: Global,
    config: &Config,
    rules: &[Rule],
    store: &HourStore<Mark>,
    before: &Pasts,
    lines: &[AuditLine],
    reads: &mut Reads<Mark>,
) -> Result<Option<(u32, u32)>, NoMemory>
    requires rules { rules.now ≡ rules_for config.now }
    requires history { HasHistory (log_of config.now.specs store.now) }
    requires lines { (hour : ℕ) × All (IsLineIn config.now store.now hour) lines.now
        × ArePastsAt (log_of config.now.specs store.now) hour before.now }
{
    for line in lines {
        let window = window_of(alloc, config, rules, store, before, line, reads)?;
        if window.is_some() {
            return Ok(window);
        }
    }
    Ok(None)
}

/// Whether the lines of the audit and the window of the first broken one are those that are wanted.
pub fn is_audit(
    alloc: Global,
    config: &Config,
    store: &HourStore<Mark>,
    hour: Hour,
    between: &Between<'_>,
    wanted: &Wanted<'_>,
    reads: &mut Reads<Mark>,
) -> Result<[bool; 2], NoMemory>
    requires sound { IsSound config.now }
    requires agrees { IsHourBetween config.now store.now hour between.now.before.now
        (rows_at store.now hour) store.now.blanks between.now.after.now }
{
    let rules = rules_of(alloc, config)?;
    let lines = lines_of(alloc, config, &rules, store, hour, between, reads)?;
    let before = between.before.pasts();
    let window = first_window(alloc, config, &rules, store, before, &lines, reads)?;
    Ok([lines.as_slice() == wanted.lines, window == wanted.window])
}
