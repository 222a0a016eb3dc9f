// The audit of an hour, and the decisive windows of its broken lines.
ghost use Rattle.std.specs.Prelude.{◌≡◌, ◌+◌, ◌/◌, ◌<◌, ℕ, List, length, All, IfOk, MatchOption};
ghost use Rattle.span_set.specs.declared.set.Span.{Span};
ghost use Rattle.ring_config.specs.Settings.{Settings};
ghost use Rattle.hour_store.specs.Store.{IsStore, Store};
ghost use Rattle.signal_log.specs.Log.{HasHistory, log_of};
ghost use Rattle.rule_audit.specs.Rules.{rules_for};
ghost use Rattle.hour_work.specs.Points.{IsCarryAt, IsFutureAt};
ghost use Rattle.hour_work.specs.Verdicts.{AreAuditLines};
ghost use Rattle.decisive.specs.Lines.{AreHourMoves};
ghost use Rattle.session.specs.HourLines.{AreLinesIn, AreWindowed, HasOwnWindow, IsBrokenHour, IsLineIn, NoneBroken};
ghost use Rattle.session.specs.Links.{AreKept};
ghost use Rattle.sig_base.specs.Reads.{Grow};

use crate::renew::Worked;
use board::Pasts;
use decisive::{HourMoves, window_in};
use hour_store::HourStore;
use hour_work::{Between, audit_over};
use ring_config::Config;
use rule_audit::{AuditLine, Rule};
use sig_base::{Hour, NoMemory, Reads, Verdict};
use signal_log::Place;
use std::alloc::Global;

// The lines of the audit of an hour, which is opened, between what is kept at the points about it.
fn lines_between<L>(
    alloc: Global,
    config: &Config,
    rules: &[Rule],
    store: &HourStore<L>,
    hour: Hour,
    between: &Between<'_>,
    reads: &mut Reads<L>,
) -> Result<Vec<AuditLine>, NoMemory>
    requires rules { rules.now ≡ rules_for config.now }
    requires in_store { hour < length store.now.hours }
    requires before { IsCarryAt config.now store.now hour between.now.before.now }
    requires after { IsFutureAt config.now store.now (hour + 1) between.now.after.now }
    requires history { HasHistory (log_of config.now.specs store.now) }
    ensures lines { IfOk result (λ v. AreAuditLines config.now store.now hour v.items) }
    ensures grow { Grow reads.old reads.new }
{
    let rows = store.open_hour(hour, reads);
    let place = Place::new(alloc, hour, rows, store.blanked())?;
    audit_over(alloc, config, rules, &place, between)
}

/// The lines of the audit of an hour. No other hour is opened.
pub fn lines_of<L>(
    alloc: Global,
    config: &Config,
    rules: &[Rule],
    store: &HourStore<L>,
    worked: &Worked,
    hour: Hour,
    reads: &mut Reads<L>,
) -> Result<Vec<AuditLine>, NoMemory>
    requires rules { rules.now ≡ rules_for config.now }
    requires in_store { hour < length store.now.hours }
    requires store { IsStore store.now }
    requires kept { AreKept config.now store.now worked.now.waiting.items worked.now.carries.items
        worked.now.futures.items worked.now.report }
    requires history { HasHistory (log_of config.now.specs store.now) }
    ensures lines { IfOk result (λ v. AreAuditLines config.now store.now hour v.items) }
    ensures grow { Grow reads.old reads.new }
{
    let before = &worked.carries[hour as usize];
    let after = &worked.futures[hour as usize + 1];
    let between = Between { before, after };
    lines_between(alloc, config, rules, store, hour, &between, reads)
}

// The window of a line of an hour, which a broken one has.
fn window_of<L>(
    alloc: Global,
    config: &Config,
    rules: &[Rule],
    store: &HourStore<L>,
    moves: &HourMoves<'_>,
    line: &AuditLine,
    reads: &mut Reads<L>,
) -> Result<Option<(u32, u32)>, NoMemory>
    requires rules { rules.now ≡ rules_for config.now }
    requires history { HasHistory (log_of config.now.specs store.now) }
    requires line { IsLineIn config.now store.now (line.now.at / 36000) line.now }
    requires moves { AreHourMoves config.now.specs store.now (line.now.at / 36000) moves.now }
    ensures window { IfOk result (HasOwnWindow config.now store.now line.now) }
    ensures grow { Grow reads.old reads.new }
{
    match line.verdict {
        Verdict::Broken => {
            let window = window_in(alloc, config, rules, store, moves, line, reads)?;
            Ok(Some(window))
        }
        Verdict::Idle | Verdict::Kept | Verdict::Undecided => Ok(None),
    }
}

// The lines, each broken one with its window.
fn windowed<L>(
    alloc: Global,
    config: &Config,
    rules: &[Rule],
    store: &HourStore<L>,
    moves: &HourMoves<'_>,
    lines: &[AuditLine],
    reads: &mut Reads<L>,
) -> Result<Vec<AuditLine>, NoMemory>
    requires rules { rules.now ≡ rules_for config.now }
    requires history { HasHistory (log_of config.now.specs store.now) }
    requires lines { (hour : ℕ) × AreHourMoves config.now.specs store.now hour moves.now
        × All (IsLineIn config.now store.now hour) lines.now }
    ensures windows { IfOk result (λ v. (before : List (List (List Span)))
        → AreWindowed config.now store.now before lines.now v.items) }
    ensures grow { Grow reads.old reads.new }
{
    let mut done = Vec::new(alloc);
    for line in lines {
        let window = window_of(alloc, config, rules, store, moves, line, reads)?;
        done.push(AuditLine { window, ..*line })?;
    }
    Ok(done)
}

// The lines, of which none is broken.
fn unbroken(alloc: Global, lines: &[AuditLine]) -> Result<Vec<AuditLine>, NoMemory>
    requires { NoneBroken lines.now }
    ensures { IfOk result (λ v. (c : Settings) (s : Store) (before : List (List (List Span)))
        → AreWindowed c s before lines.now v.items) }
{
    let mut done = Vec::new(alloc);
    for line in lines {
        done.push(AuditLine {
            window: None,
            ..*line
        })?;
    }
    Ok(done)
}

// The hour of the first broken line.
fn broken_hour(lines: &[AuditLine]) -> Option<Hour>
    ensures { MatchOption result (NoneBroken lines.now) (IsBrokenHour lines.now) }
{
    for line in lines {
        match line.verdict {
            Verdict::Broken => return Some(line.at / 36_000),
            Verdict::Idle | Verdict::Kept | Verdict::Undecided => {}
        }
    }
    None
}

/// The lines of an hour, each broken one with its decisive window, from the states at the point
/// before the hour. Where one is broken the hour is opened, and those in which a window is looked
/// for.
pub fn with_windows<L>(
    alloc: Global,
    config: &Config,
    rules: &[Rule],
    store: &HourStore<L>,
    before: &Pasts,
    lines: &[AuditLine],
    reads: &mut Reads<L>,
) -> Result<Vec<AuditLine>, NoMemory>
    requires rules { rules.now ≡ rules_for config.now }
    requires history { HasHistory (log_of config.now.specs store.now) }
    requires lines { (hour : ℕ) × AreLinesIn config.now store.now hour before.now lines.now }
    ensures windows { IfOk result (λ v. AreWindowed config.now store.now before.now lines.now
        v.items) }
    ensures grow { Grow reads.old reads.new }
{
    match broken_hour(lines) {
        Some(hour) => {
            let moves = HourMoves::new(alloc, config, store, before, hour, reads)?;
            windowed(alloc, config, rules, store, &moves, lines, reads)
        }
        None => unbroken(alloc, lines),
    }
}
