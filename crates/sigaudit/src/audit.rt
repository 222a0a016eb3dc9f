// The verdicts of a draft: those that are broken or undecided, or all of one hour.
ghost use Rattle.std.specs.Prelude.{◌≡◌, ◌<◌, ◌++◌, true, [], IfOk, IsTrue, OnOk, length, nat_lt};
ghost use Rattle.sig_base.specs.Reads.{Grow};
ghost use Rattle.hour_work.specs.Counts.{is_kept};
ghost use Rattle.session.specs.Links.{AllSettled};
ghost use Rattle.sigaudit.specs.Audit.{AddsHour, AreFailing, AreVerdicts, IsAudited, failing_at, failing_of};
ghost use Rattle.sigaudit.specs.Run.{TakesBy};

use crate::refused::refuse;
use crate::status::Stopped;
use outside::Sink;
use report_text::{Refusal, put_audit, put_verdicts};
use rule_audit::AuditLine;
use session::Draft;
use sig_base::{EditError, Hour, NoMemory, Reads, Verdict};
use std::alloc::Global;

fn is_kept(verdict: Verdict) -> bool
    ensures { result ≡ is_kept verdict }
{
    matches!(verdict, Verdict::Kept)
}

// Whether each verdict of the hour is kept, so that an audit has no line of it. No hour is opened.
fn is_clean<L>(hour: Hour, session: &Draft<L>) -> bool
    requires within { hour < length session.now.store.hours }
    requires settled { AllSettled session.now.waiting }
    ensures { IsTrue result → AddsHour session.now.config session.now.store hour [] [] }
{
    match session.report().hour(hour) {
        Some(part) => part.are_all_kept(),
        None => false,
    }
}

// Adds a line, unless it is kept.
fn add_line(failing: &mut Vec<AuditLine>, line: &AuditLine) -> Result<(), NoMemory>
    ensures { OnOk result (failing.new.items ≡ failing.old.items ++ failing_at line.now) }
{
    if is_kept(line.verdict) {
        return Ok(());
    }
    failing.push(*line)?;
    Ok(())
}

// Adds the broken and undecided ones of these lines.
fn add_lines(failing: &mut Vec<AuditLine>, lines: &[AuditLine]) -> Result<(), NoMemory>
    ensures { OnOk result (failing.new.items ≡ failing.old.items ++ failing_of lines.now) }
{
    for line in lines {
        add_line(failing, line)?;
    }
    Ok(())
}

// Adds the broken and undecided lines of an hour.
#[tactic(auto, using(crate::proofs::GrowFacts::grow_same))]
fn add_hour<L>(
    failing: &mut Vec<AuditLine>,
    hour: Hour,
    session: &Draft<L>,
    reads: &mut Reads<L>,
) -> Result<(), NoMemory>
    requires within { hour < length session.now.store.hours }
    requires settled { AllSettled session.now.waiting }
    ensures added { OnOk result (AddsHour session.now.config session.now.store hour
        failing.old.items failing.new.items) }
    ensures grow { Grow reads.old reads.new }
{
    if is_clean(hour, session) {
        return Ok(());
    }
    let lines = session.audit_hour(hour, true, reads)?;
    add_lines(failing, &lines)
}

// The broken and undecided lines of all hours, each broken one with its decisive window.
#[tactic(auto, using(crate::proofs::GrowFacts::grow_same))]
fn failing_lines<L>(
    alloc: Global,
    session: &Draft<L>,
    reads: &mut Reads<L>,
) -> Result<Vec<AuditLine>, NoMemory>
    requires { AllSettled session.now.waiting }
    ensures lines { IfOk result (λ v. AreFailing session.now.config session.now.store 0
        session.now.config.window.hours v.items) }
    ensures grow { Grow reads.old reads.new }
{
    let mut failing = Vec::new(alloc);
    let hours = session.config().window().hours();
    for hour in 0..hours {
        add_hour(&mut failing, hour, session, reads)?;
    }
    Ok(failing)
}

// Writes an audit, where no numbers wait. All of its lines are found before anything is written.
#[tactic(auto, using(crate::proofs::GrowFacts::grow_same))]
fn put_whole<L, K: Sink>(
    alloc: Global,
    number: u32,
    session: &Draft<L>,
    sink: &mut K,
    reads: &mut Reads<L>,
) -> Result<bool, Stopped>
    requires { AllSettled session.now.waiting }
    ensures turn { TakesBy (IsAudited session.now.config number session.now.store)
        (K.taken sink.old) (K.taken sink.new) session.now.store result }
    ensures grow { Grow reads.old reads.new }
{
    let failing = failing_lines(alloc, session, reads)?;
    let total = session.report().total();
    put_audit(
        number,
        session.config(),
        session.rules(),
        total,
        &failing,
        sink,
    )?;
    Ok(false)
}

/// Works out the numbers that wait, and writes an audit: how many verdicts each rule has in the
/// window, and then the broken and undecided ones, hour by hour, each broken one with its decisive
/// window. All of them are found before anything is written.
pub fn audit_line<L, K: Sink>(
    alloc: Global,
    number: u32,
    session: &mut Draft<L>,
    sink: &mut K,
    reads: &mut Reads<L>,
) -> Result<bool, Stopped>
    ensures turn { TakesBy (IsAudited session.old.config number session.old.store)
        (K.taken sink.old) (K.taken sink.new) session.new.store result }
    ensures config { session.new.config ≡ session.old.config }
    ensures grow { Grow reads.old reads.new }
{
    session.settle(reads)?;
    put_whole(alloc, number, session, sink, reads)
}

// Writes the verdicts of an hour of the window.
#[tactic(auto, using(crate::proofs::GrowFacts::grow_same))]
fn hour_verdicts<L, K: Sink>(
    number: u32,
    hour: Hour,
    session: &Draft<L>,
    sink: &mut K,
    reads: &mut Reads<L>,
) -> Result<bool, Stopped>
    requires { hour < session.now.config.window.hours }
    ensures turn { TakesBy (AreVerdicts session.now.config number hour session.now.store true)
        (K.taken sink.old) (K.taken sink.new) session.now.store result }
    ensures grow { Grow reads.old reads.new }
{
    let config = session.config();
    let all = session.audit_hour(hour, true, reads)?;
    put_verdicts(number, hour, config, &all, sink)?;
    Ok(false)
}

/// Writes all verdicts of one hour, the kept ones among them.
#[tactic(auto, using(crate::proofs::GrowFacts::grow_same))]
pub fn verdicts_line<L, K: Sink>(
    number: u32,
    hour: Hour,
    session: &Draft<L>,
    sink: &mut K,
    reads: &mut Reads<L>,
) -> Result<bool, Stopped>
    ensures turn { TakesBy (AreVerdicts session.now.config number hour session.now.store
        (nat_lt hour session.now.config.window.hours)) (K.taken sink.old) (K.taken sink.new)
        session.now.store result }
    ensures grow { Grow reads.old reads.new }
{
    if hour >= session.config().window().hours() {
        return refuse(
            session.config(),
            number,
            Refusal::Edit(EditError::OutOfWindow),
            sink,
        );
    }
    hour_verdicts(number, hour, session, sink, reads)
}
