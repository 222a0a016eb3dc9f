// The verdicts of one tenth.
ghost use Rattle.std.specs.Prelude.{◌≡◌, ◌+◌, ◌<◌, ◌≤◌, [], ◌∷◌, Bool, true, false, length, OnOk};
ghost use Rattle.gap_map.specs.Stretches.{known_at};
ghost use Rattle.board.specs.Verdicts.{AreWithin};
ghost use Rattle.rule_audit.specs.declared.rules.Rule.{Rule};
ghost use Rattle.rule_audit.specs.declared.rules.Rule.TheVariants.{Interval};
ghost use Rattle.rule_audit.specs.Obligations.{end_obligations, is_clause, is_row_of, is_timed_by, row_obligation, row_obligations, rows_obligations, tenth_obligations, terms_of};
ghost use Rattle.rule_audit.specs.Index.{IsSkips};
ghost use Rattle.rule_audit.specs.Pass.{row_at, rule_at, Adds, AddsAfter, AddsEnd, AddsIn, AreChannelsAt, Ends, FitsItem, IsCutAt, IsDueAt, IsKnownRow, IsLogOf, IsReady};

use crate::hour::AuditedHour;
use crate::index::Skips;
use crate::interval::interval_verdict;
use crate::lines::{AuditLine, Place, push_line};
use crate::next::{channels_of, lone_channel, next_due, next_of};
use crate::rules::Rule;
use board::{Clause, clause_verdict_from};
use ring_config::IntervalItem;
use sig_base::NoMemory;

// The number of the rule with this place among the rules.
fn number_of(place: usize) -> u16
    requires { place < 1000 }
    ensures { result ≡ place + 1 }
{
    place as u16 + 1
}

// The rule with this number, which is one of the row's channel.
fn judge_interval(
    lines: &mut Vec<AuditLine>,
    hour: &AuditedHour<'_>,
    index: u32,
    number: u16,
    item: &IntervalItem,
) -> Result<(), NoMemory>
    requires ready { IsReady hour.now }
    requires item { FitsItem hour.now.specs.now item.now }
    requires index { index < length hour.now.rows.now }
    requires own { is_row_of hour.now.specs.now (row_at hour.now index) item.now.spec ≡ true }
    requires known { IsKnownRow hour.now index }
    ensures { OnOk result (AddsIn hour.now (row_obligation hour.now.specs.now index
        (row_at hour.now index) number (Interval item.now)) lines.old.items lines.new.items) }
{
    let at = hour.rows[index as usize].at;
    let verdict = interval_verdict(hour, index, item);
    push_line(lines, number, at, Place::BeforeRow(index), verdict)
}

// The rule with this place among the rules, which is an interval rule of the row's channel.
fn judge_before(
    lines: &mut Vec<AuditLine>,
    hour: &AuditedHour<'_>,
    index: u32,
    place: usize,
) -> Result<(), NoMemory>
    requires ready { IsReady hour.now }
    requires index { index < length hour.now.rows.now }
    requires place { place < length hour.now.rules.now }
    requires own { is_timed_by hour.now.specs.now (row_at hour.now index) (rule_at hour.now place)
        ≡ true }
    requires known { IsKnownRow hour.now index }
    ensures { OnOk result (AddsIn hour.now (row_obligation hour.now.specs.now index
        (row_at hour.now index) (place + 1) (rule_at hour.now place)) lines.old.items
        lines.new.items) }
{
    let number = number_of(place);
    match &hour.rules[place] {
        Rule::Interval(item) => judge_interval(lines, hour, index, number, item),
        Rule::Conflict(_, _, _) => Ok(()),
        Rule::Companion(_, _) => Ok(()),
        Rule::Parents(_, _) => Ok(()),
    }
}

// The interval rules of the row's channel, which are at the places that the list picks.
fn judge_timed(
    lines: &mut Vec<AuditLine>,
    hour: &AuditedHour<'_>,
    index: u32,
    timed: &Skips,
) -> Result<(), NoMemory>
    requires ready { IsReady hour.now }
    requires index { index < length hour.now.rows.now }
    requires timed { IsSkips (λ x. is_timed_by hour.now.specs.now (row_at hour.now index)
        (rule_at hour.now x)) (length hour.now.rules.now) timed.now }
    requires known { IsKnownRow hour.now index }
    ensures { OnOk result (AddsIn hour.now (row_obligations hour.now.specs.now index
        (row_at hour.now index) 1 hour.now.rules.now) lines.old.items lines.new.items) }
{
    let count = hour.rules.len();
    let mut place = timed.next(count, 0);
    'rules: while place < count {
        judge_before(lines, hour, index, place)?;
        place = timed.next(count, place + 1);
    }
    Ok(())
}

// Each interval rule of the row's channel.
fn judge_row(lines: &mut Vec<AuditLine>, hour: &AuditedHour<'_>, index: u32) -> Result<(), NoMemory>
    requires ready { IsReady hour.now }
    requires index { index < length hour.now.rows.now }
    requires known { IsKnownRow hour.now index }
    ensures { OnOk result (AddsIn hour.now (row_obligations hour.now.specs.now index
        (row_at hour.now index) 1 hour.now.rules.now) lines.old.items lines.new.items) }
{
    let own = hour.own[index as usize] as usize;
    if own < hour.timed.len() {
        return judge_timed(lines, hour, index, &hour.timed[own]);
    }
    Ok(())
}

// The interval rules before the rows of the tenth, which are those from `first` up to `end`.
fn judge_rows(
    lines: &mut Vec<AuditLine>,
    hour: &AuditedHour<'_>,
    at: u32,
    first: usize,
    end: usize,
) -> Result<(), NoMemory>
    requires ready { IsReady hour.now }
    requires known { known_at hour.now.stretches.now at ≡ true }
    requires first { IsCutAt hour.now.rows.now at first }
    requires end { IsCutAt hour.now.rows.now (at + 1) end }
    ensures { OnOk result (AddsIn hour.now (rows_obligations hour.now.specs.now hour.now.rules.now
        at 0 hour.now.rows.now) lines.old.items lines.new.items) }
{
    for index in first..end {
        judge_row(lines, hour, index as u32)?;
    }
    Ok(())
}

// The clause of a rule with this number, which is judged at the end of the tenth. The cursors say
// where the search among each channel's moves begins.
fn judge_clause(
    lines: &mut Vec<AuditLine>,
    cursors: &mut [usize],
    hour: &AuditedHour<'_>,
    at: u32,
    number: u16,
    clause: &Clause,
) -> Result<(), NoMemory>
    requires ready { IsReady hour.now }
    requires known { known_at hour.now.stretches.now at ≡ true }
    requires clause { AreWithin (length hour.now.specs.now) clause.now }
    ensures { OnOk result ((e : Ends) (before : Bool) (rule : Rule) → IsLogOf hour.now e
        → is_clause rule ≡ true → terms_of rule ≡ clause.now → IsDueAt hour.now before at rule
        → AddsEnd hour.now e before at number rule lines.old.items lines.new.items) }
{
    let verdict = clause_verdict_from(hour.view, at, clause, cursors);
    push_line(lines, number, at, Place::EndOfTenth, verdict)
}

// The rule with this place among the rules, which is judged at the end of the tenth where it is a
// clause.
fn judge_after(
    lines: &mut Vec<AuditLine>,
    cursors: &mut [usize],
    hour: &AuditedHour<'_>,
    at: u32,
    place: usize,
) -> Result<(), NoMemory>
    requires ready { IsReady hour.now }
    requires known { known_at hour.now.stretches.now at ≡ true }
    requires place { place < length hour.now.rules.now }
    ensures { OnOk result (AddsAfter hour.now at place lines.old.items lines.new.items) }
{
    let number = number_of(place);
    match &hour.rules[place] {
        Rule::Interval(_) => Ok(()),
        Rule::Conflict(_, _, clause) => judge_clause(lines, cursors, hour, at, number, clause),
        Rule::Companion(_, clause) => judge_clause(lines, cursors, hour, at, number, clause),
        Rule::Parents(_, clause) => judge_clause(lines, cursors, hour, at, number, clause),
    }
}

// Each clause at the end of a tenth before which the log is unknown.
fn judge_all(
    lines: &mut Vec<AuditLine>,
    cursors: &mut [usize],
    hour: &AuditedHour<'_>,
    at: u32,
) -> Result<(), NoMemory>
    requires ready { IsReady hour.now }
    requires known { known_at hour.now.stretches.now at ≡ true }
    ensures { OnOk result (AddsIn hour.now (end_obligations hour.now.specs.now hour.now.rows.now
        false at 1 hour.now.rules.now) lines.old.items lines.new.items) }
{
    for place in 0..hour.rules.len() {
        judge_after(lines, cursors, hour, at, place)?;
    }
    Ok(())
}

// The clauses of the channel at the end of the tenth, of whose rows no other channel has a rule.
fn judge_channel(
    lines: &mut Vec<AuditLine>,
    cursors: &mut [usize],
    hour: &AuditedHour<'_>,
    at: u32,
    channel: u16,
) -> Result<(), NoMemory>
    requires ready { IsReady hour.now }
    requires known { known_at hour.now.stretches.now at ≡ true }
    requires channel { AreChannelsAt hour.now at (channel ∷ []) }
    ensures { OnOk result (AddsIn hour.now (end_obligations hour.now.specs.now hour.now.rows.now
        true at 1 hour.now.rules.now) lines.old.items lines.new.items) }
{
    let count = hour.rules.len();
    let mut place = next_of(hour, channel, 0);
    'rules: while place < count {
        judge_after(lines, cursors, hour, at, place)?;
        place = next_of(hour, channel, place + 1);
    }
    Ok(())
}

// The clauses of the channels at the end of the tenth, which are those of its rows.
fn judge_channels(
    lines: &mut Vec<AuditLine>,
    cursors: &mut [usize],
    hour: &AuditedHour<'_>,
    at: u32,
    channels: &[u16],
) -> Result<(), NoMemory>
    requires ready { IsReady hour.now }
    requires known { known_at hour.now.stretches.now at ≡ true }
    requires channels { AreChannelsAt hour.now at channels.now }
    ensures { OnOk result (AddsIn hour.now (end_obligations hour.now.specs.now hour.now.rows.now
        true at 1 hour.now.rules.now) lines.old.items lines.new.items) }
{
    let count = hour.rules.len();
    let mut place = next_due(hour, channels, 0);
    'rules: while place < count {
        judge_after(lines, cursors, hour, at, place)?;
        place = next_due(hour, channels, place + 1);
    }
    Ok(())
}

// The clauses of the rows' channels at the end of the tenth, whose rows are those from `first` up
// to `end`.
fn judge_due(
    lines: &mut Vec<AuditLine>,
    cursors: &mut [usize],
    hour: &AuditedHour<'_>,
    at: u32,
    first: usize,
    end: usize,
) -> Result<(), NoMemory>
    requires ready { IsReady hour.now }
    requires known { known_at hour.now.stretches.now at ≡ true }
    requires first { IsCutAt hour.now.rows.now at first }
    requires end { IsCutAt hour.now.rows.now (at + 1) end }
    ensures { OnOk result (AddsIn hour.now (end_obligations hour.now.specs.now hour.now.rows.now
        true at 1 hour.now.rules.now) lines.old.items lines.new.items) }
{
    if let Some(channel) = lone_channel(hour, first, end) {
        return judge_channel(lines, cursors, hour, at, channel);
    }
    let channels = channels_of(*lines.allocator(), hour, first, end)?;
    judge_channels(lines, cursors, hour, at, channels.as_slice())
}

/// Adds the lines of the known tenth, whose rows are those from `first` up to `end`. `before` says
/// whether the tenth before is known.
pub(crate) fn judge_tenth(
    lines: &mut Vec<AuditLine>,
    cursors: &mut [usize],
    hour: &AuditedHour<'_>,
    at: u32,
    first: usize,
    end: usize,
    before: bool,
) -> Result<(), NoMemory>
    requires ready { IsReady hour.now }
    requires known { known_at hour.now.stretches.now at ≡ true }
    requires first { IsCutAt hour.now.rows.now at first }
    requires end { IsCutAt hour.now.rows.now (at + 1) end }
    ensures { OnOk result (AddsIn hour.now (tenth_obligations hour.now.specs.now hour.now.rules.now
        hour.now.rows.now before at) lines.old.items lines.new.items) }
{
    judge_rows(lines, hour, at, first, end)?;
    if before {
        return judge_due(lines, cursors, hour, at, first, end);
    }
    judge_all(lines, cursors, hour, at)
}
