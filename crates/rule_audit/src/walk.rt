// The walk over the stretches of an hour.
ghost use Rattle.std.specs.Prelude.{◌≡◌, ◌+◌, ◌<◌, ◌≤◌, true, ℕ, length, slice_index_or, IfOk};
ghost use Rattle.gap_map.specs.Stretches.{known_at};
ghost use Rattle.board.specs.Logs.{end_tenth, first_tenth, no_row};
ghost use Rattle.rule_audit.specs.Judged.{HasVerdict};
ghost use Rattle.rule_audit.specs.Lines.{AreLinesOf};
ghost use Rattle.rule_audit.specs.Pass.{AddsUpTo, AreKnown, Ends, IsCutAt, IsLogOf, IsNextRuled, IsReady, IsStart, PassesOver, Rises, log_of, obligations_in};

use crate::hour::AuditedHour;
use crate::lines::AuditLine;
use crate::tenth::judge_tenth;
use gap_map::Stretch;
use sig_base::{NoMemory, Row};
use std::alloc::Global;

// The number of rows before the tenth, of which the first ones are counted already.
fn until(rows: &[Row], first: usize, tenth: u32) -> usize
    requires rises { Rises rows.now }
    requires first { first ≤ length rows.now }
    requires before { (k : ℕ) → k < first → (slice_index_or rows.now k no_row).at < tenth }
    ensures { IsCutAt rows.now tenth result }
{
    for i in first..rows.len() {
        if rows[i].at >= tenth {
            return i;
        }
    }
    rows.len()
}

// The first row from this one on that has a rule or is not before the tenth, or the number of rows.
fn next_ruled(hour: &AuditedHour<'_>, first: usize, to: u32) -> usize
    requires ready { IsReady hour.now }
    requires first { first ≤ length hour.now.rows.now }
    requires known { AreKnown hour.now first to }
    ensures { IsNextRuled hour.now first to result }
{
    let count = hour.specs.len();
    for index in first..hour.rows.len() {
        if (hour.own[index] as usize) < count {
            return index;
        }
        if hour.rows[index].at >= to {
            return index;
        }
    }
    hour.rows.len()
}

// The first of the rows from `first` up to this one that are of its tenth.
fn start_of(rows: &[Row], first: usize, index: usize) -> usize
    requires rises { Rises rows.now }
    requires range { first ≤ index }
    requires index { index < length rows.now }
    ensures { IsStart rows.now first index result }
{
    for turn in 0..index - first {
        let start = index - turn;
        if rows[start - 1].at < rows[index].at {
            return start;
        }
    }
    first
}

// Passes over the tenths from row `first` on in which no row has a rule, up to the tenth `to`:
// answers the first row of the next other one, or how many rows are before `to`.
fn pass_over(hour: &AuditedHour<'_>, first: usize, to: u32) -> usize
    requires ready { IsReady hour.now }
    requires first { first ≤ length hour.now.rows.now }
    requires known { AreKnown hour.now first to }
    ensures { PassesOver hour.now first to result }
{
    let ruled = next_ruled(hour, first, to);
    if ruled < hour.rows.len() {
        return start_of(hour.rows, first, ruled);
    }
    ruled
}

// The known tenths from `from` up to `to`, where the tenth before them is known: those with a row
// of a rule's channel. Answers how many rows are before `to`.
fn judge_on(
    lines: &mut Vec<AuditLine>,
    cursors: &mut [usize],
    hour: &AuditedHour<'_>,
    first: usize,
    from: u32,
    to: u32,
) -> Result<usize, NoMemory>
    requires ready { IsReady hour.now }
    requires range { from ≤ to }
    requires known { (t : ℕ) → from ≤ t → t < to → known_at hour.now.stretches.now t ≡ true }
    requires first { IsCutAt hour.now.rows.now from first }
    requires within { (e : Ends) → IsLogOf hour.now e → to ≤ end_tenth e.hour }
    ensures cut { IfOk result (λ n. IsCutAt hour.now.rows.now to n) }
    ensures lines { IfOk result (λ n. (e : Ends) → IsLogOf hour.now e
        → AddsUpTo (HasVerdict (log_of hour.now e)) (obligations_in hour.now true from
        (end_tenth e.hour)) (obligations_in hour.now true to (end_tenth e.hour)) lines.old.items
        lines.new.items) }
{
    let mut next = pass_over(hour, first, to);
    'tenths: while next < hour.rows.len() {
        let at = hour.rows[next].at;
        if at >= to {
            return Ok(next);
        }
        let end = until(hour.rows, next, at + 1);
        judge_tenth(lines, cursors, hour, at, next, end, true)?;
        next = pass_over(hour, end, to);
    }
    Ok(next)
}

// The known tenths from `from` up to `to`; `before` says whether the tenth before them is known.
fn judge_known(
    lines: &mut Vec<AuditLine>,
    cursors: &mut [usize],
    hour: &AuditedHour<'_>,
    first: usize,
    from: u32,
    to: u32,
    before: bool,
) -> Result<usize, NoMemory>
    requires ready { IsReady hour.now }
    requires range { from < to }
    requires known { (t : ℕ) → from ≤ t → t < to → known_at hour.now.stretches.now t ≡ true }
    requires first { IsCutAt hour.now.rows.now from first }
    requires within { (e : Ends) → IsLogOf hour.now e → to ≤ end_tenth e.hour }
    ensures cut { IfOk result (λ n. IsCutAt hour.now.rows.now to n) }
    ensures lines { IfOk result (λ n. (e : Ends) → IsLogOf hour.now e
        → AddsUpTo (HasVerdict (log_of hour.now e)) (obligations_in hour.now before from
        (end_tenth e.hour)) (obligations_in hour.now true to (end_tenth e.hour)) lines.old.items
        lines.new.items) }
{
    if before {
        return judge_on(lines, cursors, hour, first, from, to);
    }
    let end = until(hour.rows, first, from + 1);
    judge_tenth(lines, cursors, hour, from, first, end, false)?;
    judge_on(lines, cursors, hour, end, from + 1, to)
}

// The stretch, before which there are `first` rows; `before` says whether the tenth before it is
// known. Answers how many rows are before its end.
fn judge_stretch(
    lines: &mut Vec<AuditLine>,
    cursors: &mut [usize],
    hour: &AuditedHour<'_>,
    first: usize,
    stretch: Stretch,
    before: bool,
) -> Result<usize, NoMemory>
    requires ready { IsReady hour.now }
    requires range { stretch.from < stretch.to }
    requires known { (t : ℕ) → stretch.from ≤ t → t < stretch.to
        → known_at hour.now.stretches.now t ≡ stretch.known }
    requires first { IsCutAt hour.now.rows.now stretch.from first }
    requires within { (e : Ends) → IsLogOf hour.now e → stretch.to ≤ end_tenth e.hour }
    ensures cut { IfOk result (λ n. IsCutAt hour.now.rows.now stretch.to n) }
    ensures lines { IfOk result (λ n. (e : Ends) → IsLogOf hour.now e
        → AddsUpTo (HasVerdict (log_of hour.now e)) (obligations_in hour.now before stretch.from
        (end_tenth e.hour)) (obligations_in hour.now stretch.known stretch.to (end_tenth e.hour))
        lines.old.items lines.new.items) }
{
    if stretch.known {
        return judge_known(
            lines,
            cursors,
            hour,
            first,
            stretch.from,
            stretch.to,
            before,
        );
    }
    Ok(until(hour.rows, first, stretch.to))
}

/// The lines of the hour; `known_before` says whether the tenth before it is known.
pub(crate) fn judge_hour(
    alloc: Global,
    hour: &AuditedHour<'_>,
    known_before: bool,
) -> Result<Vec<AuditLine>, NoMemory>
    requires ready { IsReady hour.now }
    requires some { (e : Ends) × IsLogOf hour.now e }
    ensures { IfOk result (λ v. (e : Ends) → IsLogOf hour.now e
        → AreLinesOf (HasVerdict (log_of hour.now e)) (obligations_in hour.now known_before
        (first_tenth e.hour) (end_tenth e.hour)) v.items) }
{
    let mut lines = Vec::new(alloc);
    let mut cursors = vec![in alloc; 0; hour.specs.len()]?;
    let mut before = known_before;
    let mut next = 0;
    let stretches = hour.stretches;
    for stretch in stretches {
        next = judge_stretch(&mut lines, &mut cursors, hour, next, *stretch, before)?;
        before = stretch.known;
    }
    Ok(lines)
}
