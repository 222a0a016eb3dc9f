// Ranges of tenths that are to be blanked, or no longer.
ghost use Rattle.std.specs.Prelude.{◌≡◌, ◌^◌, ◌<◌, ℕ, true, pos, ◌≤ℤ◌, ◌<ℤ◌, IfOk, IsTrue};
ghost use Rattle.session.specs.Edits.{reaches_out};
ghost use Rattle.session.specs.Links.{is_as_was};
ghost use Rattle.session.specs.Ranges.{IsEdited, LeavesHour, NoneBlanked, With, Without};

use sig_base::{Hour, NoMemory, Tenth};
use span_set::SpanSet;
use std::alloc::Global;

/// What an edit makes of the tenths of a range.
#[derive(Clone, Copy)]
pub enum RangeEdit {
    // It blanks them.
    Blank,
    // It blanks them no longer.
    Unblank,
}

/// Whether the range begins before a window of so many hours, or ends past it.
pub fn reaches_out(hours: u32, from: Tenth, to: Tenth) -> bool
    ensures { result ≡ reaches_out hours from to }
{
    let end = 36_000 * hours as i64;
    from < 0 || end < to
}

// These tenths, and those of the range.
fn with_range(blanks: &SpanSet, from: Tenth, to: Tenth) -> Result<SpanSet, NoMemory>
    requires low { pos 0 ≤ℤ from }
    requires some { from <ℤ to }
    requires high { to ≤ℤ pos (2 ^ 40) }
    ensures { IfOk result (With blanks.now from to) }
{
    let mut all = blanks.copy()?;
    all.add(from, to)?;
    Ok(all)
}

// These tenths without those of the range.
fn without_range(blanks: &SpanSet, from: Tenth, to: Tenth) -> Result<SpanSet, NoMemory>
    requires { from <ℤ to }
    ensures { IfOk result (Without blanks.now from to) }
{
    let mut rest = blanks.copy()?;
    rest.remove(from, to)?;
    Ok(rest)
}

/// These tenths after the edit of the range.
pub fn edited(
    blanks: &SpanSet,
    edit: RangeEdit,
    from: Tenth,
    to: Tenth,
) -> Result<SpanSet, NoMemory>
    requires low { pos 0 ≤ℤ from }
    requires some { from <ℤ to }
    requires high { to ≤ℤ pos (2 ^ 40) }
    ensures { IfOk result (IsEdited edit blanks.now from to) }
{
    match edit {
        RangeEdit::Blank => with_range(blanks, from, to),
        RangeEdit::Unblank => without_range(blanks, from, to),
    }
}

// Whether none of these tenths is one of the hour.
fn none_blanked(blanks: &SpanSet, hour: Hour) -> bool
    requires { hour < 744 }
    ensures { IsTrue result → NoneBlanked blanks.now hour }
{
    let from = 36_000 * hour;
    if blanks.any_in(i64::from(from), i64::from(from + 36_000)) {
        return false;
    }
    true
}

// Of each hour up to this one, whether none of these tenths is one of it.
fn clear_hours(alloc: Global, blanks: &SpanSet, last: Hour) -> Result<Vec<bool>, NoMemory>
    requires { last < 744 }
    ensures { IfOk result (λ v. (k : ℕ) → is_as_was v.items k ≡ true
        → NoneBlanked blanks.now k) }
{
    let mut clear = Vec::new(alloc);
    for hour in 0..last + 1 {
        clear.push(none_blanked(blanks, hour))?;
    }
    Ok(clear)
}

/// Of each hour up to the last one of those that a range touches, whether the edit leaves it as
/// it was, where that can be told at once: it unblanks, and no tenth of the hour is blanked. Of one
/// hour alone nothing is told.
pub fn hours_as_were(
    alloc: Global,
    blanks: &SpanSet,
    edit: RangeEdit,
    first: Hour,
    last: Hour,
) -> Result<Vec<bool>, NoMemory>
    requires { last < 744 }
    ensures { IfOk result (λ v. (k : ℕ) → is_as_was v.items k ≡ true
        → LeavesHour edit blanks.now k) }
{
    if first == last {
        return Ok(Vec::new(alloc));
    }
    match edit {
        RangeEdit::Blank => Ok(Vec::new(alloc)),
        RangeEdit::Unblank => clear_hours(alloc, blanks, last),
    }
}
