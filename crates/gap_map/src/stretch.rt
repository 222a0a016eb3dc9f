// The stretches of an hour.
ghost use Rattle.std.specs.Prelude.{◌≡◌, ◌+◌, ◌*◌, ◌<◌, ◌≤◌, ◌++◌, ℕ, ℤ, List, ◌∷◌, IfOk, OnOk};
ghost use Rattle.span_set.specs.declared.set.Span.{Span};
ghost use Rattle.span_set.specs.Spans.{Above, AreRanges};
ghost use Rattle.gap_map.specs.declared.stretch.Stretch.{Stretch};
ghost use Rattle.gap_map.specs.Stretches.{FollowOn, IsCut, known_in};
ghost use Rattle.gap_map.specs.Cuts.{clip, cut_of, known_part};

use sig_base::{Hour, NoMemory, Tenth};
use span_set::{Span, SpanSet};
use std::alloc::Global;

/// A range of tenths, all of them known or all unknown.
#[derive(Clone, Copy, Debug, PartialEq, Eq)]
pub struct Stretch {
    /// Its first tenth, from the window's start.
    pub from: u32,
    /// The tenth after its last.
    pub to: u32,
    pub known: bool,
}

/// The hour cut into stretches, in order: known and unknown ones by turns, none of them empty.
/// A tenth is known where the hour is held and `blanked` doesn't have it.
pub fn stretches(
    alloc: Global,
    hour: Hour,
    held: bool,
    blanked: &SpanSet,
) -> Result<Vec<Stretch>, NoMemory>
    requires { hour < 744 }
    ensures cut { IfOk result (λ v. IsCut (known_in held blanked.now) (36000 * hour)
        (36000 * hour + 36000) v.items) }
    ensures only { IfOk result (λ v. (ss : List Stretch)
        → IsCut (known_in held blanked.now) (36000 * hour) (36000 * hour + 36000) ss
        → ss ≡ v.items) }
{
    let from = 36_000 * hour;
    let to = from + 36_000;
    if held {
        let cut = known_and_blanked(alloc, from, to, reaching(blanked.ranges(), from, to))?;
        return Ok(cut);
    }
    let mut all = Vec::new(alloc);
    all.push(Stretch {
        from,
        to,
        known: false,
    })?;
    Ok(all)
}

/// The first tenth of the stretches, where they have one.
pub fn first_of(stretches: &[Stretch]) -> u32
    ensures { (from to : ℕ) → FollowOn from to stretches.now → from < to → result ≡ from }
{
    match stretches.first() {
        Some(stretch) => stretch.from,
        None => 0,
    }
}

// The ranges without those that end at the tenth or before.
fn ending_after(ranges: &[Span], from: u32) -> &[Span]
    requires { AreRanges ranges.now }
    ensures cut { (to : ℕ) → from ≤ to → cut_of from to result.now ≡ cut_of from to ranges.now }
    ensures ordered { (low : ℤ) × Above low result.now }
{
    let first = ranges.partition_point(|s| s.to <= i64::from(from));
    let (_ended, others) = ranges.split_at(first);
    others
}

// The ranges without those that begin at the tenth or after.
fn beginning_before(ranges: &[Span], to: u32) -> &[Span]
    requires { (low : ℤ) × Above low ranges.now }
    ensures { (from : ℕ) → from ≤ to → cut_of from to result.now ≡ cut_of from to ranges.now }
{
    let end = ranges.partition_point(|s| s.from < i64::from(to));
    &ranges[..end]
}

// The ranges that have tenths from `from` up to `to`.
fn reaching(ranges: &[Span], from: u32, to: u32) -> &[Span]
    requires order { from ≤ to }
    requires ordered { AreRanges ranges.now }
    ensures { cut_of from to result.now ≡ cut_of from to ranges.now }
{
    beginning_before(ending_after(ranges, from), to)
}

// The tenths from `from` up to `to`, cut by the blanked ranges.
fn known_and_blanked(
    alloc: Global,
    from: u32,
    to: u32,
    blanked: &[Span],
) -> Result<Vec<Stretch>, NoMemory>
    requires { from ≤ to }
    ensures { IfOk result (λ v. v.items ≡ cut_of from to blanked.now) }
{
    let mut out = Vec::new(alloc);
    let mut at = from;
    for s in blanked {
        at = pass(&mut out, at, to, *s)?;
    }
    push_known(&mut out, at, to)?;
    Ok(out)
}

// Puts the blanked range after the known tenths before it, and answers where it ends.
fn pass(out: &mut Vec<Stretch>, at: u32, to: u32, blanked: Span) -> Result<u32, NoMemory>
    requires { at ≤ to }
    ensures place { IfOk result (λ next. (at ≤ next) × (next ≤ to)) }
    ensures out { IfOk result (λ next. (ss : List Span)
        → out.new.items ++ cut_of next to ss ≡ out.old.items ++ cut_of at to (blanked ∷ ss)) }
{
    let first = clip(blanked.from, at, to);
    let last = clip(blanked.to, at, to);
    if last <= first {
        return Ok(at);
    }
    push_known(out, at, first)?;
    out.push(Stretch {
        from: first,
        to: last,
        known: false,
    })?;
    Ok(last)
}

// Puts the known tenths in, where there are some.
fn push_known(out: &mut Vec<Stretch>, from: u32, to: u32) -> Result<(), NoMemory>
    ensures { OnOk result (out.new.items ≡ out.old.items ++ known_part from to) }
{
    if from < to {
        out.push(Stretch {
            from,
            to,
            known: true,
        })?;
        return Ok(());
    }
    Ok(())
}

// The tenth, or the nearest one from `low` to `high`.
fn clip(at: Tenth, low: u32, high: u32) -> u32
    requires { low ≤ high }
    ensures { result ≡ clip at low high }
{
    at.max(i64::from(low)).min(i64::from(high)) as u32
}
