// Changes of ranges in place.
ghost use Rattle.std.specs.Prelude.{◌≡◌, ℤ, pos, negsuc, ◌≤ℤ◌, ◌<ℤ◌, ◌^◌, ◌∷◌, ◌++◌, ◌+◌, ◌<◌, ◌≤◌, take, drop, length, IfOk, OnOk, OnErr};
ghost use Rattle.std.specs.Int.{int_max, int_min};
ghost use Rattle.smallvec.specs.SmallVec.{small_vec_len};
ghost use Rattle.span_set.specs.Spans.{AreRanges, BeginsBelow};
ghost use Rattle.span_set.specs.Changes.{span, add_to, join, cut, part_before, from_on, keep_to, squash};

use crate::search::{all_ended, begins_by, ended_by};
use crate::set::{Span, Spans};
use sig_base::{NoMemory, Tenth};

/// A range after all others is added in one step.
pub fn add(spans: &mut Spans, from: Tenth, to: Tenth) -> Result<(), NoMemory>
    requires low { negsuc (2 ^ 40) <ℤ from }
    requires ordered { AreRanges spans.old.items }
    ensures ok { OnOk result (spans.new.items ≡ add_to from to spans.old.items) }
    ensures err { OnErr result (spans.new.items ≡ spans.old.items) }
{
    if all_ended(spans, from - 1) {
        spans.push(Span { from, to })?;
        return Ok(());
    }
    add_within(spans, from, to)
}

fn add_within(spans: &mut Spans, from: Tenth, to: Tenth) -> Result<(), NoMemory>
    requires low { negsuc (2 ^ 40) <ℤ from }
    ensures ok { OnOk result (spans.new.items ≡ add_to from to spans.old.items) }
    ensures err { OnErr result (spans.new.items ≡ spans.old.items) }
{
    let first = ended_by(spans, from - 1);
    let joint = joined(&spans[first..], Span { from, to });
    put_in_place(spans, first, joint)
}

// A range, and how many of the ranges at a place it stands for.
#[derive(Clone, Copy)]
struct Joint {
    range: Span,
    count: usize,
}

// The new range with the ranges that it meets.
fn joined(rest: &[Span], new: Span) -> Joint
    ensures within { result.count ≤ length rest.now }
    ensures join { join new.from new.to rest.now ≡ result.range ∷ drop result.count rest.now }
{
    let mut range = new;
    for (count, s) in rest.iter().enumerate() {
        if range.to < s.from {
            return Joint { range, count };
        }
        range = cover(range, *s);
    }
    Joint {
        range,
        count: rest.len(),
    }
}

// The least range that has both in it.
fn cover(a: Span, b: Span) -> Span
    ensures { result ≡ span (int_min a.from b.from) (int_max a.to b.to) }
{
    Span {
        from: a.from.min(b.from),
        to: a.to.max(b.to),
    }
}

// Puts the range in place of those at `first` that it stands for.
fn put_in_place(spans: &mut Spans, first: usize, joint: Joint) -> Result<(), NoMemory>
    requires { first + joint.count ≤ small_vec_len spans.old }
    ensures ok { OnOk result (spans.new.items ≡ take first spans.old.items ++ joint.range
        ∷ drop (first + joint.count) spans.old.items) }
    ensures err { OnErr result (spans.new.items ≡ spans.old.items) }
{
    if joint.count == 0 {
        spans.insert(first, joint.range)?;
        return Ok(());
    }
    spans[first] = joint.range;
    take_out(spans, first + 1, first + joint.count);
    Ok(())
}

// Takes out the ranges from the place `first` up to the place `last`.
fn take_out(spans: &mut Spans, first: usize, last: usize)
    requires order { first ≤ last }
    requires within { last ≤ small_vec_len spans.old }
    ensures { spans.new.items ≡ take first spans.old.items ++ drop last spans.old.items }
{
    if first < last {
        let len = spans.len();
        spans.copy_within(last..len, first);
        spans.truncate(len - (last - first));
    }
}

/// Takes out the tenths of `from` up to but without `to`.
pub fn remove(spans: &mut Spans, from: Tenth, to: Tenth) -> Result<(), NoMemory>
    requires { from <ℤ to }
    ensures ok { OnOk result (spans.new.items ≡ cut from to spans.old.items) }
    ensures err { OnErr result (spans.new.items ≡ spans.old.items) }
{
    let first = ended_by(spans, from);
    let last = first + ended_by(&spans[first..], to);
    let gap = keep_before(spans, first, last, from)?;
    take_out(spans, gap.first, gap.last);
    begin_at(spans, gap.first, to);
    Ok(())
}

// The places from `first` up to `last`.
#[derive(Clone, Copy)]
struct Places {
    first: usize,
    last: usize,
}

// Keeps what the range at `first` has before the tenth, and answers the places that are to be
// taken out of those from `first` up to `last`.
fn keep_before(
    spans: &mut Spans,
    first: usize,
    last: usize,
    from: Tenth,
) -> Result<Places, NoMemory>
    requires order { first ≤ last }
    requires within { last ≤ small_vec_len spans.old }
    ensures order { IfOk result (λ p. (p.first ≤ p.last) × (p.last ≤ small_vec_len spans.new)) }
    ensures kept { IfOk result (λ p. take p.first spans.new.items ≡ take first spans.old.items
        ++ part_before from (drop first spans.old.items)) }
    ensures rest { IfOk result (λ p. drop p.last spans.new.items ≡ drop last spans.old.items) }
    ensures err { OnErr result (spans.new.items ≡ spans.old.items) }
{
    if first == spans.len() {
        return Ok(Places { first, last });
    }
    let cut = spans[first];
    if from <= cut.from {
        return Ok(Places { first, last });
    }
    let left = Span {
        from: cut.from,
        to: from,
    };
    if first == last {
        spans.insert(first, left)?;
        return Ok(Places {
            first: first + 1,
            last: first + 1,
        });
    }
    spans[first] = left;
    Ok(Places {
        first: first + 1,
        last,
    })
}

// Lets the range at the place begin no earlier than the tenth.
fn begin_at(spans: &mut Spans, at: usize, to: Tenth)
    requires { at ≤ small_vec_len spans.old }
    ensures { spans.new.items ≡ take at spans.old.items ++ from_on to (drop at spans.old.items) }
{
    if at < spans.len() {
        let s = spans[at];
        spans[at] = Span {
            from: s.from.max(to),
            to: s.to,
        };
    }
}

/// Takes out all from the tenth on.
pub fn cut_from(spans: &mut Spans, from: Tenth)
    ensures { spans.new.items ≡ keep_to from spans.old.items }
{
    let kept = ended_by(spans, from);
    trim(spans, kept, from);
}

// Keeps the ranges before the place, and what the one there has before the tenth.
fn trim(spans: &mut Spans, kept: usize, from: Tenth)
    requires { kept ≤ small_vec_len spans.old }
    ensures { spans.new.items ≡ take kept spans.old.items
        ++ part_before from (drop kept spans.old.items) }
{
    if kept == spans.len() {
        return;
    }
    let mut cut = spans[kept];
    if from <= cut.from {
        spans.truncate(kept);
        return;
    }
    cut.to = from;
    spans[kept] = cut;
    spans.truncate(kept + 1);
}

/// Puts the limit in place of all below it.
pub fn clamp(spans: &mut Spans, limit: Tenth)
    requires low { negsuc (2 ^ 40) <ℤ limit }
    requires high { limit ≤ℤ pos (2 ^ 40) }
    requires below { BeginsBelow limit spans.old.items }
    ensures { spans.new.items ≡ squash limit spans.old.items }
{
    let passed = ended_by(spans, limit);
    if begins_by(spans, passed, limit + 1) {
        let to = spans[passed].to;
        put_front(spans, passed + 1, Span { from: limit, to });
        return;
    }
    put_front(
        spans,
        passed,
        Span {
            from: limit,
            to: limit + 1,
        },
    );
}

// Puts the range in place of the first ones.
fn put_front(spans: &mut Spans, count: usize, s: Span)
    requires some { 0 < count }
    requires within { count ≤ small_vec_len spans.old }
    ensures { spans.new.items ≡ s ∷ drop count spans.old.items }
{
    spans[0] = s;
    take_out(spans, 1, count);
}
