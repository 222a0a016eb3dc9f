// Questions about ranges in order.
ghost use Rattle.std.specs.Prelude.{◌≡◌, ℤ, ◌≤ℤ◌, ◌<ℤ◌, ◌+◌, ◌<◌, ◌≤◌, ◌↔◌, take, length, slice_index_or, IsTrue, IsFalse, MatchOption};
ghost use Rattle.span_set.specs.declared.set.Span.{Span};
ghost use Rattle.span_set.specs.Spans.{AnyIn, AreRanges, BeginsBelow, Member};
ghost use Rattle.span_set.specs.Changes.{AllEnd};

use crate::set::Span;
use sig_base::Tenth;

/// Whether two lists of ranges are the same.
pub fn are_equal(a: &[Span], b: &[Span]) -> bool
    ensures { IsTrue result ↔ (a.now ≡ b.now) }
{
    a == b
}

/// The least tenth, or `None` of no ranges.
pub fn least_in(spans: &[Span]) -> Option<Tenth>
    requires { AreRanges spans.now }
    ensures { MatchOption result ((e : ℤ) → Member spans.now e → ⊥) (λ m. Member spans.now m
        × ((e : ℤ) → Member spans.now e → m ≤ℤ e)) }
{
    match spans {
        [] => None,
        [first, ..] => Some(first.from),
    }
}

/// Whether a tenth lies in one of the ranges.
pub fn contains_in(spans: &[Span], at: Tenth) -> bool
    ensures { IsTrue result ↔ Member spans.now at }
{
    for s in spans {
        if s.from <= at && at < s.to {
            return true;
        }
    }
    false
}

/// Whether a tenth of `from` up to but without `to` lies in one of the ranges.
#[tactic(auto, using(crate::proofs::Sets::any_found, crate::proofs::Sets::any_skip))]
pub fn any_within(spans: &[Span], from: Tenth, to: Tenth) -> bool
    requires { AreRanges spans.now }
    ensures { IsTrue result ↔ AnyIn spans.now from to }
{
    for s in spans {
        if s.from.max(from) < s.to.min(to) {
            return true;
        }
    }
    false
}

/// Whether the first range begins below the limit.
pub fn begins_below(spans: &[Span], limit: Tenth) -> bool
    ensures { IsTrue result ↔ BeginsBelow limit spans.now }
{
    match spans {
        [] => false,
        [first, ..] => first.from < limit,
    }
}

/// How many of the first ranges end at the tenth or before.
pub fn ended_by(spans: &[Span], at: Tenth) -> usize
    ensures within { result ≤ length spans.now }
    ensures ended { AllEnd at (take result spans.now) }
    ensures next { result < length spans.now → (d : Span)
        → at <ℤ (slice_index_or spans.now result d).to }
{
    for (i, s) in spans.iter().enumerate() {
        if at < s.to {
            return i;
        }
    }
    spans.len()
}

/// Whether all ranges end at the tenth or before, by the last one.
pub fn all_ended(spans: &[Span], at: Tenth) -> bool
    requires { AreRanges spans.now }
    ensures { IsTrue result → AllEnd at spans.now }
{
    match spans {
        [] => true,
        [.., last] => is_by(last.to, at),
    }
}

fn is_by(a: Tenth, b: Tenth) -> bool
    ensures { IsTrue result ↔ (a ≤ℤ b) }
{
    a <= b
}

/// Whether there is a range at the place, and it begins at the tenth or before.
pub fn begins_by(spans: &[Span], at: usize, tenth: Tenth) -> bool
    ensures within { IsTrue result → at < length spans.now }
    ensures yes { IsTrue result → (d : Span) → (slice_index_or spans.now at d).from ≤ℤ tenth }
    ensures no { IsFalse result → at < length spans.now → (d : Span)
        → tenth <ℤ (slice_index_or spans.now at d).from }
{
    if at < spans.len() {
        return spans[at].from <= tenth;
    }
    false
}
