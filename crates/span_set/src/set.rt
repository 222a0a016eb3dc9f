// A set of tenths.
ghost use Rattle.std.specs.Prelude.{◌≡◌, ℤ, pos, negsuc, ◌≤ℤ◌, ◌<ℤ◌, ◌^◌, ◌⊎◌, ◌↔◌, List, [], IsTrue, IfOk, OnOk, OnErr, MatchOption};
ghost use Rattle.span_set.specs.declared.set.Span.{Span};
ghost use Rattle.span_set.specs.Spans.{AnyIn, AreRanges, Member, Within, is_member};
ghost use Rattle.span_set.specs.Changes.{span};

use crate::{change, search};
use sig_base::{NoMemory, Tenth};
use smallvec::SmallVec;
use std::alloc::Global;
use std::marker::Model;

/// A range of tenths.
#[derive(Clone, Copy, Debug, Default, PartialEq, Eq)]
pub struct Span {
    /// Its first tenth.
    pub from: Tenth,
    /// The tenth after its last.
    pub to: Tenth,
}

/// Ranges, of which one is kept in the value itself, since nearly all sets have no more.
pub(crate) type Spans = SmallVec<Span, 1>;

/// A set of tenths, seen as the list of its ranges. It takes no memory until it has two ranges.
#[derive(Drop)]
pub struct SpanSet {
    spans: Spans,
    alloc: Global,
}

impl Model for SpanSet {
    ghost use Rattle.std.specs.Prelude.{List};
    ghost use Rattle.span_set.specs.declared.set.Span.{Span};
    ghost use Rattle.span_set.specs.Spans.{AreRanges};

    ghost Value = { List Span };

    ghost view = { λ s. s.spans.items };

    ghost invariant = { λ s. AreRanges s.spans.items };
}

impl SpanSet {
    /// The empty set. It can't run out of memory.
    pub fn new(alloc: Global) -> SpanSet
        ensures { result ≡ [] }
    {
        SpanSet {
            spans: SmallVec::new(alloc),
            alloc,
        }
    }

    /// Its ranges in order. No two of them overlap or touch, and none is empty.
    pub fn ranges(&self) -> &[Span]
        ensures value { result.now ≡ self.now }
        ensures ordered { AreRanges self.now }
    {
        &self.spans
    }

    /// Adds the tenths from `from` up to but without `to`. It takes memory only where the set
    /// then has one range more, and not that one alone, and moves only the ranges after the one
    /// that it adds.
    #[tactic(auto, using(crate::proofs::Adding::add_above, crate::proofs::Adding::add_members))]
    pub fn add(&mut self, from: Tenth, to: Tenth) -> Result<(), NoMemory>
        requires low { negsuc (2 ^ 40) <ℤ from }
        requires some { from <ℤ to }
        requires high { to ≤ℤ pos (2 ^ 40) }
        ensures ok { OnOk result ((e : ℤ) → Member self.new e
            ↔ (Member self.old e ⊎ Within (span from to) e)) }
        ensures err { OnErr result (self.new ≡ self.old) }
        ensures ordered { AreRanges self.new }
    {
        change::add(&mut self.spans, from, to)
    }

    /// Takes out the tenths from `from` up to but without `to`. It takes memory only where a range
    /// is cut in two, and moves only the ranges after the first that it changes.
    #[tactic(auto, using(crate::proofs::Cutting::cut_above, crate::proofs::Cutting::cut_members))]
    pub fn remove(&mut self, from: Tenth, to: Tenth) -> Result<(), NoMemory>
        requires { from <ℤ to }
        ensures ok { OnOk result ((e : ℤ) → Member self.new e
            ↔ (Member self.old e × (Within (span from to) e → ⊥))) }
        ensures err { OnErr result (self.new ≡ self.old) }
    {
        change::remove(&mut self.spans, from, to)
    }

    /// A set with the same members. It takes memory for all ranges, and none for a single one.
    pub fn copy(&self) -> Result<SpanSet, NoMemory>
        ensures { IfOk result (λ s. s ≡ self.now) }
    {
        Ok(SpanSet {
            spans: SmallVec::from_slice(self.alloc, &self.spans)?,
            alloc: self.alloc,
        })
    }

    /// Whether the tenth is a member.
    pub fn contains(&self, at: Tenth) -> bool
        ensures member { IsTrue result ↔ Member self.now at }
        ensures value { result ≡ is_member self.now at }
    {
        search::contains_in(&self.spans, at)
    }

    /// The least member.
    pub fn least(&self) -> Option<Tenth>
        ensures { MatchOption result ((e : ℤ) → Member self.now e → ⊥) (λ m. Member self.now m
            × ((e : ℤ) → Member self.now e → m ≤ℤ e)) }
    {
        search::least_in(&self.spans)
    }

    /// Whether some member lies from `from` up to but without `to`.
    pub fn any_in(&self, from: Tenth, to: Tenth) -> bool
        ensures { IsTrue result ↔ AnyIn self.now from to }
    {
        search::any_within(&self.spans, from, to)
    }

    /// Whether both have the same members.
    pub fn same(&self, other: &SpanSet) -> bool
        ensures value { IsTrue result ↔ (self.now ≡ other.now) }
        ensures members { IsTrue result ↔ ((e : ℤ) → Member self.now e ↔ Member other.now e) }
    {
        search::are_equal(&self.spans, &other.spans)
    }

    /// Takes out all members from the tenth on. It can't run out of memory.
    #[tactic(auto, using(crate::proofs::Cutting::keep_above, crate::proofs::Cutting::keep_members))]
    pub fn cut_from(&mut self, from: Tenth)
        ensures members { (e : ℤ) → Member self.new e ↔ (Member self.old e × (e <ℤ from)) }
        ensures only { (ss : List Span) → AreRanges ss → ((e : ℤ) → Member ss e
            ↔ (Member self.old e × (e <ℤ from))) → self.new ≡ ss }
    {
        change::cut_from(&mut self.spans, from);
    }

    /// Takes out all members, and keeps the room that they took.
    pub fn clear(&mut self)
        ensures { self.new ≡ [] }
    {
        self.spans.clear();
    }

    /// Puts the limit in place of all members below it. It can't run out of memory.
    pub fn clamp_below(&mut self, limit: Tenth)
        requires low { negsuc (2 ^ 40) <ℤ limit }
        requires high { limit ≤ℤ pos (2 ^ 40) }
        ensures { (e : ℤ) → Member self.new e ↔ ((Member self.old e × (limit ≤ℤ e))
            ⊎ ((e ≡ limit) × ((x : ℤ) × Member self.old x × (x <ℤ limit)))) }
    {
        if search::begins_below(&self.spans, limit) {
            change::clamp(&mut self.spans, limit);
        }
    }
}
