// The rules by channel.
ghost use Rattle.std.specs.Prelude.{◌≡◌, ◌↔◌, ◌+◌, ◌<◌, ◌≤◌, ℕ, Bool, true, false, Some, All, length, slice_index_or, IfOk};
ghost use Rattle.board.specs.Logs.{no_spec};
ghost use Rattle.rule_audit.specs.Pass.{FitsRule};
ghost use Rattle.rule_audit.specs.Index.{is_clause_on, is_picked, is_timed_on, no_rule, AreSkips, IsNext, IsSkips};

use crate::due::{is_of, is_of_some};
use crate::rules::Rule;
use channel_tables::Spec;
use event_codes::Channel;
use sig_base::NoMemory;
use std::alloc::Global;
use std::marker::Model;

/// For each place among the rules, and the one after them, the first place from there on of a rule
/// that is picked, or their number where none is. From the last to the first.
#[derive(Drop)]
pub(crate) struct Skips {
    next: Vec<u16>,
}

impl Model for Skips {
    ghost use Rattle.std.specs.Prelude.{List, ℕ};

    ghost Value = { List ℕ };

    ghost view = { λ s. s.next.items };
}

impl Skips {
    /// The first place from this one on of a rule that is picked, of so many rules.
    pub(crate) fn next(&self, count: usize, from: usize) -> usize
        requires count { length self.now ≡ count + 1 }
        requires from { from ≤ count }
        ensures { (p : ℕ → Bool) → IsSkips p count self.now → IsNext p count from result }
    {
        self.next[count - from] as usize
    }

    /// Whether no rule is picked, of so many rules.
    pub(crate) fn is_empty(&self, count: usize) -> bool
        requires { length self.now ≡ count + 1 }
        ensures { (p : ℕ → Bool) → IsSkips p count self.now
            → (result ≡ true ↔ ((x : ℕ) → x < count → p x ≡ false)) }
    {
        self.next(count, 0) == count
    }
}

// Whether the rule is an interval rule of the channel.
fn is_timed(specs: &[Spec], rule: &Rule, channel: Channel) -> bool
    requires { FitsRule specs.now rule.now }
    ensures { result ≡ is_timed_on specs.now (Some channel) rule.now }
{
    match rule {
        Rule::Interval(item) => is_of(specs, item.spec, Some(channel)),
        Rule::Conflict(_, _, _) => false,
        Rule::Companion(_, _) => false,
        Rule::Parents(_, _) => false,
    }
}

// Whether the rule is a clause with a term of the channel.
fn is_clause_of(specs: &[Spec], rule: &Rule, channel: Channel) -> bool
    requires { FitsRule specs.now rule.now }
    ensures { result ≡ is_clause_on specs.now (Some channel) rule.now }
{
    match rule {
        Rule::Interval(_) => false,
        Rule::Conflict(_, _, clause) => is_of_some(specs, clause.terms(), Some(channel)),
        Rule::Companion(_, clause) => is_of_some(specs, clause.terms(), Some(channel)),
        Rule::Parents(_, clause) => is_of_some(specs, clause.terms(), Some(channel)),
    }
}

// Whether the rule with this place is picked.
fn is_picked(specs: &[Spec], rules: &[Rule], clauses: bool, channel: Channel, place: usize) -> bool
    requires fit { All (FitsRule specs.now) rules.now }
    requires place { place < length rules.now }
    ensures { result ≡ is_picked specs.now rules.now clauses channel place }
{
    if clauses {
        return is_clause_of(specs, &rules[place], channel);
    }
    is_timed(specs, &rules[place], channel)
}

// The places of the rules that are picked.
fn skips_of(
    alloc: Global,
    specs: &[Spec],
    rules: &[Rule],
    clauses: bool,
    channel: Channel,
) -> Result<Skips, NoMemory>
    requires fit { All (FitsRule specs.now) rules.now }
    requires few { length rules.now ≤ 1000 }
    ensures { IfOk result (λ s. IsSkips (is_picked specs.now rules.now clauses channel)
        (length rules.now) s) }
{
    let count = rules.len();
    let mut last = count as u16;
    let mut next = vec![in alloc; last]?;
    for turn in 0..count {
        let place = count - 1 - turn;
        if is_picked(specs, rules, clauses, channel, place) {
            last = place as u16;
        }
        next.push(last)?;
    }
    Ok(Skips { next })
}

/// For each channel the places of its interval rules, or of the clauses with a term of it.
pub(crate) fn all_skips(
    alloc: Global,
    specs: &[Spec],
    rules: &[Rule],
    clauses: bool,
) -> Result<Vec<Skips>, NoMemory>
    requires fit { All (FitsRule specs.now) rules.now }
    requires few { length rules.now ≤ 1000 }
    ensures { IfOk result (λ v. AreSkips specs.now rules.now clauses (length specs.now) v.items) }
{
    let mut lists = Vec::with_capacity(alloc, specs.len())?;
    for i in 0..specs.len() {
        lists.push(skips_of(alloc, specs, rules, clauses, specs[i].channel)?)?;
    }
    Ok(lists)
}
