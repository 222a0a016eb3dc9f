// The call that finds a pair.
ghost use Rattle.std.specs.Prelude.{◌≡◌, ◌≢◌, ◌↔◌, ◌<◌, ℕ, ℤ, map, true, false, not, IfOk, MatchOption};
ghost use Rattle.reach.specs.Tests.{InBound};
ghost use Rattle.ring_config.specs.Sound.{IsBound};
ghost use Rattle.colour_machine.specs.Mask.{Has};
ghost use Rattle.rule_audit.specs.declared.rules.Rule.{Rule};
ghost use Rattle.rule_audit.specs.declared.rules.Rule.TheVariants.{Interval};
ghost use Rattle.rule_audit.specs.Rules.{rules_for};
ghost use Rattle.strand_search.specs.Runs.{TellsWithinHour};
ghost use Rattle.filling_pair.specs.Asks.{AreHolding, IsClauseOf, IsOpenClause, IsOpenRule, IsPair, IsTermOf, IsUndecided, NoneHolds, Shows, ShowsBoth, failing};
ghost use Rattle.filling_pair.specs.Kept.{IsLineOf};
ghost use Rattle.sig_base.specs.Reads.{Grow};

use crate::asks::{Ask, replies};
use crate::strands::{Pair, Strands};
use board::Term;
use channel_tables::Spec;
use colour_machine::Mask;
use hour_store::HourStore;
use reach::AgeBound;
use ring_config::{Config, IntervalItem};
use rule_audit::{AuditLine, Rule};
use sig_base::{NoMemory, Reads};
use std::alloc::Global;

// The ages that don't meet the bound.
fn opposite(bound: AgeBound) -> AgeBound
    requires { IsBound bound }
    ensures opposite { (t e : ℤ) → InBound result t e ↔ (InBound bound t e → ⊥) }
    ensures tells { TellsWithinHour result }
{
    match bound {
        AgeBound::AtLeast(age) => AgeBound::AtMost(age - 1),
        AgeBound::AtMost(age) => AgeBound::AtLeast(age + 1),
        AgeBound::Any => AgeBound::Any,
    }
}

// Strands that break an interval rule, or keep it: with the rule's colour at an age outside its
// bound, or not so.
#[tactic(auto, using(crate::proofs::Growing::grow_on, crate::proofs::Growing::grow_same))]
fn interval_strands<L>(
    alloc: Global,
    specs: &[Spec],
    store: &HourStore<L>,
    line: &AuditLine,
    item: &IntervalItem,
    breaks: bool,
    reads: &mut Reads<L>,
) -> Result<Strands, NoMemory>
    requires { IsOpenRule specs.now store.now line.now (Interval item.now) }
    ensures shows { IfOk result (Shows specs.now store.now line.now (Interval item.now)
        (not breaks)) }
    ensures grow { Grow reads.old reads.new }
{
    let ask = Ask {
        spec: item.spec,
        colours: Mask::none().with(item.colour),
        bound: opposite(item.bound),
        met: breaks,
    };
    match replies(alloc, specs, store, line, &[ask], reads)? {
        Some(strands) => Ok(strands),
        None => unreachable!(),
    }
}

#[tactic(auto, using(crate::proofs::Growing::grow_on, crate::proofs::Growing::grow_same))]
fn interval_pair<L>(
    alloc: Global,
    specs: &[Spec],
    store: &HourStore<L>,
    line: &AuditLine,
    item: &IntervalItem,
    reads: &mut Reads<L>,
) -> Result<Pair, NoMemory>
    requires { IsOpenRule specs.now store.now line.now (Interval item.now) }
    ensures both { IfOk result (ShowsBoth specs.now store.now line.now (Interval item.now)) }
    ensures grow { Grow reads.old reads.new }
{
    let keeps = interval_strands(alloc, specs, store, line, item, false, reads)?;
    let breaks = interval_strands(alloc, specs, store, line, item, true, reads)?;
    Ok(Pair { keeps, breaks })
}

// No term is to hold.
pub(crate) fn failing_asks(alloc: Global, terms: &[Term]) -> Result<Vec<Ask>, NoMemory>
    ensures { IfOk result (λ v. v.items ≡ map failing terms.now) }
{
    let mut asks = Vec::new(alloc);
    for term in terms {
        asks.push(Ask {
            spec: term.spec,
            colours: term.colours,
            bound: AgeBound::Any,
            met: false,
        })?;
    }
    Ok(asks)
}

// The colours of the term, where it is the channel's, else all.
fn colours_for(term: Term, spec: u16) -> Mask
    ensures own { term.spec ≡ spec → result ≡ term.colours }
    ensures other { term.spec ≢ spec → (x : ℕ) → x < 16 → Has result x }
{
    if term.spec == spec {
        return term.colours;
    }
    Mask::all()
}

// The term of the channel is to hold.
pub(crate) fn holding_asks(alloc: Global, terms: &[Term], spec: u16) -> Result<Vec<Ask>, NoMemory>
    ensures { IfOk result (λ v. AreHolding spec terms.now v.items) }
{
    let mut asks = Vec::new(alloc);
    for term in terms {
        asks.push(Ask {
            spec: term.spec,
            colours: colours_for(*term, spec),
            bound: AgeBound::Any,
            met: true,
        })?;
    }
    Ok(asks)
}

// Strands with which no term holds.
#[tactic(auto, using(crate::proofs::Growing::grow_on, crate::proofs::Growing::grow_same))]
fn clause_breaks<L>(
    alloc: Global,
    specs: &[Spec],
    store: &HourStore<L>,
    line: &AuditLine,
    terms: &[Term],
    reads: &mut Reads<L>,
) -> Result<Strands, NoMemory>
    requires { IsOpenClause specs.now store.now line.now terms.now }
    ensures shows { IfOk result (λ ss. (rule : Rule) → IsClauseOf rule terms.now
        → Shows specs.now store.now line.now rule false ss) }
    ensures grow { Grow reads.old reads.new }
{
    let asks = failing_asks(alloc, terms)?;
    match replies(alloc, specs, store, line, &asks, reads)? {
        Some(strands) => Ok(strands),
        None => unreachable!(),
    }
}

// Strands with which the term of the channel holds. None where no history has it hold.
#[tactic(auto, using(crate::proofs::Growing::grow_on, crate::proofs::Growing::grow_same))]
fn strands_holding<L>(
    alloc: Global,
    specs: &[Spec],
    store: &HourStore<L>,
    line: &AuditLine,
    terms: &[Term],
    one: Term,
    reads: &mut Reads<L>,
) -> Result<Option<Strands>, NoMemory>
    requires clause { IsOpenClause specs.now store.now line.now terms.now }
    requires one { IsTermOf one terms.now }
    ensures shows { IfOk result (λ r. MatchOption r (NoneHolds specs.now store.now line.now one)
        (λ ss. (rule : Rule) → IsClauseOf rule terms.now
        → Shows specs.now store.now line.now rule true ss)) }
    ensures grow { Grow reads.old reads.new }
{
    let asks = holding_asks(alloc, terms, one.spec)?;
    replies(alloc, specs, store, line, &asks, reads)
}

// Strands with which some term holds.
#[tactic(auto, using(crate::proofs::Growing::grow_on, crate::proofs::Growing::grow_same))]
fn clause_keeps<L>(
    alloc: Global,
    specs: &[Spec],
    store: &HourStore<L>,
    line: &AuditLine,
    terms: &[Term],
    reads: &mut Reads<L>,
) -> Result<Strands, NoMemory>
    requires { IsOpenClause specs.now store.now line.now terms.now }
    ensures shows { IfOk result (λ ss. (rule : Rule) → IsClauseOf rule terms.now
        → Shows specs.now store.now line.now rule true ss) }
    ensures grow { Grow reads.old reads.new }
{
    for i in 0..terms.len() {
        let found = strands_holding(alloc, specs, store, line, terms, terms[i], reads)?;
        if let Some(strands) = found {
            return Ok(strands);
        }
    }
    unreachable!()
}

#[tactic(auto, using(crate::proofs::Growing::grow_on, crate::proofs::Growing::grow_same))]
fn clause_pair<L>(
    alloc: Global,
    specs: &[Spec],
    store: &HourStore<L>,
    line: &AuditLine,
    terms: &[Term],
    reads: &mut Reads<L>,
) -> Result<Pair, NoMemory>
    requires { IsOpenClause specs.now store.now line.now terms.now }
    ensures both { IfOk result (λ p. (rule : Rule) → IsClauseOf rule terms.now
        → ShowsBoth specs.now store.now line.now rule p) }
    ensures grow { Grow reads.old reads.new }
{
    let keeps = clause_keeps(alloc, specs, store, line, terms, reads)?;
    let breaks = clause_breaks(alloc, specs, store, line, terms, reads)?;
    Ok(Pair { keeps, breaks })
}

// A pair for a rule.
fn pair_of<L>(
    alloc: Global,
    specs: &[Spec],
    store: &HourStore<L>,
    line: &AuditLine,
    rule: &Rule,
    reads: &mut Reads<L>,
) -> Result<Pair, NoMemory>
    requires { IsOpenRule specs.now store.now line.now rule.now }
    ensures both { IfOk result (ShowsBoth specs.now store.now line.now rule.now) }
    ensures grow { Grow reads.old reads.new }
{
    match rule {
        Rule::Interval(item) => interval_pair(alloc, specs, store, line, item, reads),
        Rule::Conflict(_, _, clause) => {
            clause_pair(alloc, specs, store, line, clause.terms(), reads)
        }
        Rule::Companion(_, clause) => clause_pair(alloc, specs, store, line, clause.terms(), reads),
        Rule::Parents(_, clause) => clause_pair(alloc, specs, store, line, clause.terms(), reads),
    }
}

/// Strands that keep an undecided line's rule at its place, and strands that break it. The hours of
/// the window are opened.
pub fn find_pair<L>(
    alloc: Global,
    config: &Config,
    rules: &[Rule],
    store: &HourStore<L>,
    line: &AuditLine,
    reads: &mut Reads<L>,
) -> Result<Pair, NoMemory>
    requires rules { rules.now ≡ rules_for config.now }
    requires line { IsLineOf store.now rules.now line.now }
    requires undecided { IsUndecided config.now.specs store.now rules.now line.now }
    ensures pair { IfOk result (IsPair config.now.specs store.now rules.now line.now) }
    ensures grow { Grow reads.old reads.new }
{
    let specs = config.specs();
    pair_of(
        alloc,
        specs,
        store,
        line,
        &rules[line.rule as usize - 1],
        reads,
    )
}
