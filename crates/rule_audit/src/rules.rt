// The rules with their numbers.
ghost use Rattle.std.specs.Prelude.{◌≡◌, ◌++◌, Contains, IfOk, OnOk, map};
ghost use Rattle.ring_config.specs.Sound.{IsSound};
ghost use Rattle.rule_audit.specs.declared.rules.Rule.TheVariants.{Interval};
ghost use Rattle.rule_audit.specs.Rules.{companion_rule, companion_rules, conflict_rule, conflict_rules, each_number, is_conflict, parents_rule, parents_rule_of, parents_rules, rules_for};

use crate::terms::{companion_clause, conflict_clause, parents_clause};
use board::Clause;
use ring_config::{Config, IntervalItem, OverlapItem};
use sig_base::{NoMemory, has_number, has_phase};
use std::alloc::Global;

/// An audit rule. The numbers are those of the phases, the pedestrian signal or the overlap.
#[derive(Drop)]
pub enum Rule {
    /// How long a colour of a channel is to last: judged at each known row of the channel, which may
    /// end the colour, by the states just before it. A colour that ends at no known tenth of the
    /// window isn't judged, however long it lasts.
    Interval(IntervalItem),
    /// Two phases that aren't served together, the lower number first.
    Conflict(u8, u8, Clause),
    /// Walk is shown only while the signal's own phase is on or green.
    Companion(u8, Clause),
    /// The overlap is green only while one of its parents is served.
    Parents(u8, Clause),
}

/// The rules of a configuration: interval rules in file order, then conflicts by their phases,
/// companions by the number of the pedestrian signal, and parents by the number of the overlap. The
/// first rule has number 1.
#[tactic(auto, unfolding(crate::specs::Rules::rules_for))]
pub fn rules_of(alloc: Global, config: &Config) -> Result<Vec<Rule>, NoMemory>
    ensures { IfOk result (λ v. v.items ≡ rules_for config.now) }
{
    let mut rules = interval_rules(alloc, config.intervals())?;
    push_conflicts(&mut rules, alloc, config)?;
    push_companions(&mut rules, alloc, config)?;
    push_all_parents(&mut rules, alloc, config)?;
    Ok(rules)
}

fn interval_rules(alloc: Global, items: &[IntervalItem]) -> Result<Vec<Rule>, NoMemory>
    ensures { IfOk result (λ v. v.items ≡ map Interval items.now) }
{
    let mut rules = Vec::new(alloc);
    for item in items {
        rules.push(Rule::Interval(*item))?;
    }
    Ok(rules)
}

fn push_conflicts(rules: &mut Vec<Rule>, alloc: Global, config: &Config) -> Result<(), NoMemory>
    requires { IsSound config.now }
    ensures { OnOk result (rules.new.items ≡ rules.old.items ++ conflict_rules config.now) }
{
    for a in 1..17u8 {
        push_conflicts_of(rules, alloc, config, a)?;
    }
    Ok(())
}

// The conflicts of which the phase is the first.
fn push_conflicts_of(
    rules: &mut Vec<Rule>,
    alloc: Global,
    config: &Config,
    a: u8,
) -> Result<(), NoMemory>
    requires { IsSound config.now }
    ensures { OnOk result (rules.new.items ≡ rules.old.items
        ++ each_number (conflict_rule config.now a)) }
{
    for b in 1..17u8 {
        push_conflict(rules, alloc, config, a, b)?;
    }
    Ok(())
}

fn push_conflict(
    rules: &mut Vec<Rule>,
    alloc: Global,
    config: &Config,
    a: u8,
    b: u8,
) -> Result<(), NoMemory>
    requires { IsSound config.now }
    ensures { OnOk result (rules.new.items ≡ rules.old.items ++ conflict_rule config.now a b) }
{
    if is_conflict(config, a, b) {
        let clause = conflict_clause(alloc, config, a, b)?;
        rules.push(Rule::Conflict(a, b, clause))?;
        return Ok(());
    }
    Ok(())
}

// Whether these are two configured phases, the lower number first, that conflict.
fn is_conflict(config: &Config, a: u8, b: u8) -> bool
    ensures { result ≡ is_conflict config.now a b }
{
    if a < b && has_phase(config.phases(), a) && has_phase(config.phases(), b) {
        return config.conflicts(a, b);
    }
    false
}

fn push_companions(rules: &mut Vec<Rule>, alloc: Global, config: &Config) -> Result<(), NoMemory>
    requires { IsSound config.now }
    ensures { OnOk result (rules.new.items ≡ rules.old.items ++ companion_rules config.now) }
{
    for ped in 1..17u8 {
        push_companion(rules, alloc, config, ped)?;
    }
    Ok(())
}

fn push_companion(
    rules: &mut Vec<Rule>,
    alloc: Global,
    config: &Config,
    ped: u8,
) -> Result<(), NoMemory>
    requires { IsSound config.now }
    ensures { OnOk result (rules.new.items ≡ rules.old.items ++ companion_rule config.now ped) }
{
    if has_number(config.peds(), ped) {
        let clause = companion_clause(alloc, config, ped)?;
        rules.push(Rule::Companion(ped, clause))?;
        return Ok(());
    }
    Ok(())
}

fn push_all_parents(rules: &mut Vec<Rule>, alloc: Global, config: &Config) -> Result<(), NoMemory>
    requires { IsSound config.now }
    ensures { OnOk result (rules.new.items ≡ rules.old.items ++ parents_rules config.now) }
{
    for number in 1..17u8 {
        push_parents_of(rules, alloc, config, number)?;
    }
    Ok(())
}

// The rule of the overlap of this number, where there is one.
fn push_parents_of(
    rules: &mut Vec<Rule>,
    alloc: Global,
    config: &Config,
    number: u8,
) -> Result<(), NoMemory>
    requires { IsSound config.now }
    ensures { OnOk result (rules.new.items ≡ rules.old.items ++ parents_rule config.now number) }
{
    let overlaps = config.overlaps();
    for overlap in overlaps {
        push_parents(rules, alloc, config, overlap, number)?;
    }
    Ok(())
}

// The rule of the overlap, where it has this number.
fn push_parents(
    rules: &mut Vec<Rule>,
    alloc: Global,
    config: &Config,
    overlap: &OverlapItem,
    number: u8,
) -> Result<(), NoMemory>
    requires sound { IsSound config.now }
    requires overlap { Contains config.now.overlaps overlap.now }
    ensures { OnOk result (rules.new.items ≡ rules.old.items
        ++ parents_rule_of config.now number overlap.now) }
{
    if overlap.number == number {
        let clause = parents_clause(alloc, config, overlap)?;
        rules.push(Rule::Parents(number, clause))?;
        return Ok(());
    }
    Ok(())
}
