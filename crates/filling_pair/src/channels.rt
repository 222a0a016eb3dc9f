// Whether there is one strand for each channel of a rule.
ghost use Rattle.std.specs.Prelude.{◌↔◌, ℕ, ◌<◌, IsTrue};
ghost use Rattle.board.specs.Verdicts.{HasSpec};
ghost use Rattle.filling_pair.specs.Strands.{Ascend, HasStrand, IsAbout};

use crate::strands::Strand;
use board::{Term, has_spec};
use rule_audit::Rule;

// Whether the rule is about the channel.
fn is_about(rule: &Rule, spec: u16) -> bool
    ensures { IsTrue result ↔ IsAbout rule.now spec }
{
    match rule {
        Rule::Interval(item) => item.spec == spec,
        Rule::Conflict(_, _, clause) => has_spec(clause.terms(), spec),
        Rule::Companion(_, clause) => has_spec(clause.terms(), spec),
        Rule::Parents(_, clause) => has_spec(clause.terms(), spec),
    }
}

// Whether one of the strands is of the channel.
fn has_strand(strands: &[Strand], spec: u16) -> bool
    ensures { IsTrue result ↔ HasStrand spec strands.now }
{
    for strand in strands {
        if strand.spec == spec {
            return true;
        }
    }
    false
}

// Whether each strand's channel is after that of the one in front of it.
fn ascend(strands: &[Strand]) -> bool
    ensures { IsTrue result ↔ Ascend 0 strands.now }
{
    let mut low: u32 = 0;
    for strand in strands {
        if (strand.spec as u32) < low {
            return false;
        }
        low = strand.spec as u32 + 1;
    }
    true
}

// Whether the rule is about each strand's channel.
fn all_about(rule: &Rule, strands: &[Strand]) -> bool
    ensures { IsTrue result ↔ ((i : ℕ) → HasStrand i strands.now → IsAbout rule.now i) }
{
    for strand in strands {
        if !is_about(rule, strand.spec) {
            return false;
        }
    }
    true
}

// Whether each term's channel has a strand.
fn each_term_has(terms: &[Term], strands: &[Strand]) -> bool
    ensures { IsTrue result ↔ ((i : ℕ) → HasSpec i terms.now → HasStrand i strands.now) }
{
    for term in terms {
        if !has_strand(strands, term.spec) {
            return false;
        }
    }
    true
}

// Whether each channel of the rule has a strand.
fn all_there(rule: &Rule, strands: &[Strand]) -> bool
    ensures { IsTrue result ↔ ((i : ℕ) → IsAbout rule.now i → HasStrand i strands.now) }
{
    match rule {
        Rule::Interval(item) => has_strand(strands, item.spec),
        Rule::Conflict(_, _, clause) => each_term_has(clause.terms(), strands),
        Rule::Companion(_, clause) => each_term_has(clause.terms(), strands),
        Rule::Parents(_, clause) => each_term_has(clause.terms(), strands),
    }
}

/// Whether there is one strand for each channel of the rule, by ascending channel.
pub(crate) fn are_channels(rule: &Rule, strands: &[Strand]) -> bool
    ensures { IsTrue result
        ↔ (Ascend 0 strands.now × ((i : ℕ) → HasStrand i strands.now ↔ IsAbout rule.now i)) }
{
    ascend(strands) && all_about(rule, strands) && all_there(rule, strands)
}
