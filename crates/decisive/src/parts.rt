// An obligation, channel by channel.
ghost use Rattle.std.specs.Prelude.{◌≡◌, IfOk, map};
ghost use Rattle.board.specs.declared.clause.Term.{Term};
ghost use Rattle.decisive.specs.Parts.{parts_of, term_part};

use crate::channel_keep::Keep;
use board::Term;
use rule_audit::Rule;
use sig_base::NoMemory;
use std::alloc::Global;

/// What the state of the channel with this place among the specs is to be.
#[derive(Clone, Copy, PartialEq, Eq)]
pub(crate) struct Part {
    pub(crate) spec: u16,
    pub(crate) keep: Keep,
}

/// What a rule asks of each of its channels: it is broken where none of them has such a state.
pub(crate) fn parts_of(alloc: Global, rule: &Rule) -> Result<Vec<Part>, NoMemory>
    ensures { IfOk result (λ v. v.items ≡ parts_of rule.now) }
{
    match rule {
        Rule::Interval(item) => {
            let mut parts = Vec::new(alloc);
            parts.push(Part {
                spec: item.spec,
                keep: Keep::Interval(item.colour, item.bound),
            })?;
            Ok(parts)
        }
        Rule::Conflict(_, _, clause) => parts_of_terms(alloc, clause.terms()),
        Rule::Companion(_, clause) => parts_of_terms(alloc, clause.terms()),
        Rule::Parents(_, clause) => parts_of_terms(alloc, clause.terms()),
    }
}

fn parts_of_terms(alloc: Global, terms: &[Term]) -> Result<Vec<Part>, NoMemory>
    ensures { IfOk result (λ v. v.items ≡ map term_part terms.now) }
{
    let mut parts = Vec::new(alloc);
    for term in terms {
        parts.push(Part {
            spec: term.spec,
            keep: Keep::Colours(term.colours),
        })?;
    }
    Ok(parts)
}
