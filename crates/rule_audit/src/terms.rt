// The clauses that rules say.
ghost use Rattle.std.specs.Prelude.{◌≡◌, ◌<◌, ◌≤◌, ◌^◌, ◌++◌, [], ◌∷◌, ℕ, List, Contains, IfOk, IsTrue, OnOk, bit_or};
ghost use Rattle.event_codes.specs.declared.channels.Kind.TheVariants as kinds;
ghost use Rattle.channel_tables.specs.PedTable as ped_colours;
ghost use Rattle.channel_tables.specs.PhaseTable as phase_colours;
ghost use Rattle.channel_tables.specs.OverlapTable as overlap_colours;
ghost use Rattle.board.specs.Verdicts.{AreClause};
ghost use Rattle.ring_config.specs.Sound.{IsOverlap, IsSound};
ghost use Rattle.rule_audit.specs.Channels.{IsPlace, IsTracked};
ghost use Rattle.rule_audit.specs.Rules.{colours_of, companion_terms, conflict_terms, each_number, is_conflict, is_in, is_parent, others, parent_term, parents_terms, served};

use board::{Clause, Term};
use colour_machine::Mask;
use event_codes::{Channel, Kind};
use ring_config::{Config, OverlapItem};
use sig_base::NoMemory;
use std::alloc::Global;

// The set of no colour.
fn no_colours() -> Mask
    ensures { result ≡ 0 }
{
    Mask::none()
}

// The set with one colour more.
fn with_colour(colours: Mask, colour: u8) -> Mask
    requires { colour < 16 }
    ensures { result ≡ bit_or colours (2 ^ colour) }
{
    colours.with(colour)
}

// The colours On, Green, Term, Yellow and Clear of a phase.
fn served() -> Mask
    ensures { result ≡ colours_of served }
{
    let green = with_colour(no_colours(), 2);
    let on = with_colour(green, 1);
    let term = with_colour(on, 3);
    let yellow = with_colour(term, 4);
    with_colour(yellow, 6)
}

// The colours Red, YellowDone and ClearDone of a phase.
fn not_served() -> Mask
    ensures { result ≡ colours_of (others kinds.Phase served) }
{
    let red = with_colour(no_colours(), 0);
    let yellow_done = with_colour(red, 5);
    with_colour(yellow_done, 7)
}

// The colours On and Green of a phase.
fn on_or_green() -> Mask
    ensures { result ≡ colours_of (phase_colours.on ∷ phase_colours.green ∷ []) }
{
    let on = with_colour(no_colours(), 1);
    with_colour(on, 2)
}

// The colours DontWalk, Clearance and Dark of a pedestrian signal.
fn no_walk() -> Mask
    ensures { result ≡ colours_of (others kinds.Ped (ped_colours.walk ∷ [])) }
{
    let dont_walk = with_colour(no_colours(), 0);
    let clearance = with_colour(dont_walk, 2);
    with_colour(clearance, 3)
}

// The colours Off, Trailing, Yellow, Clear and Dark of an overlap.
fn no_green() -> Mask
    ensures { result ≡ colours_of (others kinds.Overlap (overlap_colours.green ∷ [])) }
{
    let off = with_colour(no_colours(), 0);
    let trailing = with_colour(off, 2);
    let yellow = with_colour(trailing, 3);
    let clear = with_colour(yellow, 4);
    with_colour(clear, 5)
}

// The place among the specs of the channel of this kind and number.
fn place_of(config: &Config, kind: Kind, number: u8) -> u16
    requires { IsTracked config.now kind number }
    ensures { IsPlace config.now.specs kind number result }
{
    match config.spec_of(Channel { kind, number }) {
        Some(spec) => spec,
        None => unreachable!(),
    }
}

// The term that the channel is in one of the colours.
fn term(config: &Config, kind: Kind, number: u8, colours: Mask) -> Term
    requires { IsTracked config.now kind number }
    ensures { (cs : List ℕ) → colours ≡ colours_of cs → result
        ≡ is_in config.now.specs kind number cs }
{
    Term {
        spec: place_of(config, kind, number),
        colours,
    }
}

// The clause of these terms.
fn clause_of(terms: Vec<Term>) -> Clause
    requires { AreClause terms.items }
    ensures { result ≡ terms.items }
{
    match Clause::new(terms) {
        Some(clause) => clause,
        None => unreachable!(),
    }
}

/// One of the two phases isn't served.
pub(crate) fn conflict_clause(
    alloc: Global,
    config: &Config,
    a: u8,
    b: u8,
) -> Result<Clause, NoMemory>
    requires sound { IsSound config.now }
    requires conflict { IsTrue (is_conflict config.now a b) }
    ensures { IfOk result (λ c. c ≡ conflict_terms config.now.specs a b) }
{
    let mut terms = Vec::new(alloc);
    terms.push(term(config, Kind::Phase, a, not_served()))?;
    terms.push(term(config, Kind::Phase, b, not_served()))?;
    Ok(clause_of(terms))
}

/// The pedestrian signal doesn't show walk, or its phase is on or green.
pub(crate) fn companion_clause(alloc: Global, config: &Config, ped: u8) -> Result<Clause, NoMemory>
    requires sound { IsSound config.now }
    requires ped { IsTracked config.now kinds.Ped ped }
    ensures { IfOk result (λ c. c ≡ companion_terms config.now.specs ped) }
{
    let mut terms = Vec::new(alloc);
    terms.push(term(config, Kind::Ped, ped, no_walk()))?;
    terms.push(term(config, Kind::Phase, ped, on_or_green()))?;
    Ok(clause_of(terms))
}

/// The overlap isn't green, or one of its parents is served.
pub(crate) fn parents_clause(
    alloc: Global,
    config: &Config,
    overlap: &OverlapItem,
) -> Result<Clause, NoMemory>
    requires sound { IsSound config.now }
    requires overlap { Contains config.now.overlaps overlap.now }
    ensures { IfOk result (λ c. c ≡ parents_terms config.now.specs overlap.now) }
{
    let mut terms = Vec::new(alloc);
    terms.push(term(config, Kind::Overlap, overlap.number, no_green()))?;
    push_parents(&mut terms, config, overlap)?;
    Ok(clause_of(terms))
}

// The parents of the overlap, ascending.
fn push_parents(
    terms: &mut Vec<Term>,
    config: &Config,
    overlap: &OverlapItem,
) -> Result<(), NoMemory>
    requires { IsOverlap config.now.phases overlap.now }
    ensures { OnOk result (terms.new.items ≡ terms.old.items
        ++ each_number (parent_term config.now.specs overlap.now)) }
{
    for phase in 1..17u8 {
        push_parent(terms, config, overlap, phase)?;
    }
    Ok(())
}

// The phase, where it is a parent of the overlap.
fn push_parent(
    terms: &mut Vec<Term>,
    config: &Config,
    overlap: &OverlapItem,
    phase: u8,
) -> Result<(), NoMemory>
    requires overlap { IsOverlap config.now.phases overlap.now }
    requires low { 1 ≤ phase }
    requires high { phase ≤ 16 }
    ensures { OnOk result (terms.new.items ≡ terms.old.items
        ++ parent_term config.now.specs overlap.now phase) }
{
    if is_parent(overlap, phase) {
        terms.push(term(config, Kind::Phase, phase, served()))?;
        return Ok(());
    }
    Ok(())
}

fn is_parent(overlap: &OverlapItem, phase: u8) -> bool
    requires low { 1 ≤ phase }
    requires high { phase ≤ 16 }
    ensures { result ≡ is_parent overlap.now phase }
{
    overlap.parents.has(phase - 1)
}
