// What a rule says of one channel's state at a place.
ghost use Rattle.std.specs.Prelude.{◌≡◌, ◌≢◌, ◌↔◌, ℕ, pos, ◌<◌, IsTrue, Some, List, length, slice_index_or, All};
ghost use Rattle.channel_tables.specs.Spec.{IsSpec, rules_of};
ghost use Rattle.sig_base.specs.declared.values.Row.{Row};
ghost use Rattle.channel_tables.specs.declared.spec.Spec.{Spec};
ghost use Rattle.reach.specs.Tests.{InBound};
ghost use Rattle.board.specs.Logs.{no_spec};
ghost use Rattle.rule_audit.specs.declared.lines.Place.TheVariants.{BeforeRow, EndOfTenth};
ghost use Rattle.rule_audit.specs.Judged.{KeepsInterval, Leaves};
ghost use Rattle.filling_pair.specs.Kept.{HoldsIn, IsPlaceOf, KeepsBy};
ghost use Rattle.filling_pair.specs.Walking.{state_of};

use crate::step::Stand;
use board::Term;
use channel_tables::{Spec, letter_of, machine_of};
use colour_machine::Machine;
use reach::AgeBound;
use ring_config::IntervalItem;
use rule_audit::{Place, Rule};
use sig_base::Row;

// Whether the letter changes the colour of the channel.
fn letter_leaves(spec: &Spec, letter: u8, colour: u8) -> bool
    requires fit { IsSpec spec.now }
    requires colour { colour < (rules_of spec.now).colours }
    ensures { IsTrue result
        ↔ ((d : ℕ) × ((rules_of spec.now).next colour letter ≡ Some d) × (d ≢ colour)) }
{
    let machine = machine_of(spec);
    if letter >= machine.letters() {
        return false;
    }
    match machine.step(colour, letter) {
        Some(to) => to != colour,
        None => false,
    }
}

// Whether the row changes the channel's colour away from this one.
fn leaves(spec: &Spec, row: Row, colour: u8) -> bool
    requires fit { IsSpec spec.now }
    requires colour { colour < (rules_of spec.now).colours }
    ensures { IsTrue result ↔ Leaves spec.now row colour }
{
    match letter_of(row.code, row.param) {
        Some(letter) => letter_leaves(spec, letter, colour),
        None => false,
    }
}

// Whether the state's age at the tenth meets the bound.
fn in_bound(bound: AgeBound, at: u32, here: Stand) -> bool
    ensures { IsTrue result ↔ InBound bound (pos at) here.entry }
{
    match bound {
        AgeBound::Any => true,
        AgeBound::AtLeast(age) => here.entry <= i64::from(at) - i64::from(age),
        AgeBound::AtMost(age) => i64::from(at) - i64::from(age) <= here.entry,
    }
}

// Whether the interval rule is kept with this state before the row.
fn keeps_interval(spec: &Spec, row: Row, item: &IntervalItem, here: Stand) -> bool
    requires fit { IsSpec spec.now }
    requires colour { here.colour < (rules_of spec.now).colours }
    ensures { IsTrue result ↔ KeepsInterval spec.now row item.now (state_of here) }
{
    if here.colour != item.colour {
        return true;
    }
    if leaves(spec, row, here.colour) {
        return in_bound(item.bound, row.at, here);
    }
    true
}

// Whether some term of the channel holds in the colour.
fn holds_in(terms: &[Term], spec: u16, colour: u8) -> bool
    requires { colour < 16 }
    ensures { IsTrue result ↔ HoldsIn terms.now spec colour }
{
    for term in terms {
        if term.spec == spec && term.colours.has(colour) {
            return true;
        }
    }
    false
}

// Whether the rule is kept with this state of the channel before the row.
fn keeps_before(specs: &[Spec], rows: &[Row], row: u32, rule: &Rule, spec: u16, here: Stand) -> bool
    requires specs { All IsSpec specs.now }
    requires within { spec < length specs.now }
    requires row { row < length rows.now }
    requires colour { here.colour < (rules_of (slice_index_or specs.now spec no_spec)).colours }
    ensures { IsTrue result
        ↔ KeepsBy specs.now rows.now (BeforeRow row) rule.now spec (state_of here) }
{
    match rule {
        Rule::Interval(item) => {
            if item.spec != spec {
                return false;
            }
            keeps_interval(&specs[spec as usize], rows[row as usize], item, here)
        }
        Rule::Conflict(_, _, _) => false,
        Rule::Companion(_, _) => false,
        Rule::Parents(_, _) => false,
    }
}

// Whether the rule is kept with this state of the channel at a tenth's end.
fn keeps_at_end(rule: &Rule, spec: u16, here: Stand) -> bool
    requires { here.colour < 16 }
    ensures { (specs : List Spec) (rows : List Row) → IsTrue result
        ↔ KeepsBy specs rows EndOfTenth rule.now spec (state_of here) }
{
    match rule {
        Rule::Interval(_) => false,
        Rule::Conflict(_, _, clause) => holds_in(clause.terms(), spec, here.colour),
        Rule::Companion(_, clause) => holds_in(clause.terms(), spec, here.colour),
        Rule::Parents(_, clause) => holds_in(clause.terms(), spec, here.colour),
    }
}

/// Whether the rule is kept with this state of the channel at the place, before one of these rows
/// of its hour or at a tenth's end.
pub(crate) fn keeps_by(
    specs: &[Spec],
    rows: &[Row],
    place: Place,
    rule: &Rule,
    spec: u16,
    here: Stand,
) -> bool
    requires specs { All IsSpec specs.now }
    requires within { spec < length specs.now }
    requires place { (at : ℕ) × IsPlaceOf rows.now at place }
    requires colour { here.colour < (rules_of (slice_index_or specs.now spec no_spec)).colours }
    ensures { IsTrue result ↔ KeepsBy specs.now rows.now place rule.now spec (state_of here) }
{
    match place {
        Place::BeforeRow(row) => keeps_before(specs, rows, row, rule, spec, here),
        Place::EndOfTenth => keeps_at_end(rule, spec, here),
    }
}
