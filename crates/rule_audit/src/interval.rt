// The verdict on an interval rule before a row.
ghost use Rattle.std.specs.Prelude.{◌≡◌, ◌≢◌, ◌↔◌, ℕ, ℤ, pos, ◌<◌, true, IsTrue, Some, length};
ghost use Rattle.event_codes.specs.Channels.{channel_in_table};
ghost use Rattle.gap_map.specs.Stretches.{known_at};
ghost use Rattle.channel_tables.specs.Spec.{IsSpec, rules_of};
ghost use Rattle.channel_tables.specs.Tables.{table_of};
ghost use Rattle.reach.specs.Tests.{InBound};
ghost use Rattle.ring_config.specs.Sound.{IsBound};
ghost use Rattle.board.specs.Places.{IsRowPlace};
ghost use Rattle.board.specs.Verdicts.{MayPassRow};
ghost use Rattle.rule_audit.specs.Judged.{Closes, IsIntervalVerdict, KeepsInterval, Leaves};
ghost use Rattle.rule_audit.specs.Pass.{log_of, row_at, spec_at, Ends, FitsItem, IsKnownRow, IsLogOf, IsReady, SeesColour};

use crate::hour::AuditedHour;
use channel_tables::{Spec, letter_of_kind, machine_of};
use colour_machine::{Machine, Mask};
use reach::{AgeBound, Seen, Test};
use ring_config::IntervalItem;
use sig_base::{Row, Verdict};

// Whether the letter changes the colour of the channel.
fn letter_leaves(spec: &Spec, letter: u8, colour: u8) -> bool
    requires fit { IsSpec spec.now }
    requires colour { colour < (rules_of spec.now).colours }
    requires letter { letter < (rules_of spec.now).letters }
    ensures { IsTrue result ↔ ((d : ℕ) × ((rules_of spec.now).next colour letter ≡ Some d)
        × (d ≢ colour)) }
{
    let machine = machine_of(spec);
    match machine.step(colour, letter) {
        Some(to) => to != colour,
        None => false,
    }
}

// Whether the row, which is of the channel, changes its colour away from this one.
fn leaves(spec: &Spec, row: Row, colour: u8) -> bool
    requires fit { IsSpec spec.now }
    requires colour { colour < length (table_of spec.now.channel.kind).names }
    requires own { channel_in_table row.code row.param ≡ Some spec.now.channel }
    ensures { IsTrue result ↔ Leaves spec.now row colour }
{
    match letter_of_kind(spec.channel.kind, row.code, row.param) {
        Some(letter) => letter_leaves(spec, letter, colour),
        None => false,
    }
}

// The ages that don't meet the bound.
fn opposite(bound: AgeBound) -> AgeBound
    requires { IsBound bound }
    ensures { (t e : ℤ) → InBound result t e ↔ (InBound bound t e → ⊥) }
{
    match bound {
        AgeBound::AtLeast(age) => AgeBound::AtMost(age - 1),
        AgeBound::AtMost(age) => AgeBound::AtLeast(age + 1),
        AgeBound::Any => AgeBound::Any,
    }
}

// Whether the channel may have the colour before the row, at its place among the channel's moves,
// with an age in the bound, and whether it may be otherwise.
fn colour_seen(
    hour: &AuditedHour<'_>,
    index: u32,
    item: &IntervalItem,
    place: usize,
    bound: AgeBound,
) -> Seen
    requires ready { IsReady hour.now }
    requires item { FitsItem hour.now.specs.now item.now }
    requires index { index < length hour.now.rows.now }
    requires place { IsRowPlace hour.now.view.now (pos (row_at hour.now index).at) index
        item.now.spec place }
    ensures { (e : Ends) → IsLogOf hour.now e → known_at hour.now.stretches.now
        (row_at hour.now index).at ≡ true → SeesColour
        (MayPassRow (log_of hour.now e) index item.now.spec) item.now.colour bound
        (pos (row_at hour.now index).at) result }
{
    let test = Test {
        colours: Mask::none().with(item.colour),
        bound,
        at: i64::from(hour.rows[index as usize].at),
    };
    hour.view.seen_at_place(item.spec, place, &test)
}

// The place before the row among the moves of the rule's channel.
fn place_of(hour: &AuditedHour<'_>, index: u32, item: &IntervalItem) -> usize
    requires ready { IsReady hour.now }
    requires item { FitsItem hour.now.specs.now item.now }
    requires index { index < length hour.now.rows.now }
    ensures { IsRowPlace hour.now.view.now (pos (row_at hour.now index).at) index item.now.spec
        result }
{
    let at = i64::from(hour.rows[index as usize].at);
    hour.view.place_before_row(index, item.spec, at)
}

// The verdict before a row that changes the channel's colour away from the rule's.
fn closing_verdict(hour: &AuditedHour<'_>, index: u32, item: &IntervalItem) -> Verdict
    requires ready { IsReady hour.now }
    requires item { FitsItem hour.now.specs.now item.now }
    requires index { index < length hour.now.rows.now }
    ensures { (e : Ends) → IsLogOf hour.now e → IsKnownRow hour.now index
        → IsIntervalVerdict result (MayPassRow (log_of hour.now e) index item.now.spec)
        (λ v. v.colour ≡ item.now.colour) (λ v. v.colour ≡ item.now.colour
        → InBound item.now.bound (pos (row_at hour.now index).at) v.entry) }
{
    let place = place_of(hour, index, item);
    let any = colour_seen(hour, index, item, place, AgeBound::Any);
    if !any.some_true {
        return Verdict::Idle;
    }
    let missed = colour_seen(hour, index, item, place, opposite(item.bound));
    if !missed.some_true {
        return Verdict::Kept;
    }
    if any.some_false {
        return Verdict::Undecided;
    }
    let met = colour_seen(hour, index, item, place, item.bound);
    if met.some_true {
        return Verdict::Undecided;
    }
    Verdict::Broken
}

/// The verdict on the rule before the known row, which is of the rule's channel.
pub(crate) fn interval_verdict(hour: &AuditedHour<'_>, index: u32, item: &IntervalItem) -> Verdict
    requires ready { IsReady hour.now }
    requires item { FitsItem hour.now.specs.now item.now }
    requires index { index < length hour.now.rows.now }
    requires own { channel_in_table (row_at hour.now index).code (row_at hour.now index).param
        ≡ Some (spec_at hour.now item.now.spec).channel }
    ensures { (e : Ends) → IsLogOf hour.now e → IsKnownRow hour.now index
        → IsIntervalVerdict result (MayPassRow (log_of hour.now e) index item.now.spec)
        (Closes (spec_at hour.now item.now.spec) (row_at hour.now index) item.now)
        (KeepsInterval (spec_at hour.now item.now.spec) (row_at hour.now index) item.now) }
{
    let spec = &hour.specs[item.spec as usize];
    let row = hour.rows[index as usize];
    if leaves(spec, row, item.colour) {
        return closing_verdict(hour, index, item);
    }
    Verdict::Idle
}
