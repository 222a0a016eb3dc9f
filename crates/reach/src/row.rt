// The states after a row.
ghost use Rattle.std.specs.Prelude.{◌≡◌, ◌≢◌, ℕ, ℤ, pos, negsuc, ◌≤ℤ◌, ◌<◌, ◌≤◌, ◌^◌, ◌⊎◌, ◌↔◌, [], length, Some, IsTrue, IfOk, IfSome, MatchOption, OnOk, OnErr, ◌+ℤ◌, ◌<ℤ◌, slice_index_or};
ghost use Rattle.colour_machine.specs.Rules.{Goes};
ghost use Rattle.colour_machine.specs.Mask.{Has};
ghost use Rattle.reach.specs.Runs.{State};
ghost use Rattle.reach.specs.Past.{Holds, AfterRow, NoneLater};
ghost use Rattle.span_set.specs.Spans.{Member};
ghost use Rattle.reach.specs.Sets.{IsRebuilt};
ghost use Rattle.reach.specs.Leaving.{HasOld, CanLeave};
ghost use Rattle.reach.specs.Single.{sets_of, IsSingle};

use crate::past::{Past, Single, alone, sets_of};
use crate::sets::{add_each, settle_each, starts_of};
use colour_machine::{Machine, Mask, with_change};
use sig_base::{NoMemory, Tenth};
use span_set::SpanSet;

/// The states after the row: those to which the letter at the tenth legally leads. It answers
/// false exactly where none is left, and takes memory only where a set grows.
pub fn past_row<M: Machine>(
    machine: &M,
    past: &mut Past,
    at: Tenth,
    letter: u8,
) -> Result<bool, NoMemory>
    requires low { negsuc (2 ^ 39) ≤ℤ at }
    requires high { at ≤ℤ pos (2 ^ 39) }
    requires letter { letter < (M.rules machine.now).letters }
    requires colours { length past.old ≡ (M.rules machine.now).colours }
    requires place { NoneLater past.old at }
    ensures after { OnOk result ((u : State) → Holds past.new u
        ↔ AfterRow (M.rules machine.now) past.old at letter u) }
    ensures some { IfOk result (λ b. IsTrue b ↔ ((u : State) × Holds past.new u)) }
    ensures colours { length past.new ≡ length past.old }
    ensures late { NoneLater past.new at }
    ensures err { OnErr result (past.new ≡ past.old) }
{
    match past.one {
        None => {
            let some = row_sets(machine, past.sets.as_mut_slice(), at, letter)?;
            past.one = alone(&past.sets);
            Ok(some)
        }
        Some(one) => match row_single(machine, one, at, letter) {
            Some(next) => {
                past.one = Some(next);
                Ok(true)
            }
            None => {
                let mut sets = sets_of(past.alloc, one)?;
                let some = row_sets(machine, sets.as_mut_slice(), at, letter)?;
                past.sets = sets;
                past.one = None;
                Ok(some)
            }
        },
    }
}

/// The one state that the letter leads to, where it leads to one.
pub fn row_single<M: Machine>(machine: &M, one: Single, at: Tenth, letter: u8) -> Option<Single>
    requires single { IsSingle one }
    requires low { negsuc (2 ^ 39) ≤ℤ at }
    requires high { at ≤ℤ pos (2 ^ 39) }
    requires letter { letter < (M.rules machine.now).letters }
    requires colours { one.colours ≡ (M.rules machine.now).colours }
    requires place { one.entry ≤ℤ at }
    ensures single { IfSome result (λ o. IsSingle o) }
    ensures colours { IfSome result (λ o. o.colours ≡ one.colours) }
    ensures place { IfSome result (λ o. o.entry ≤ℤ at) }
    ensures after { IfSome result (λ o. (u : State) → Holds (sets_of o) u
        ↔ AfterRow (M.rules machine.now) (sets_of one) at letter u) }
{
    match machine.step(one.colour, letter) {
        Some(next) if next == one.colour => Some(one),
        Some(next) => left_single(one, next, machine.floor(one.colour), at),
        None => None,
    }
}

// The state with the new colour, where the old one is old enough to be left.
fn left_single(one: Single, next: u8, floor: u32, at: Tenth) -> Option<Single>
    requires single { IsSingle one }
    requires low { negsuc (2 ^ 39) ≤ℤ at }
    requires high { at ≤ℤ pos (2 ^ 39) }
    requires floor { floor ≤ 36000 }
    ensures { MatchOption result (at <ℤ (one.entry +ℤ pos floor))
        (λ o. ((one.entry +ℤ pos floor) ≤ℤ at) × (o.colours ≡ one.colours) × (o.colour ≡ next)
        × (o.entry ≡ at)) }
{
    if one.entry + i64::from(floor) <= at {
        return Some(Single {
            colours: one.colours,
            colour: next,
            entry: at,
        });
    }
    None
}

// The states after the row, of sets.
fn row_sets<M: Machine>(
    machine: &M,
    sets: &mut [SpanSet],
    at: Tenth,
    letter: u8,
) -> Result<bool, NoMemory>
    requires low { negsuc (2 ^ 39) ≤ℤ at }
    requires high { at ≤ℤ pos (2 ^ 39) }
    requires letter { letter < (M.rules machine.now).letters }
    requires colours { length sets.old ≡ (M.rules machine.now).colours }
    requires place { NoneLater sets.old at }
    ensures after { OnOk result ((u : State) → Holds sets.new u
        ↔ AfterRow (M.rules machine.now) sets.old at letter u) }
    ensures some { IfOk result (λ b. IsTrue b ↔ ((u : State) × Holds sets.new u)) }
    ensures colours { length sets.new ≡ length sets.old }
    ensures late { NoneLater sets.new at }
    ensures err { OnErr result (sets.new ≡ sets.old) }
{
    let leave = leaving(machine, sets, at);
    let enter = entered(machine, letter, leave);
    change(sets, kept(machine, letter), enter, at)?;
    Ok(is_some_state(sets))
}

// Keeps the sets of the one mask, and adds the tenth to those of the other; or changes none.
fn change(sets: &mut [SpanSet], keep: Mask, enter: Mask, at: Tenth) -> Result<(), NoMemory>
    requires few { length sets.old ≤ 16 }
    requires low { negsuc (2 ^ 39) ≤ℤ at }
    requires high { at ≤ℤ pos (2 ^ 39) }
    requires last { (c : ℕ) (e : ℤ) → Member (slice_index_or sets.old c []) e → e ≤ℤ at }
    ensures ok { OnOk result (IsRebuilt sets.old keep enter at sets.new (length sets.old)) }
    ensures err { OnErr result (sets.new ≡ sets.old) }
{
    add_each(sets, &starts_of(enter, at), at + 1)?;
    settle_each(sets, keep, enter, at);
    Ok(())
}

/// Whether the sets hold a state.
pub fn is_some_state(sets: &[SpanSet]) -> bool
    ensures { IsTrue result ↔ ((u : State) × Holds sets.now u) }
{
    for set in sets {
        if let Some(_least) = set.least() {
            return true;
        }
    }
    false
}

// Whether some entry of the set is old enough at the tenth for a floor.
fn has_old(set: &SpanSet, floor: u32, at: Tenth) -> bool
    requires low { negsuc (2 ^ 39) ≤ℤ at }
    requires high { at ≤ℤ pos (2 ^ 39) }
    requires floor { floor ≤ 36000 }
    ensures { IsTrue result ↔ HasOld set.now floor at }
{
    let Some(least) = set.least() else {
        return false;
    };
    let limit = at - i64::from(floor);
    if least <= limit {
        return true;
    }
    false
}

/// The colours that may be left at the tenth.
pub fn leaving<M: Machine>(machine: &M, sets: &[SpanSet], at: Tenth) -> Mask
    requires low { negsuc (2 ^ 39) ≤ℤ at }
    requires high { at ≤ℤ pos (2 ^ 39) }
    requires colours { length sets.now ≡ (M.rules machine.now).colours }
    ensures { (c : ℕ) → Has result c ↔ CanLeave (M.rules machine.now) sets.now at c }
{
    let mut leave = Mask::none();
    for colour in 0..machine.colours() {
        leave = leaving_if(machine, sets, at, colour, leave);
    }
    leave
}

// The mask with the colour, where it may be left at the tenth.
fn leaving_if<M: Machine>(machine: &M, sets: &[SpanSet], at: Tenth, colour: u8, mask: Mask) -> Mask
    requires low { negsuc (2 ^ 39) ≤ℤ at }
    requires high { at ≤ℤ pos (2 ^ 39) }
    requires colours { length sets.now ≡ (M.rules machine.now).colours }
    requires colour { colour < (M.rules machine.now).colours }
    ensures { (c : ℕ) → Has result c ↔ (Has mask c ⊎ ((c ≡ colour)
        × HasOld (slice_index_or sets.now colour []) ((M.rules machine.now).floor colour) at)) }
{
    let floor = machine.floor(colour);
    if has_old(&sets[colour as usize], floor, at) {
        return mask.with(colour);
    }
    mask
}

// The colours that the letter keeps.
fn kept<M: Machine>(machine: &M, letter: u8) -> Mask
    requires { letter < (M.rules machine.now).letters }
    ensures { (c : ℕ) → Has result c ↔ Goes (M.rules machine.now) c letter c }
{
    let mut mask = Mask::none();
    for colour in 0..machine.colours() {
        mask = kept_if(machine, letter, colour, mask);
    }
    mask
}

fn kept_if<M: Machine>(machine: &M, letter: u8, colour: u8, mask: Mask) -> Mask
    requires letter { letter < (M.rules machine.now).letters }
    requires colour { colour < (M.rules machine.now).colours }
    ensures { (c : ℕ) → Has result c ↔ (Has mask c ⊎ ((c ≡ colour)
        × Goes (M.rules machine.now) c letter c)) }
{
    if machine.step(colour, letter) == Some(colour) {
        return mask.with(colour);
    }
    mask
}

// The colours that the letter enters from one of the mask.
fn entered<M: Machine>(machine: &M, letter: u8, leave: Mask) -> Mask
    requires letter { letter < (M.rules machine.now).letters }
    ensures { (d : ℕ) → Has result d ↔ ((c : ℕ) × Has leave c
        × Goes (M.rules machine.now) c letter d × (d ≢ c)) }
{
    let mut mask = Mask::none();
    for colour in 0..machine.colours() {
        mask = entered_if(machine, letter, leave, colour, mask);
    }
    mask
}

fn entered_if<M: Machine>(machine: &M, letter: u8, leave: Mask, colour: u8, mask: Mask) -> Mask
    requires letter { letter < (M.rules machine.now).letters }
    requires colour { colour < (M.rules machine.now).colours }
    ensures { (d : ℕ) → Has result d ↔ (Has mask d ⊎ (Has leave colour
        × Goes (M.rules machine.now) colour letter d × (d ≢ colour))) }
{
    if leave.has(colour) {
        return with_change(machine, colour, letter, mask);
    }
    mask
}
