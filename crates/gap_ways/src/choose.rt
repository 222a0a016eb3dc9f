// A state that answers a test, or that can be completed.
ghost use Rattle.std.specs.Prelude.{◌≡◌, ℕ, ℤ, pos, negsuc, ◌≤ℤ◌, ◌<ℤ◌, ◌<◌, ◌^◌, length, ◌↔◌, IfOk, IfSome, MatchOption};
ghost use Rattle.colour_machine.specs.Mask.{Has};
ghost use Rattle.reach.specs.Runs.{State, state};
ghost use Rattle.reach.specs.Past.{Holds};
ghost use Rattle.reach.specs.Ahead.{Admits};
ghost use Rattle.reach.specs.Tests.{InBound};
ghost use Rattle.gap_ways.specs.Ways.{state_of, NoneOlder};
ghost use Rattle.gap_ways.specs.Choices.{IsAnswer, IsAsked, IsOutside, EntryAnswers};

use crate::ask::{entry_by, only};
use crate::states::Entered;
use colour_machine::{Machine, Mask};
use reach::{AgeBound, Ahead, Past, Test, past_keep, possible};
use sig_base::{NoMemory, Tenth};

/// One of the states that are possible at the test's tenth: one that meets the test where `met`
/// says so, else one that doesn't. None where there is no such state.
pub fn possible_state<M: Machine>(
    machine: &M,
    past: &Past,
    ahead: &Ahead,
    test: &Test,
    met: bool,
) -> Result<Option<Entered>, NoMemory>
    requires colours { length past.now ≡ (M.rules machine.now).colours }
    requires ahead { length ahead.now ≡ (M.rules machine.now).colours }
    requires none_older { NoneOlder past.now }
    requires low { pos 0 ≤ℤ test.now.at }
    requires high { test.now.at ≤ℤ pos (2 ^ 38) }
    ensures { IfOk result (λ r. MatchOption r
        ((s : State) → IsAnswer past.now ahead.now met test.now s → ⊥)
        (λ s. IsAnswer past.now ahead.now met test.now (state_of s))) }
{
    for colour in 0..machine.colours() {
        if let Some(entry) = entry_for(machine, past, ahead, test, met, colour)? {
            return Ok(Some(Entered { colour, entry }));
        }
    }
    Ok(None)
}

/// A possible state that can be completed, if one can. No possible state is entered at the tenth
/// `end` or later.
pub fn admitted_state<M: Machine>(
    machine: &M,
    past: &Past,
    ahead: &Ahead,
    end: Tenth,
) -> Result<Option<Entered>, NoMemory>
    requires colours { length past.now ≡ (M.rules machine.now).colours }
    requires ahead { length ahead.now ≡ (M.rules machine.now).colours }
    requires none_older { NoneOlder past.now }
    requires low { pos 0 ≤ℤ end }
    requires high { end ≤ℤ pos (2 ^ 38) }
    requires before { (s : State) → Holds past.now s → s.entry <ℤ end }
    ensures { IfOk result (λ r. MatchOption r
        ((s : State) → Holds past.now s → Admits ahead.now s → ⊥)
        (λ s. Holds past.now (state_of s) × Admits ahead.now (state_of s))) }
{
    let any = Test {
        colours: Mask::all(),
        bound: AgeBound::Any,
        at: end,
    };
    possible_state(machine, past, ahead, &any, true)
}

// A possible entry of the colour for which the test is as `met` says.
fn entry_for<M: Machine>(
    machine: &M,
    past: &Past,
    ahead: &Ahead,
    test: &Test,
    met: bool,
    colour: u8,
) -> Result<Option<Tenth>, NoMemory>
    requires colours { length past.now ≡ (M.rules machine.now).colours }
    requires ahead { length ahead.now ≡ (M.rules machine.now).colours }
    requires colour { colour < (M.rules machine.now).colours }
    requires none_older { NoneOlder past.now }
    requires low { pos 0 ≤ℤ test.now.at }
    requires high { test.now.at ≤ℤ pos (2 ^ 38) }
    ensures { IfOk result (λ r. MatchOption r
        ((e : ℤ) → IsAnswer past.now ahead.now met test.now (state colour e) → ⊥)
        (λ e. IsAnswer past.now ahead.now met test.now (state colour e))) }
{
    let Some(asked) = asked_of(test, met, colour) else {
        return Ok(None);
    };
    if possible(past, ahead, &asked).some_true {
        let mut left = past.copy()?;
        past_keep(&mut left, colour, asked.bound, asked.at)?;
        return Ok(Some(entry_by(machine, &left, colour, asked.at)));
    }
    Ok(None)
}

// The test that is met by those entries of the colour for which this one is as `met` says. None
// where no entry is so.
fn asked_of(test: &Test, met: bool, colour: u8) -> Option<Test>
    requires colour { colour < 16 }
    requires low { pos 0 ≤ℤ test.now.at }
    requires high { test.now.at ≤ℤ pos (2 ^ 38) }
    ensures asked { MatchOption result ((e : ℤ) → EntryAnswers met test.now colour e → ⊥)
        (IsAsked met test.now colour) }
    ensures colour { IfSome result (λ r. (c : ℕ) → Has r.colours c ↔ (c ≡ colour)) }
    ensures low { IfSome result (λ r. negsuc (2 ^ 39) ≤ℤ r.at) }
    ensures high { IfSome result (λ r. r.at ≤ℤ pos (2 ^ 38)) }
{
    if test.colours.has(colour) {
        if met {
            return Some(ask(colour, test.bound, test.at));
        }
        return outside(colour, test.bound, test.at);
    }
    if met {
        return None;
    }
    Some(ask(colour, AgeBound::Any, test.at))
}

fn ask(colour: u8, bound: AgeBound, at: Tenth) -> Test
    requires { colour < 16 }
    ensures colour { (c : ℕ) → Has result.colours c ↔ (c ≡ colour) }
    ensures bound { result.bound ≡ bound }
    ensures at { result.at ≡ at }
{
    Test {
        colours: only(colour),
        bound,
        at,
    }
}

// The test that is met by those entries of the colour whose ages at the tenth are outside the
// bound. None where no age is.
fn outside(colour: u8, bound: AgeBound, at: Tenth) -> Option<Test>
    requires colour { colour < 16 }
    requires low { pos 0 ≤ℤ at }
    requires high { at ≤ℤ pos (2 ^ 38) }
    ensures asked { MatchOption result ((e : ℤ) → IsOutside bound at e → ⊥)
        (λ r. (e : ℤ) → ((e ≤ℤ r.at) × InBound r.bound r.at e) ↔ IsOutside bound at e) }
    ensures colour { IfSome result (λ r. (c : ℕ) → Has r.colours c ↔ (c ≡ colour)) }
    ensures low { IfSome result (λ r. negsuc (2 ^ 39) ≤ℤ r.at) }
    ensures high { IfSome result (λ r. r.at ≤ℤ pos (2 ^ 38)) }
{
    match bound {
        AgeBound::Any => None,
        AgeBound::AtLeast(0) => None,
        AgeBound::AtLeast(age) => Some(ask(colour, AgeBound::AtMost(age - 1), at)),
        AgeBound::AtMost(age) => Some(ask(colour, AgeBound::AtLeast(age), at - 1)),
    }
}
