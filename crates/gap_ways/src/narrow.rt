// Some of the possible states.
ghost use Rattle.std.specs.Prelude.{◌≡◌, ℤ, pos, negsuc, ◌≤ℤ◌, ◌<ℤ◌, ◌≤◌, ◌^◌, ◌↔◌, length, IfOk};
ghost use Rattle.reach.specs.Runs.{State};
ghost use Rattle.reach.specs.Past.{Holds};
ghost use Rattle.gap_ways.specs.Ways.{state_of};

use crate::ask::only;
use crate::states::Entered;
use colour_machine::Machine;
use reach::{AgeBound, Past, past_keep, past_only};
use sig_base::{NoMemory, Tenth};

/// The states that are entered before the tenth.
pub fn early_states<M: Machine>(machine: &M, past: &Past, from: Tenth) -> Result<Past, NoMemory>
    requires low { negsuc (2 ^ 39) <ℤ from }
    requires high { from ≤ℤ pos (2 ^ 39) }
    requires colours { length past.now ≡ (M.rules machine.now).colours }
    ensures colours { IfOk result (λ p. length p ≡ length past.now) }
    ensures states { IfOk result (λ p. (s : State) → Holds p s
        ↔ (Holds past.now s × (s.entry <ℤ from))) }
{
    let mut early = past.copy()?;
    for colour in 0..machine.colours() {
        past_keep(&mut early, colour, AgeBound::AtLeast(0), from - 1)?;
    }
    Ok(early)
}

/// The one state, which is one of the possible ones.
pub fn only_state(past: &Past, one: Entered) -> Result<Past, NoMemory>
    requires few { length past.now ≤ 16 }
    requires low { negsuc (2 ^ 39) ≤ℤ one.entry }
    requires high { one.entry ≤ℤ pos (2 ^ 39) }
    requires held { Holds past.now (state_of one) }
    ensures colours { IfOk result (λ p. length p ≡ length past.now) }
    ensures states { IfOk result (λ p. (s : State) → Holds p s ↔ (s ≡ state_of one)) }
{
    let mut left = past.copy()?;
    past_only(&mut left, only(one.colour))?;
    past_keep(&mut left, one.colour, AgeBound::AtLeast(0), one.entry)?;
    past_keep(&mut left, one.colour, AgeBound::AtMost(0), one.entry)?;
    Ok(left)
}
