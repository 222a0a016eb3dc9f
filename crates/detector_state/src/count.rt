// How many tenths of a range a channel has a colour, at least and at most.
ghost use Rattle.std.specs.Prelude.{ℕ, ◌≤◌};
ghost use Rattle.detector_state.specs.Ranges.{Counts};
ghost use Rattle.signal_log.specs.Log.{Log};
ghost use Rattle.detector_state.specs.Hours.{IsAskable, LiesIn, Meets, TellsEach};
ghost use Rattle.detector_state.specs.Hours.{IsGreatestOn, IsLeastOn, IsSureFault};

use crate::asked::{Asked, meets};
use crate::part::{Part, Switched};

// The colours, as numbers.
const ON: u8 = 1;

const FAULT: u8 = 2;

/// The least number of tenths that the channel was on, of those of the hour from tenth `from` up to
/// tenth `to`: those at the end of which it can't be else.
pub fn least_on(switched: &Switched, from: u32, to: u32) -> u32
    ensures { IsLeastOn switched.now from to result }
{
    least_among(ending_after(switched.parts(), from), from, to)
}

/// The greatest number of tenths that it was on: those at the end of which it may be on.
pub fn greatest_on(switched: &Switched, from: u32, to: u32) -> u32
    ensures { IsGreatestOn switched.now from to result }
{
    greatest_among(ending_after(switched.parts(), from), from, to)
}

/// Whether it is sure at the end of some of these tenths that the detector has a fault.
pub fn sure_fault(switched: &Switched, from: u32, to: u32) -> bool
    ensures { IsSureFault switched.now from to result }
{
    fault_among(ending_after(switched.parts(), from), from, to)
}

/// The same numbers by these parts.
pub(crate) fn least_among(parts: &[Part], from: u32, to: u32) -> u32
    ensures { IsLeastOn parts.now from to result }
{
    tenths(parts, from, to, Asked::Only(ON))
}

pub(crate) fn greatest_among(parts: &[Part], from: u32, to: u32) -> u32
    ensures { IsGreatestOn parts.now from to result }
{
    tenths(parts, from, to, Asked::May(ON))
}

pub(crate) fn fault_among(parts: &[Part], from: u32, to: u32) -> bool
    ensures { IsSureFault parts.now from to result }
{
    tenths(parts, from, to, Asked::Only(FAULT)) > 0
}

/// The parts without those that end at the tenth or before.
pub(crate) fn ending_after(parts: &[Part], from: u32) -> &[Part]
    ensures { (log : Log) (i a b : ℕ) → TellsEach log i a b parts.now → a ≤ from
        → (m : ℕ) × (m ≤ from) × TellsEach log i m b result.now }
{
    let first = parts.partition_point(|part| part.to <= from);
    let (_ended, others) = parts.split_at(first);
    others
}

// The tenths of the range at the end of which what is asked holds.
fn tenths(parts: &[Part], from: u32, to: u32, asked: Asked) -> u32
    requires { IsAskable asked }
    ensures { (log : Log) (i a b : ℕ) → TellsEach log i a b parts.now → LiesIn a b from to
        → Counts (Meets log i asked) from to result }
{
    let mut count: u32 = 0;
    let mut at = from;
    for part in parts {
        if at >= to {
            return count;
        }
        let end = part.to.min(to).max(at);
        if meets(part.mask, asked) {
            count = count.saturating_add(end - at);
        }
        at = end;
    }
    count
}
