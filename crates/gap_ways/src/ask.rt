// What is asked of the possible states.
ghost use Rattle.std.specs.Prelude.{◌≡◌, ℕ, ℤ, pos, negsuc, ◌+ℤ◌, ◌≤ℤ◌, ◌<ℤ◌, ◌<◌, ◌^◌, ◌↔◌, length, IsTrue};
ghost use Rattle.colour_machine.specs.Mask.{Has};
ghost use Rattle.span_set.specs.Spans.{Member};
ghost use Rattle.reach.specs.Arrivals.{IsFirst};
ghost use Rattle.reach.specs.Leaving.{HasOld};
ghost use Rattle.reach.specs.Sets.{set_of};
ghost use Rattle.gap_ways.specs.Ways.{NoneOlder};

use colour_machine::{Machine, Mask};
use reach::{AgeBound, Ahead, Past, Test, possible};
use sig_base::Tenth;

// No entry is later.
const END: Tenth = 1 << 39;

// No entry is earlier.
const BEGIN: Tenth = -(1 << 39) - 1;

/// The colour alone.
pub fn only(colour: u8) -> Mask
    requires { colour < 16 }
    ensures { (c : ℕ) → Has result c ↔ (c ≡ colour) }
{
    Mask::none().with(colour)
}

/// Whether a state of the colour is old enough to be left at the tenth.
pub fn has_old<M: Machine>(machine: &M, past: &Past, colour: u8, at: Tenth) -> bool
    requires low { negsuc (2 ^ 39) ≤ℤ at }
    requires high { at <ℤ pos (2 ^ 39) }
    requires colours { length past.now ≡ (M.rules machine.now).colours }
    requires colour { colour < (M.rules machine.now).colours }
    ensures { IsTrue result
        ↔ HasOld (set_of past.now colour) ((M.rules machine.now).floor colour) at }
{
    let all = Ahead::end(machine.colours(), END);
    let test = Test {
        colours: only(colour),
        bound: AgeBound::AtLeast(machine.floor(colour)),
        at,
    };
    possible(past, &all, &test).some_true
}

/// The first tenth from `from` on, before `to`, at which a state of the colour is old enough to be
/// left, or `to`.
pub fn first_old<M: Machine>(machine: &M, past: &Past, colour: u8, from: Tenth, to: Tenth) -> Tenth
    requires low { negsuc (2 ^ 39) ≤ℤ from }
    requires some { from <ℤ to }
    requires high { to ≤ℤ pos (2 ^ 39) }
    requires colours { length past.now ≡ (M.rules machine.now).colours }
    requires colour { colour < (M.rules machine.now).colours }
    ensures { IsFirst (set_of past.now colour) ((M.rules machine.now).floor colour) from to result }
{
    let mut low = 0;
    let mut high = (to - from) as u64;
    'search: while low < high {
        let middle = low + (high - low) / 2;
        if has_old(machine, past, colour, from + middle as i64) {
            high = middle;
        } else {
            low = middle + 1;
        }
    }
    from + low as i64
}

/// The earliest entry of the colour, where it is old enough to be left at the tenth.
pub fn old_entry<M: Machine>(machine: &M, past: &Past, colour: u8, at: Tenth) -> Tenth
    requires low { negsuc (2 ^ 39) ≤ℤ at }
    requires high { at <ℤ pos (2 ^ 39) }
    requires colours { length past.now ≡ (M.rules machine.now).colours }
    requires colour { colour < (M.rules machine.now).colours }
    requires none_older { NoneOlder past.now }
    requires some { HasOld (set_of past.now colour) ((M.rules machine.now).floor colour) at }
    ensures member { Member (set_of past.now colour) result }
    ensures old { (result +ℤ pos ((M.rules machine.now).floor colour)) ≤ℤ at }
    ensures least { (e : ℤ) → Member (set_of past.now colour) e → result ≤ℤ e }
{
    first_old(machine, past, colour, BEGIN, at + 1) - i64::from(machine.floor(colour))
}

/// The earliest entry of the colour, where it isn't after the tenth.
pub fn entry_by<M: Machine>(machine: &M, past: &Past, colour: u8, at: Tenth) -> Tenth
    requires low { negsuc (2 ^ 39) ≤ℤ at }
    requires high { at ≤ℤ pos (2 ^ 38) }
    requires colours { length past.now ≡ (M.rules machine.now).colours }
    requires colour { colour < (M.rules machine.now).colours }
    requires none_older { NoneOlder past.now }
    requires some { (e : ℤ) × Member (set_of past.now colour) e × (e ≤ℤ at) }
    ensures member { Member (set_of past.now colour) result }
    ensures by { result ≤ℤ at }
    ensures least { (e : ℤ) → Member (set_of past.now colour) e → result ≤ℤ e }
{
    old_entry(machine, past, colour, at + i64::from(machine.floor(colour)))
}
