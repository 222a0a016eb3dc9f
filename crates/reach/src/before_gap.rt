// The states before a gap, in one step: those before a run of one hole.
ghost use Rattle.std.specs.Prelude.{pos, negsuc, ◌≡◌, ◌↔◌, ◌≤ℤ◌, ◌<ℤ◌, ◌^◌, length};
ghost use Rattle.reach.specs.Runs.{State};
ghost use Rattle.reach.specs.Ahead.{Admits, BeforeGap};

use crate::ahead::Ahead;
use crate::before_holes::{ahead_holes, ahead_in};
use colour_machine::Machine;
use sig_base::Tenth;
use span_set::Span;

/// The states with an entry before `from` from which some legal filling of the tenths from `from`
/// up to but without `to` leads to one that was admitted. No latest entry that is left is as late
/// as `from`, and the time doesn't depend on the length of the gap.
pub fn ahead_gap<M: Machine>(machine: &M, ahead: &mut Ahead, from: Tenth, to: Tenth)
    requires low { negsuc (2 ^ 39) ≤ℤ from }
    requires some { from <ℤ to }
    requires high { to ≤ℤ pos (2 ^ 39) }
    requires colours { length ahead.old ≡ (M.rules machine.now).colours }
    ensures before { (s : State) → Admits ahead.new s ↔ ((s.entry <ℤ from)
        × BeforeGap (M.rules machine.now) ahead.old from to s) }
    ensures colours { length ahead.new ≡ length ahead.old }
{
    let hole = [Span { from, to }];
    let last = ahead_holes(machine, ahead, &hole, from, to);
    let mut before = ahead_in(machine, ahead, &last, from);
    before.lower(from - 1);
    *ahead = before;
}
