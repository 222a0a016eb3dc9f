// Whether some state at a place keeps a line's rule, and with how few lost rows.
ghost use Rattle.std.specs.Prelude.{◌≡◌, ℕ, pos, ◌+◌, ◌<◌, ◌≤◌, ◌↔◌, ◌⊎◌, IsTrue, length};
ghost use Rattle.colour_machine.specs.Mask.{Has};
ghost use Rattle.reach.specs.Runs.{State};
ghost use Rattle.reach.specs.Past.{Holds};
ghost use Rattle.reach.specs.Ahead.{Admits};
ghost use Rattle.channel_path.specs.Walks.{EnteredBefore};
ghost use Rattle.lost_rows.specs.Credits.{AdmitsLost, AllAheads, AllBefore, AllOf, HoldsLost};
ghost use Rattle.lost_rows.specs.Decisions.{IsLost, IsRule, KeepsRule, MeetsAt, Passed};

use crate::aheads::LostAheads;
use crate::asked::Asked;
use crate::line::{LineRule, Lost};
use crate::pasts::LostPasts;
use colour_machine::Mask;
use reach::{AgeBound, Ahead, Past, Seen, Test, possible};

/// With how few lost rows, at most three over both sides of a place, some state is possible there
/// that keeps the rule at the tenth.
pub fn decide(pasts: &LostPasts, aheads: &LostAheads, rule: &LineRule, at: u32) -> Lost
    requires rule { IsRule rule.now }
    requires entered { AllBefore pasts.now (at + 1) }
    requires colours { (n : ℕ) × AllOf n pasts.now × AllAheads n aheads.now }
    ensures { IsLost (Passed (HoldsLost pasts.now) (AdmitsLost aheads.now)
        (KeepsRule rule.now (pos at))) result }
{
    for lost in 0..4u8 {
        if passes_with(pasts, aheads, rule, at, lost) {
            return Lost::Needs(lost);
        }
    }
    Lost::Sturdy
}

// Whether some state is with so many rows lost.
fn passes_with(pasts: &LostPasts, aheads: &LostAheads, rule: &LineRule, at: u32, lost: u8) -> bool
    requires rule { IsRule rule.now }
    requires entered { AllBefore pasts.now (at + 1) }
    requires colours { (n : ℕ) × AllOf n pasts.now × AllAheads n aheads.now }
    requires few { lost ≤ 3 }
    ensures { IsTrue result ↔ Passed (HoldsLost pasts.now) (AdmitsLost aheads.now)
        (KeepsRule rule.now (pos at)) lost }
{
    for before in 0..lost + 1 {
        if passes(pasts.with(before), aheads.with(lost - before), rule, at) {
            return true;
        }
    }
    false
}

// Whether some state that is held and admitted keeps the rule.
fn passes(past: &Past, ahead: &Ahead, rule: &LineRule, at: u32) -> bool
    requires rule { IsRule rule.now }
    requires entered { EnteredBefore past.now (at + 1) }
    requires colours { length past.now ≡ length ahead.now }
    ensures { IsTrue result ↔ ((v : State) × Holds past.now v × KeepsRule rule.now (pos at) v
        × Admits ahead.now v) }
{
    match *rule {
        LineRule::Interval(asked) => passes_interval(past, ahead, asked, at),
        LineRule::Term(colours) => seen_at(past, ahead, colours, AgeBound::Any, at).some_true,
    }
}

fn passes_interval(past: &Past, ahead: &Ahead, asked: Asked, at: u32) -> bool
    requires colour { asked.colour < 16 }
    requires entered { EnteredBefore past.now (at + 1) }
    requires colours { length past.now ≡ length ahead.now }
    ensures { IsTrue result ↔ ((v : State) × Holds past.now v
        × KeepsRule (LineRule.Interval asked) (pos at) v × Admits ahead.now v) }
{
    let colours = only(asked.colour);
    let other = seen_at(past, ahead, colours, AgeBound::Any, at);
    let own = seen_at(past, ahead, colours, asked.bound, at);
    either(other.some_false, own.some_true)
}

fn only(colour: u8) -> Mask
    requires { colour < 16 }
    ensures { (c : ℕ) → Has result c ↔ (c ≡ colour) }
{
    Mask::none().with(colour)
}

fn either(a: bool, b: bool) -> bool
    ensures { IsTrue result ↔ (IsTrue a ⊎ IsTrue b) }
{
    a || b
}

// What the states that are held and admitted say of a test at the tenth.
fn seen_at(past: &Past, ahead: &Ahead, colours: Mask, bound: AgeBound, at: u32) -> Seen
    requires entered { EnteredBefore past.now (at + 1) }
    requires colours { length past.now ≡ length ahead.now }
    ensures some { IsTrue result.some_true ↔ ((v : State) × Holds past.now v
        × MeetsAt colours bound (pos at) v × Admits ahead.now v) }
    ensures other { IsTrue result.some_false ↔ ((v : State) × Holds past.now v
        × (MeetsAt colours bound (pos at) v → ⊥) × Admits ahead.now v) }
{
    let test = Test {
        colours,
        bound,
        at: i64::from(at),
    };
    possible(past, ahead, &test)
}
