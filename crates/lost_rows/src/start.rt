// Where a walk begins and ends: no row was lost before it, and none is lost after it.
ghost use Rattle.std.specs.Prelude.{◌≡◌, ℕ, ◌<◌, ◌≤◌, ◌↔◌, length, IfOk};
ghost use Rattle.reach.specs.Runs.{State};
ghost use Rattle.reach.specs.Past.{Holds};
ghost use Rattle.reach.specs.Ahead.{Admits};
ghost use Rattle.lost_rows.specs.Credits.{AdmitsLost, AllAheads, AllOf, HoldsLost};
ghost use Rattle.lost_rows.specs.Cuts.{NoneAfter, NoneBefore};

use crate::aheads::LostAheads;
use crate::pasts::LostPasts;
use colour_machine::Mask;
use reach::{Ahead, Past, ahead_meet, past_only};
use sig_base::NoMemory;
use std::alloc::Global;

impl LostPasts {
    /// These states with no row lost, and none with more.
    pub fn first(alloc: Global, colours: u8, past: Past) -> Result<LostPasts, NoMemory>
        requires some { 1 ≤ colours }
        requires few { colours ≤ 16 }
        requires colours { length past ≡ colours }
        ensures colours { IfOk result (AllOf colours) }
        ensures states { IfOk result (λ p. (j : ℕ) (u : State) → HoldsLost p j u
            ↔ NoneBefore past j u) }
    {
        let one = no_state(alloc, colours)?;
        let two = no_state(alloc, colours)?;
        let three = no_state(alloc, colours)?;
        Ok(LostPasts {
            none: past,
            one,
            two,
            three,
        })
    }
}

// A Past of so many colours without a state.
fn no_state(alloc: Global, colours: u8) -> Result<Past, NoMemory>
    requires some { 1 ≤ colours }
    requires few { colours ≤ 16 }
    ensures colours { IfOk result (λ p. length p ≡ colours) }
    ensures states { IfOk result (λ p. (s : State) → Holds p s → ⊥) }
{
    let mut past = Past::start(alloc, colours)?;
    past_only(&mut past, Mask::none())?;
    Ok(past)
}

impl LostAheads {
    /// These states with no row lost after them, and none with more.
    pub fn last(colours: u8, ahead: Ahead) -> LostAheads
        requires some { 1 ≤ colours }
        requires few { colours ≤ 16 }
        requires colours { length ahead ≡ colours }
        ensures colours { AllAheads colours result }
        ensures states { (j : ℕ) (s : State) → AdmitsLost result j s ↔ NoneAfter ahead j s }
    {
        LostAheads {
            none: ahead,
            one: no_entry(colours),
            two: no_entry(colours),
            three: no_entry(colours),
        }
    }

    /// An equal value. It can't run out of memory.
    pub fn copy(&self) -> LostAheads
        ensures { result ≡ self.now }
    {
        LostAheads {
            none: self.none.copy(),
            one: self.one.copy(),
            two: self.two.copy(),
            three: self.three.copy(),
        }
    }
}

// An Ahead of so many colours that admits no state.
fn no_entry(colours: u8) -> Ahead
    requires some { 1 ≤ colours }
    requires few { colours ≤ 16 }
    ensures colours { length result ≡ colours }
    ensures states { (s : State) → Admits result s → ⊥ }
{
    let mut ahead = Ahead::end(colours, 0);
    ahead_meet(&mut ahead, &[None; 16]);
    ahead
}
