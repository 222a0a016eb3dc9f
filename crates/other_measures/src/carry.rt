// What crosses a point between two hours.
ghost use Rattle.std.specs.Prelude.{◌≡◌, ◌↔◌, ◌≤◌, ℕ, Bool, [], IsTrue, IfOk, map};
ghost use Rattle.std.specs.List.{range_with_len};
ghost use Rattle.other_measures.specs.Crossing.{IsCarry, no_ped, no_preempt, places};

use crate::peds::PedPart;
use crate::preempts::PreemptPart;
use crate::same::{same_peds, same_preempts};
use ring_config::Config;
use sig_base::{NoMemory, has_number};
use std::alloc::Global;
use std::marker::Model;

/// What is under way at a point between two hours: of each pedestrian signal the last walk, of each
/// preempt the last call and the last entry or exit, each only where every tenth since is known.
/// The rows themselves are kept.
#[derive(Drop)]
pub struct OtherCarry {
    // The part of each stands at its number.
    pub(crate) peds: Vec<Option<PedPart>>,
    pub(crate) preempts: Vec<Option<PreemptPart>>,
    pub(crate) alloc: Global,
}

impl Model for OtherCarry {
    ghost use Rattle.other_measures.specs.Crossing.{Crossing};

    ghost Value = { Crossing };

    ghost view = { λ c. record { peds = c.peds.items; preempts = c.preempts.items } };
}

// How many places a table needs in which each of these numbers stands at its own.
fn places(numbers: &[u8]) -> u16
    ensures value { result ≡ places numbers.now }
    ensures few { result ≤ 256 }
{
    let mut places = 0;
    for number in numbers {
        places = places.max(u16::from(*number) + 1);
    }
    places
}

fn empty_ped(peds: &[u8], number: u8) -> Option<PedPart>
    ensures { result ≡ no_ped peds.now number }
{
    if has_number(peds, number) {
        Some(PedPart { number, walk: None })
    } else {
        None
    }
}

fn empty_preempt(preempts: &[u8], number: u8) -> Option<PreemptPart>
    ensures { result ≡ no_preempt preempts.now number }
{
    if has_number(preempts, number) {
        Some(PreemptPart {
            number,
            call: None,
            service: None,
        })
    } else {
        None
    }
}

fn empty_peds(alloc: Global, peds: &[u8]) -> Result<Vec<Option<PedPart>>, NoMemory>
    ensures { IfOk result (λ v. v.items ≡ map (no_ped peds.now)
        (range_with_len 0 (places peds.now))) }
{
    let mut parts = Vec::new(alloc);
    for number in 0..places(peds) {
        parts.push(empty_ped(peds, number as u8))?;
    }
    Ok(parts)
}

fn empty_preempts(alloc: Global, preempts: &[u8]) -> Result<Vec<Option<PreemptPart>>, NoMemory>
    ensures { IfOk result (λ v. v.items ≡ map (no_preempt preempts.now)
        (range_with_len 0 (places preempts.now))) }
{
    let mut parts = Vec::new(alloc);
    for number in 0..places(preempts) {
        parts.push(empty_preempt(preempts, number as u8))?;
    }
    Ok(parts)
}

impl OtherCarry {
    /// What crosses the window's start: nothing.
    pub fn start(alloc: Global, config: &Config) -> Result<OtherCarry, NoMemory>
        ensures { IfOk result (λ carry. (known : ℕ → Bool) → IsCarry known config.now [] 0 carry) }
    {
        let peds = empty_peds(alloc, config.peds())?;
        let preempts = empty_preempts(alloc, config.preempts())?;
        Ok(OtherCarry {
            peds,
            preempts,
            alloc,
        })
    }

    /// An equal value.
    pub fn copy(&self) -> Result<OtherCarry, NoMemory>
        ensures { IfOk result (λ carry. carry ≡ self.now) }
    {
        let peds = self.peds.iter().copied().collect(self.alloc)?;
        let preempts = self.preempts.iter().copied().collect(self.alloc)?;
        Ok(OtherCarry {
            peds,
            preempts,
            alloc: self.alloc,
        })
    }

    /// Whether the same is under way in both, row for row. The points don't count.
    pub fn same(&self, other: &OtherCarry) -> bool
        ensures { IsTrue result ↔ (self.now ≡ other.now) }
    {
        same_peds(&self.peds, &other.peds) && same_preempts(&self.preempts, &other.preempts)
    }
}
