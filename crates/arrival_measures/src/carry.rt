// What crosses a point between two hours.
ghost use Rattle.std.specs.Prelude.{◌≡◌, ◌↔◌, ◌++◌, ◌∷◌, ◌==◌, ◌+◌, map, ℕ, Bool, None, [], true, IsTrue, IfOk, OnOk};
ghost use Rattle.event_codes.specs.declared.channels.Kind.TheVariants.{Detector};
ghost use Rattle.ring_config.specs.Settings.{is_tracked_as};
ghost use Rattle.ring_config.specs.declared.items.Approach.{Approach};
ghost use Rattle.arrival_measures.specs.Crossing.{IsCarry, all_flags};
ghost use Rattle.arrival_measures.specs.Steps.{no_crossing, no_flag, no_flags};

use crate::faults::Flag;
use crate::open::Open;
use crate::same::{same_crossings, same_flags};
use event_codes::{Channel, Kind};
use ring_config::Config;
use sig_base::NoMemory;
use std::alloc::Global;
use std::marker::Model;

/// Tenths of the window, seen as a list of them.
#[derive(Drop)]
pub(crate) struct Tenths {
    items: Vec<u32>,
}

impl Model for Tenths {
    ghost use Rattle.std.specs.Prelude.{List, ℕ};

    ghost Value = { List ℕ };

    ghost view = { λ t. t.items.items };
}

impl Tenths {
    /// No tenth. Can't run out of memory.
    pub(crate) fn new(alloc: Global) -> Tenths
        ensures { result ≡ [] }
    {
        Tenths {
            items: Vec::new(alloc),
        }
    }

    /// Adds a tenth at the end.
    pub(crate) fn push(&mut self, at: u32) -> Result<(), NoMemory>
        ensures { OnOk result (self.new ≡ self.old ++ at ∷ []) }
    {
        self.items.push(at)?;
        Ok(())
    }

    pub(crate) fn list(&self) -> &[u32]
        ensures { result.now ≡ self.now }
    {
        self.items.as_slice()
    }

    fn copy(&self, alloc: Global) -> Result<Tenths, NoMemory>
        ensures { IfOk result (λ t. t ≡ self.now) }
    {
        let items = self.items.iter().copied().collect(alloc)?;
        Ok(Tenths { items })
    }
}

/// What is under way of an approach at a point between two hours.
#[derive(Drop)]
pub(crate) struct Crossing {
    /// Of its phase the cycle that has begun, where every tenth since is known.
    pub(crate) begun: Option<Open>,
    /// The arrival tenths at the point or later, ascending, of arrivals whose row is before it.
    pub(crate) pending: Tenths,
}

impl Crossing {
    /// Nothing. Can't run out of memory.
    pub(crate) fn none(alloc: Global) -> Crossing
        ensures { result ≡ no_crossing }
    {
        Crossing {
            begun: None,
            pending: Tenths::new(alloc),
        }
    }

    fn copy(&self, alloc: Global) -> Result<Crossing, NoMemory>
        ensures { IfOk result (λ c. c ≡ self.now) }
    {
        let pending = self.pending.copy(alloc)?;
        Ok(Crossing {
            begun: self.begun,
            pending,
        })
    }
}

/// What is under way at a point between two hours: of each approach with an advance detector the
/// arrivals and the green of the cycle that its phase has begun, where every tenth since is known,
/// and the arrivals on their way to the stop bar; and which detectors are sure to have a fault.
#[derive(Drop)]
pub struct ArrivalCarry {
    // One for each approach, in file order.
    pub(crate) crossings: Vec<Crossing>,
    // One for each detector of an approach, at its number. The table goes only so far.
    pub(crate) flags: Vec<Option<Flag>>,
    pub(crate) alloc: Global,
}

impl Model for ArrivalCarry {
    ghost use Rattle.arrival_measures.specs.Crossing.{CarryParts, all_flags};

    ghost Value = { CarryParts };

    ghost view = { λ c. record { crossings = c.crossings.items; flags = all_flags c.flags.items } };
}

// The flag of a detector at the window's start, where it is one of an approach.
fn no_flag(config: &Config, number: u8) -> Option<Flag>
    ensures { result ≡ no_flag config.now number }
{
    let channel = Channel {
        kind: Kind::Detector,
        number,
    };
    match config.spec_of(channel) {
        Some(_) => Some(Flag { fault: false }),
        None => None,
    }
}

// Those of all detectors, as far as there is one of an approach.
fn no_flags(alloc: Global, config: &Config) -> Result<Vec<Option<Flag>>, NoMemory>
    ensures { IfOk result (λ v. all_flags v.items ≡ no_flags config.now) }
{
    let mut flags = Vec::new(alloc);
    for number in 0..129usize {
        if let Some(flag) = no_flag(config, number as u8) {
            flags.resize(number, None)?;
            flags.push(Some(flag))?;
        }
    }
    Ok(flags)
}

impl ArrivalCarry {
    /// Room for what crosses a point of which nothing is known yet: no approach and no detector.
    /// Can't run out of memory.
    pub fn nothing(alloc: Global) -> ArrivalCarry
        ensures { result ≡ record { crossings = []; flags = all_flags [] } }
    {
        ArrivalCarry {
            crossings: Vec::new(alloc),
            flags: Vec::new(alloc),
            alloc,
        }
    }

    /// What crosses the window's start: nothing.
    pub fn start(alloc: Global, config: &Config) -> Result<ArrivalCarry, NoMemory>
        ensures { IfOk result (λ carry. (known : ℕ → Bool) → IsCarry known config.now [] 0 carry) }
    {
        let flags = no_flags(alloc, config)?;
        let mut crossings = Vec::new(alloc);
        for _place in 0..config.approach_count() {
            crossings.push(Crossing::none(alloc))?;
        }
        Ok(ArrivalCarry {
            crossings,
            flags,
            alloc,
        })
    }

    /// An equal value.
    pub fn copy(&self) -> Result<ArrivalCarry, NoMemory>
        ensures { IfOk result (λ carry. carry ≡ self.now) }
    {
        let flags = self.flags.iter().copied().collect(self.alloc)?;
        let mut crossings = Vec::new(self.alloc);
        for crossing in &self.crossings {
            crossings.push(crossing.copy(self.alloc)?)?;
        }
        Ok(ArrivalCarry {
            crossings,
            flags,
            alloc: self.alloc,
        })
    }

    /// Whether the same is under way in both. The points don't count.
    pub fn same(&self, other: &ArrivalCarry) -> bool
        ensures { IsTrue result ↔ (self.now ≡ other.now) }
    {
        same_crossings(&self.crossings, &other.crossings) && same_flags(&self.flags, &other.flags)
    }
}
