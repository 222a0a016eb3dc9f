// What crosses a point between two hours.
ghost use Rattle.std.specs.Prelude.{◌≡◌, ◌↔◌, ◌+◌, ◌<◌, ◌≤◌, ℕ, Bool, [], IsTrue, IfOk};
ghost use Rattle.sig_base.specs.Numbers.{has_phase};
ghost use Rattle.service_cut.specs.Parts.{IsCarry, room};
ghost use Rattle.service_cut.specs.Steps.{no_part};

use crate::parts::Part;
use crate::same::same_parts;
use sig_base::{NoMemory, PhaseItem, has_phase};
use std::alloc::Global;
use std::marker::Model;

/// What is under way at a point between two hours: of each phase the service that isn't over, the
/// last begin of yellow without its end, and the last end of yellow, each only where every tenth
/// since is known. The rows themselves are kept.
#[derive(Drop)]
pub struct CutCarry {
    // The part of a phase stands at its number.
    pub(crate) parts: Vec<Option<Part>>,
    alloc: Global,
}

impl Model for CutCarry {
    ghost use Rattle.std.specs.Prelude.{List, Option};
    ghost use Rattle.service_cut.specs.declared.parts.Part.{Part};

    ghost Value = { List (Option Part) };

    ghost view = { λ c. c.parts.items };
}

// The least length of a table that has a place for the phase.
fn room_of(phase: &PhaseItem) -> usize
    ensures room { result ≡ phase.now.number + 1 }
    ensures few { result ≤ 256 }
{
    let number = phase.number;
    usize::from(number) + 1
}

// The least length of a table that has a place for each phase.
fn room_for(phases: &[PhaseItem]) -> usize
    ensures room { result ≡ room phases.now }
    ensures few { result ≤ 256 }
{
    let mut room = 0;
    for phase in phases {
        room = usize::max(room, room_of(phase));
    }
    room
}

fn empty_part(phases: &[PhaseItem], number: u8) -> Option<Part>
    ensures { result ≡ no_part phases.now number }
{
    if has_phase(phases, number) {
        Some(Part {
            phase: number,
            service: None,
            yellow: None,
            cycle: None,
        })
    } else {
        None
    }
}

impl CutCarry {
    /// What crosses the window's start: nothing.
    pub fn start(alloc: Global, phases: &[PhaseItem]) -> Result<CutCarry, NoMemory>
        ensures { IfOk result (λ carry. (known : ℕ → Bool) → IsCarry known phases.now [] 0 carry) }
    {
        let room = room_for(phases);
        let mut parts = Vec::new(alloc);
        for number in 0..room {
            parts.push(empty_part(phases, number as u8))?;
        }
        Ok(CutCarry { parts, alloc })
    }

    /// An equal value.
    pub fn copy(&self) -> Result<CutCarry, NoMemory>
        ensures { IfOk result (λ carry. carry ≡ self.now) }
    {
        let parts = self.parts.iter().copied().collect(self.alloc)?;
        Ok(CutCarry {
            parts,
            alloc: self.alloc,
        })
    }

    /// Whether the same is under way in both, row for row. The points don't count.
    pub fn same(&self, other: &CutCarry) -> bool
        ensures { IsTrue result ↔ (self.now ≡ other.now) }
    {
        same_parts(&self.parts, &other.parts)
    }
}
