// What crosses a point between two hours at a stop bar.
ghost use Rattle.std.specs.Prelude.{◌≡◌, ◌↔◌, IsTrue, IfOk, ℕ, List, []};
ghost use Rattle.sig_base.specs.declared.values.PhaseItem.{PhaseItem};
ghost use Rattle.signal_log.specs.Log.{Log};
ghost use Rattle.stop_bar.specs.Bars.{IsAtBar};

use crate::same::{same_green, same_pending};
use crate::windows::{OpenGreen, Windows};
use sig_base::NoMemory;
use std::alloc::Global;
use std::marker::Model;

/// What crosses a point between two hours at a stop bar: the green that its phase has begun, and
/// the services whose red window isn't over, with their numbers so far.
#[derive(Drop)]
pub struct AtBar {
    pub(crate) green: Option<OpenGreen>,
    pub(crate) pending: Vec<Windows>,
    pub(crate) alloc: Global,
}

impl Model for AtBar {
    ghost use Rattle.stop_bar.specs.Crossing.{Crossing};

    ghost Value = { Crossing };

    ghost view = { λ a. record { green = a.green; pending = a.pending.items } };
}

impl AtBar {
    /// What crosses the window's start: nothing. Can't run out of memory.
    pub fn start(alloc: Global) -> AtBar
        ensures { (log : Log) (i p : ℕ) (phases : List PhaseItem)
            → IsAtBar log i phases p [] 0 result }
    {
        AtBar {
            green: None,
            pending: Vec::new(alloc),
            alloc,
        }
    }

    /// The services whose red window isn't over, in the order of their ends of yellow.
    pub fn pending(&self) -> &[Windows]
        ensures { result.now ≡ self.now.pending }
    {
        self.pending.as_slice()
    }

    /// An equal value.
    pub fn copy(&self) -> Result<AtBar, NoMemory>
        ensures { IfOk result (λ a. a ≡ self.now) }
    {
        let pending = self.pending.iter().copied().collect(self.alloc)?;
        Ok(AtBar {
            green: self.green,
            pending,
            alloc: self.alloc,
        })
    }

    /// Whether the same crosses in both.
    pub fn same(&self, other: &AtBar) -> bool
        ensures { IsTrue result ↔ (self.now ≡ other.now) }
    {
        same_green(self.green, other.green) && same_pending(&self.pending, &other.pending)
    }
}
