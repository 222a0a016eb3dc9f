// What crosses a point between two hours.
ghost use Rattle.std.specs.Prelude.{◌≡◌, ◌↔◌, IsTrue, IfOk, []};
ghost use Rattle.signal_log.specs.Log.{Log};
ghost use Rattle.stop_bar.specs.All.{AreAtBars};

use ring_config::Config;
use sig_base::NoMemory;
use std::alloc::Global;
use std::marker::Model;
use stop_bar::AtBars;

/// What of splits crosses a point between two hours: at each stop bar, in file order, the green
/// that its phase has begun, and the services whose red window isn't over.
#[derive(Drop)]
pub struct SplitCarry {
    pub(crate) bars: AtBars,
}

impl Model for SplitCarry {
    ghost use Rattle.std.specs.Prelude.{List};
    ghost use Rattle.stop_bar.specs.Crossing.{Crossing};

    ghost Value = { List Crossing };

    ghost view = { λ c. c.bars };
}

impl SplitCarry {
    /// What crosses the window's start.
    pub fn start(alloc: Global, config: &Config) -> Result<SplitCarry, NoMemory>
        ensures { IfOk result (λ c. (log : Log) → AreAtBars log config.now [] 0 c) }
    {
        let bars = AtBars::start(alloc, config)?;
        Ok(SplitCarry { bars })
    }

    /// An equal value.
    pub fn copy(&self) -> Result<SplitCarry, NoMemory>
        ensures { IfOk result (λ c. c ≡ self.now) }
    {
        let bars = self.bars.copy()?;
        Ok(SplitCarry { bars })
    }

    /// Whether the same crosses in both.
    pub fn same(&self, other: &SplitCarry) -> bool
        ensures { IsTrue result ↔ (self.now ≡ other.now) }
    {
        self.bars.same(&other.bars)
    }
}
