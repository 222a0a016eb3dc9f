// All stop bars over one hour.
ghost use Rattle.std.specs.Prelude.{◌≡◌, ◌↔◌, ◌<◌, ℕ, [], Some, IfOk, IsTrue, List, OnErr, option_copied};
ghost use Rattle.signal_log.specs.Log.{Log};
ghost use Rattle.detector_state.specs.declared.part.Part.{Part};
ghost use Rattle.stop_bar.specs.Crossing.{Crossing};
ghost use Rattle.stop_bar.specs.Bars.{IsBarHour};
ghost use Rattle.stop_bar.specs.All.{AreAtBars, AreBarHours};

use crate::at_bar::AtBar;
use crate::bars::{StopBar, stop_bars};
use crate::hour::{OverBar, bar_hour};
use crate::windows::Windows;
use detector_state::Switched;
use ring_config::Config;
use service_cut::Cuts;
use sig_base::{Hour, NoMemory};
use std::alloc::Global;
use std::marker::Model;

/// What crosses a point between two hours, at each stop bar of a configuration.
#[derive(Drop)]
pub struct AtBars {
    bars: Vec<AtBar>,
    alloc: Global,
}

impl Model for AtBars {
    ghost use Rattle.std.specs.Prelude.{List};
    ghost use Rattle.stop_bar.specs.Crossing.{Crossing};

    ghost Value = { List Crossing };

    ghost view = { λ a. a.bars.items };
}

/// The windows that end in an hour at one stop bar.
#[derive(Drop)]
pub struct Ended {
    windows: Vec<Windows>,
}

impl Model for Ended {
    ghost use Rattle.std.specs.Prelude.{List};
    ghost use Rattle.stop_bar.specs.declared.windows.Windows.{Windows};

    ghost Value = { List Windows };

    ghost view = { λ e. e.windows.items };
}

impl Ended {
    /// In the order of the services' ends of yellow.
    pub fn windows(&self) -> &[Windows]
        ensures { result.now ≡ self.now }
    {
        self.windows.as_slice()
    }
}

impl AtBars {
    /// What crosses the window's start: nothing.
    pub fn start(alloc: Global, config: &Config) -> Result<AtBars, NoMemory>
        ensures { IfOk result (λ a. (log : Log) → AreAtBars log config.now [] 0 a) }
    {
        let list = stop_bars(alloc, config)?;
        let mut bars = Vec::new(alloc);
        for _place in 0..list.len() {
            bars.push(AtBar::start(alloc))?;
        }
        Ok(AtBars { bars, alloc })
    }

    /// An equal value.
    pub fn copy(&self) -> Result<AtBars, NoMemory>
        ensures { IfOk result (λ a. a ≡ self.now) }
    {
        let mut bars = Vec::new(self.alloc);
        for bar in &self.bars {
            let next = bar.copy()?;
            bars.push(next)?;
        }
        Ok(AtBars {
            bars,
            alloc: self.alloc,
        })
    }

    /// Whether the same crosses in both.
    pub fn same(&self, other: &AtBars) -> bool
        ensures { IsTrue result ↔ (self.now ≡ other.now) }
    {
        same_bars(&self.bars, &other.bars)
    }

    /// What crosses at each stop bar, in file order.
    pub fn bars(&self) -> &[AtBar]
        ensures { result.now ≡ self.now }
    {
        self.bars.as_slice()
    }
}

// Whether both lists are equal.
fn same_bars(a: &[AtBar], b: &[AtBar]) -> bool
    ensures { IsTrue result ↔ (a.now ≡ b.now) }
{
    if a.len() != b.len() {
        return false;
    }
    for (i, one) in a.iter().enumerate() {
        if !one.same(&b[i]) {
            return false;
        }
    }
    true
}

// One of them, with nothing where something of it is missing.
fn one_hour(
    alloc: Global,
    phase: u8,
    before: Option<&AtBar>,
    cuts: &Cuts,
    switched: Option<&Switched>,
    hour: Hour,
) -> Result<OverBar, NoMemory>
    requires { hour < 744 }
    ensures { IfOk result (λ o. (at : Crossing) (parts : List Part)
        → option_copied before.entry ≡ Some at → option_copied switched.entry ≡ Some parts
        → IsBarHour phase hour at cuts.now parts o.ended.items o.after) }
{
    match before {
        Some(at) => match switched {
            Some(told) => bar_hour(alloc, phase, at, cuts, told, hour),
            None => Ok(OverBar {
                ended: Vec::new(alloc),
                after: AtBar::start(alloc),
            }),
        },
        None => Ok(OverBar {
            ended: Vec::new(alloc),
            after: AtBar::start(alloc),
        }),
    }
}

/// The windows that end in an hour at each stop bar, and in `at` what crosses the point after it in
/// place of what crosses the point before it. `detectors` has the tenths of the detector of each
/// stop bar, in file order.
pub fn bars_hour(
    alloc: Global,
    config: &Config,
    at: &mut AtBars,
    cuts: &Cuts,
    detectors: &[Switched],
    hour: Hour,
) -> Result<Vec<Ended>, NoMemory>
    requires { hour < 744 }
    ensures over { IfOk result (λ v. AreBarHours config.now hour at.old cuts.now detectors.now
        v.items at.new) }
    ensures err { OnErr result (at.new ≡ at.old) }
{
    let list = stop_bars(alloc, config)?;
    let mut ended = Vec::new(alloc);
    let mut after = Vec::new(alloc);
    for (place, bar) in list.iter().enumerate() {
        let before = at.bars.get(place);
        let over = one_hour(alloc, bar.phase, before, cuts, detectors.get(place), hour)?;
        ended.push(Ended {
            windows: over.ended,
        })?;
        after.push(over.after)?;
    }
    at.bars = after;
    Ok(ended)
}
