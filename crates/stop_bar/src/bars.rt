// The stop bars of a configuration.
ghost use Rattle.std.specs.Prelude.{◌≡◌, ◌<◌, true, IfOk, length, slice_index_or};
ghost use Rattle.sig_base.specs.Numbers.{has_phase};
ghost use Rattle.ring_config.specs.declared.items.Approach.{Approach};
ghost use Rattle.stop_bar.specs.All.{AreServed, bar_with, bars_of};

use ring_config::{Approach, Config};
use sig_base::{Frac, NoMemory};
use std::alloc::Global;

/// A detector at the stop bar of an approach.
#[derive(Clone, Copy, Debug, PartialEq, Eq)]
pub struct StopBar {
    /// A configured phase.
    pub phase: u8,
    /// The detector, 1 to 128.
    pub detector: u8,
    /// The share of a window from which on the detector counts as occupied.
    pub high: Frac,
}

// That of the approach, where it has one.
fn bar_of(approach: &Approach) -> Option<StopBar>
    ensures { result ≡ bar_with approach.now approach.now.stop_bar }
{
    match approach.stop_bar {
        Some(detector) => Some(StopBar {
            phase: approach.phase,
            detector,
            high: approach.high,
        }),
        None => None,
    }
}

// The approach at a place in file order, from 0.
fn approach_of(config: &Config, place: u32) -> &Approach
    requires { place < length config.now.approaches }
    ensures approach { (d : Approach) → result.now ≡ slice_index_or config.now.approaches place d }
    ensures phase { has_phase config.now.phases result.now.phase ≡ true }
{
    match config.approach_at(place) {
        Some(approach) => approach,
        None => unreachable!(),
    }
}

/// The stop bars of all approaches that have one, in file order.
pub fn stop_bars(alloc: Global, config: &Config) -> Result<Vec<StopBar>, NoMemory>
    ensures bars { IfOk result (λ v. v.items ≡ bars_of config.now.approaches) }
    ensures phases { IfOk result (λ v. AreServed config.now.phases v.items) }
{
    let mut bars = Vec::new(alloc);
    for place in 0..config.approach_count() {
        if let Some(bar) = bar_of(approach_of(config, place)) {
            bars.push(bar)?;
        }
    }
    Ok(bars)
}
