// The approaches of a configuration, and the places of their phases.
ghost use Rattle.std.specs.Prelude.{◌≡◌, ◌<◌, true, length, slice_index_or};
ghost use Rattle.ring_config.specs.Settings.{spec_place};
ghost use Rattle.sig_base.specs.Numbers.{has_phase};
ghost use Rattle.ring_config.specs.declared.items.Approach.{Approach};
ghost use Rattle.arrival_measures.specs.Judged.{phase_channel};
ghost use Rattle.arrival_measures.specs.Steps.{IsOwnOf};

use event_codes::{Channel, Kind};
use ring_config::{Approach, Config};

/// The approach at a place in file order, from 0.
pub(crate) fn approach_of(config: &Config, place: u32) -> &Approach
    requires { place < length config.now.approaches }
    ensures approach { (d : Approach) → result.now ≡ slice_index_or config.now.approaches place d }
    ensures own { IsOwnOf config.now result.now }
{
    match config.approach_at(place) {
        Some(approach) => approach,
        None => unreachable!(),
    }
}

/// The place of a configured phase among the channels.
pub(crate) fn phase_spec(config: &Config, phase: u8) -> u16
    requires { has_phase config.now.phases phase ≡ true }
    ensures place { spec_place config.now.specs (phase_channel phase) ≡ Some result }
    ensures within { result < length config.now.specs }
{
    let channel = Channel {
        kind: Kind::Phase,
        number: phase,
    };
    match config.spec_of(channel) {
        Some(spec) => spec,
        None => unreachable!(),
    }
}
