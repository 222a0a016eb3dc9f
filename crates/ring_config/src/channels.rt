// The tracked channels in their order, and their floors.
ghost use Rattle.std.specs.Prelude.{◌≡◌, ◌∷◌, [], if◌then◌else◌, ◌≤◌, ◌+◌, ◌++◌, ◌&&◌, ◌==◌, ℕ, List, Option, IfOk, OnOk, flat_map, length, map, option_map, find};
ghost use Rattle.sig_base.specs.Numbers.{has_number};
ghost use Rattle.ring_config.specs.Seen.{layout_seen};
ghost use Rattle.ring_config.specs.Settings.{all_channels, coordination_channel, signal_channels, numbered, detectors, some_number, floor_of, floors_of, specs_from};

use crate::format::layout::Layout;
use crate::items::{Approach, FloorItem, OverlapItem};
use channel_tables::Spec;
use event_codes::{Channel, Kind};
use sig_base::{PhaseItem, has_number};
use std::alloc::{AllocError, Global};

// The numbers of the phases, in file order.
fn phase_numbers(alloc: Global, phases: &[PhaseItem]) -> Result<Vec<u8>, AllocError>
    ensures { IfOk result (λ v. v.items ≡ map (λ p. p.number) phases.now) }
{
    phases.iter().map(|phase| phase.number).collect(alloc)
}

// The numbers of the overlaps, in file order.
fn overlap_numbers(alloc: Global, overlaps: &[OverlapItem]) -> Result<Vec<u8>, AllocError>
    ensures { IfOk result (λ v. v.items ≡ map (λ o. o.number) overlaps.now) }
{
    overlaps.iter().map(|overlap| overlap.number).collect(alloc)
}

fn push_some(number: Option<u8>, numbers: &mut Vec<u8>) -> Result<(), AllocError>
    ensures { OnOk result (numbers.new.items ≡ numbers.old.items ++ some_number number) }
{
    match number {
        Some(number) => {
            numbers.push(number)?;
            Ok(())
        }
        None => Ok(()),
    }
}

fn push_detectors(approach: &Approach, numbers: &mut Vec<u8>) -> Result<(), AllocError>
    ensures { OnOk result (numbers.new.items ≡ numbers.old.items ++ detectors approach.now) }
{
    push_some(approach.advance, numbers)?;
    push_some(approach.stop_bar, numbers)?;
    Ok(())
}

// The numbers of the detectors of the approaches.
fn detector_numbers(alloc: Global, approaches: &[Approach]) -> Result<Vec<u8>, AllocError>
    ensures { IfOk result (λ v. v.items ≡ flat_map detectors approaches.now) }
{
    let mut numbers = Vec::new(alloc);
    for approach in approaches {
        push_detectors(approach, &mut numbers)?;
    }
    Ok(numbers)
}

// Adds the channel, where its number is one of these.
fn push_if_numbered(
    channel: Channel,
    numbers: &[u8],
    channels: &mut Vec<Channel>,
) -> Result<(), AllocError>
    ensures { OnOk result (channels.new.items ≡ channels.old.items
        ++ (if has_number numbers.now channel.number then channel ∷ [] else [])) }
{
    if has_number(numbers, channel.number) {
        channels.push(channel)?;
        return Ok(());
    }
    Ok(())
}

// Adds the channels of a kind with these numbers, in ascending order and each once.
fn push_numbered(
    kind: Kind,
    most: u8,
    numbers: &[u8],
    channels: &mut Vec<Channel>,
) -> Result<(), AllocError>
    requires { most ≤ 128 }
    ensures { OnOk result (channels.new.items ≡ channels.old.items
        ++ numbered kind most numbers.now) }
{
    for number in 1..most + 1 {
        push_if_numbered(Channel { kind, number }, numbers, channels)?;
    }
    Ok(())
}

/// The channels that floors and interval rules may name, with the preempt inputs among them.
#[tactic(auto, unfolding(crate::specs::Settings::signal_channels))]
pub(crate) fn signal_channels(alloc: Global, layout: &Layout) -> Result<Vec<Channel>, AllocError>
    ensures value { IfOk result (λ v. v.items ≡ signal_channels (layout_seen layout.now)) }
    ensures few { IfOk result (λ v. length v.items ≤ 80) }
{
    let mut channels = Vec::new(alloc);
    let phases = phase_numbers(alloc, layout.phases.as_slice())?;
    let overlaps = overlap_numbers(alloc, layout.overlaps.as_slice())?;
    let preempts = layout.preempts.as_slice();
    push_numbered(Kind::Phase, 16, phases.as_slice(), &mut channels)?;
    push_numbered(Kind::Ped, 16, layout.peds.as_slice(), &mut channels)?;
    push_numbered(Kind::Overlap, 16, overlaps.as_slice(), &mut channels)?;
    push_numbered(Kind::PreemptInput, 16, preempts, &mut channels)?;
    push_numbered(Kind::PreemptService, 16, preempts, &mut channels)?;
    Ok(channels)
}

fn push_coordination(on: bool, channels: &mut Vec<Channel>) -> Result<(), AllocError>
    ensures { OnOk result (channels.new.items ≡ channels.old.items ++ coordination_channel on) }
{
    if on {
        channels.push(Channel {
            kind: Kind::Coordination,
            number: 0,
        })?;
        return Ok(());
    }
    Ok(())
}

/// All tracked channels.
#[tactic(auto, unfolding(crate::specs::Settings::all_channels))]
pub(crate) fn all_channels(
    alloc: Global,
    layout: &Layout,
    approaches: &[Approach],
    coordination: bool,
) -> Result<Vec<Channel>, AllocError>
    ensures value { IfOk result (λ v. v.items ≡ all_channels (layout_seen layout.now) approaches.now
        coordination) }
    ensures few { IfOk result (λ v. length v.items ≤ 225) }
{
    let mut channels = signal_channels(alloc, layout)?;
    let detectors = detector_numbers(alloc, approaches)?;
    push_numbered(Kind::PedDetector, 16, layout.peds.as_slice(), &mut channels)?;
    push_numbered(Kind::Detector, 128, detectors.as_slice(), &mut channels)?;
    push_coordination(coordination, &mut channels)?;
    Ok(channels)
}

fn is_floor(floor: &FloorItem, spec: u16, colour: u8) -> bool
    ensures { result ≡ (floor.now.spec == spec && floor.now.colour == colour) }
{
    floor.spec == spec && floor.colour == colour
}

fn find_floor(floors: &[FloorItem], spec: u16, colour: u8) -> Option<&FloorItem>
    ensures { option_map (λ f. f.now) result ≡ find (λ f. f.spec == spec && f.colour == colour)
        floors.now }
{
    floors.iter().find(|floor| is_floor(floor, spec, colour))
}

fn floor_of(floors: &[FloorItem], spec: u16, colour: u8) -> u32
    ensures { result ≡ floor_of floors.now spec colour }
{
    match find_floor(floors, spec, colour) {
        Some(floor) => floor.tenths,
        None => 0,
    }
}

fn floors_of(floors: &[FloorItem], spec: u16) -> [u32; 16]
    ensures { result ≡ floors_of floors.now spec }
{
    let mut tenths = [0; 16];
    for colour in 0..16 {
        tenths[colour as usize] = floor_of(floors, spec, colour);
    }
    tenths
}

/// The channels with their floors.
pub(crate) fn specs(
    alloc: Global,
    floors: &[FloorItem],
    channels: &[Channel],
) -> Result<Vec<Spec>, AllocError>
    requires { length channels.now ≤ 225 }
    ensures { IfOk result (λ v. v.items ≡ specs_from floors.now 0 channels.now) }
{
    let mut specs = Vec::new(alloc);
    for (spec, channel) in channels.iter().enumerate() {
        specs.push(Spec {
            channel: *channel,
            floors: floors_of(floors, spec as u16),
        })?;
    }
    Ok(specs)
}
