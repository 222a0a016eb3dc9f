// A configuration that was accepted.
ghost use Rattle.std.specs.Prelude.{is_some, true, ◌≡◌, ◌≢◌, ◌≤◌, ◌<◌, ℕ, All, AllPairs, List, Option, IfOk, IfSome, length, map, option_map, option_copied, slice_get, find, position};
ghost use Rattle.std.specs.Str.{bytes_eq};
ghost use Rattle.row_reader.specs.Signal.{is_signal};
ghost use Rattle.channel_tables.specs.Spec.{IsSpec};
ghost use Rattle.ring_config.specs.Settings.{Settings, settings_of, approach_place, clash, conflict_by, in_conflict, is_same_channel, is_tracked, phase_of, spec_place, spec_rank};
ghost use Rattle.ring_config.specs.Sound.{IsApproach, IsBefore, IsConfigured, IsIntervalOf, IsOverlap, IsPhase, IsSound};
ghost use Rattle.ring_config.specs.Seen.{parts_seen};
ghost use Rattle.ring_config.specs.Walk.{NoneRepeats};

use crate::channels::{all_channels, specs};
use crate::format::parts::Parts;
use crate::items::{Approach, IntervalItem, OverlapItem, Pair, has_pair};
use crate::named::by_name;
use channel_tables::Spec;
use event_codes::{Channel, Kind};
use indexmap::IndexMap;
use sig_base::{PhaseItem, Window};
use std::alloc::{AllocError, Global};
use std::marker::Model;

/// What one signal's configuration says, as `docs/FORMATS.md` lays it down.
#[derive(Drop)]
pub struct Config {
    window: Window,
    signal: String,
    coordination: bool,
    phases: Vec<PhaseItem>,
    peds: Vec<u8>,
    overlaps: Vec<OverlapItem>,
    preempts: Vec<u8>,
    conflicts: Vec<Pair>,
    allows: Vec<Pair>,
    specs: Vec<Spec>,
    intervals: Vec<IntervalItem>,
    approaches: IndexMap<Vec<u8>, Approach>,
}

impl Model for Config {
    ghost use Rattle.ring_config.specs.Settings.{Settings};

    ghost Value = { Settings };

    ghost use Rattle.ring_config.specs.Kept.{settings_in, IsKept};

    ghost view = { settings_in };

    ghost invariant = { IsKept };
}

fn rank(kind: Kind) -> u8
    ensures { result ≡ spec_rank kind }
{
    match kind {
        Kind::Phase => 0,
        Kind::Ped => 1,
        Kind::Overlap => 2,
        Kind::PreemptInput => 3,
        Kind::PreemptService => 4,
        Kind::PedDetector => 5,
        Kind::Detector => 6,
        Kind::Coordination => 7,
    }
}

fn is_same_channel(a: Channel, b: Channel) -> bool
    ensures { result ≡ is_same_channel a b }
{
    rank(a.kind) == rank(b.kind) && a.number == b.number
}

fn spec_place(specs: &[Spec], channel: Channel) -> Option<usize>
    ensures { result ≡ spec_place specs.now channel }
{
    specs
        .iter()
        .position(|spec| is_same_channel(spec.channel, channel))
}

fn phase_of(phases: &[PhaseItem], number: u8) -> Option<&PhaseItem>
    ensures { option_map (λ p. p.now) result ≡ phase_of phases.now number }
{
    phases.iter().find(|phase| phase.number == number)
}

// Whether two phases are in one ring or on different sides of the barrier.
fn clash(a: Option<&PhaseItem>, b: Option<&PhaseItem>) -> bool
    ensures { result ≡ clash (option_map (λ p. p.now) a.entry) (option_map (λ p. p.now) b.entry) }
{
    match (a, b) {
        (Some(a), Some(b)) => a.ring == b.ring || a.side != b.side,
        _ => false,
    }
}

#[tactic(auto, unfolding(crate::specs::Settings::conflict_by))]
fn conflict_by(conflicts: &[Pair], allows: &[Pair], phases: &[PhaseItem], a: u8, b: u8) -> bool
    ensures { result ≡ conflict_by conflicts.now allows.now phases.now a b }
{
    if has_pair(conflicts, a, b) {
        return true;
    }
    if has_pair(allows, a, b) {
        return false;
    }
    clash(phase_of(phases, a), phase_of(phases, b))
}

impl Config {
    /// The configuration of all tables.
    pub(crate) fn settled(alloc: Global, parts: Parts) -> Result<Config, AllocError>
        requires sound { let p = parts_seen parts in IsSound
            (settings_of p.top p.layout p.details) }
        requires names { NoneRepeats (λ a b. bytes_eq a.name b.name)
            parts.details.approaches.items }
        ensures { IfOk result (λ c. let p = parts_seen parts in c
            ≡ settings_of p.top p.layout p.details) }
    {
        let Parts {
            head,
            layout,
            details,
        } = parts;
        let approaches = details.approaches.as_slice();
        let channels = all_channels(alloc, &layout, approaches, head.coordination)?;
        let specs = specs(alloc, details.floors.as_slice(), channels.as_slice())?;
        let approaches = by_name(alloc, details.approaches)?;
        Ok(Config {
            window: head.window,
            signal: head.signal,
            coordination: head.coordination,
            phases: layout.phases,
            peds: layout.peds,
            overlaps: layout.overlaps,
            preempts: layout.preempts,
            conflicts: details.conflicts,
            allows: details.allows,
            specs,
            intervals: details.intervals,
            approaches,
        })
    }

    /// The hours that are looked at.
    pub fn window(&self) -> &Window
        ensures { result.now ≡ self.now.window }
    {
        &self.window
    }

    /// How many hours the window has, 1 to 744.
    pub fn hours(&self) -> u32
        ensures value { result ≡ self.now.window.hours }
        ensures some { 1 ≤ result }
        ensures few { result ≤ 744 }
        ensures sound { IsSound self.now }
    {
        self.window.hours()
    }

    /// The signal as its log files name it: 1 to 32 printed characters without comma and double
    /// quote.
    pub fn signal(&self) -> &str
        ensures value { result.now ≡ self.now.signal }
        ensures readable { is_signal result.now ≡ true }
    {
        self.signal.as_str()
    }

    /// The tracked channels with their floors: phases, pedestrian signals, overlaps, preempt
    /// inputs, preempt services, pedestrian detectors, detectors and the coordination, each by
    /// ascending number.
    pub fn specs(&self) -> &[Spec]
        ensures value { result.now ≡ self.now.specs }
        ensures specs { All IsSpec self.now.specs }
        ensures few { length self.now.specs ≤ 225 }
        ensures ordered { AllPairs (λ s t. IsBefore s.channel t.channel) self.now.specs }
        ensures sound { IsSound self.now }
    {
        self.specs.as_slice()
    }

    /// The place of a channel among the specs; `None` where it isn't tracked.
    pub fn spec_of(&self, channel: Channel) -> Option<u16>
        ensures value { result ≡ spec_place self.now.specs channel }
        ensures tracked { is_some result ≡ is_tracked self.now channel }
        ensures within { IfSome result (λ i. i < length self.now.specs) }
    {
        match spec_place(self.specs.as_slice(), channel) {
            Some(spec) => Some(spec as u16),
            None => None,
        }
    }

    /// The phases, in file order, no two of one number.
    pub fn phases(&self) -> &[PhaseItem]
        ensures value { result.now ≡ self.now.phases }
        ensures phases { All IsPhase self.now.phases }
        ensures distinct { AllPairs (λ p q. p.number ≢ q.number) self.now.phases }
        ensures sound { IsSound self.now }
    {
        self.phases.as_slice()
    }

    /// The numbers of the pedestrian signals, in file order; each is a phase's too.
    pub fn peds(&self) -> &[u8]
        ensures value { result.now ≡ self.now.peds }
        ensures configured { All (IsConfigured self.now.phases) self.now.peds }
        ensures distinct { AllPairs (λ p q. p ≢ q) self.now.peds }
    {
        self.peds.as_slice()
    }

    /// The overlaps, in file order.
    pub fn overlaps(&self) -> &[OverlapItem]
        ensures value { result.now ≡ self.now.overlaps }
        ensures overlaps { All (IsOverlap self.now.phases) self.now.overlaps }
        ensures distinct { AllPairs (λ o q. o.number ≢ q.number) self.now.overlaps }
    {
        self.overlaps.as_slice()
    }

    /// The numbers of the preempts, 1 to 16, in file order.
    pub fn preempts(&self) -> &[u8]
        ensures value { result.now ≡ self.now.preempts }
        ensures preempts { All (λ n. (1 ≤ n) × (n ≤ 16)) self.now.preempts }
        ensures distinct { AllPairs (λ p q. p ≢ q) self.now.preempts }
    {
        self.preempts.as_slice()
    }

    /// Whether the coordination is tracked.
    pub fn coordination(&self) -> bool
        ensures { result ≡ self.now.coordination }
    {
        self.coordination
    }

    /// The interval rules, in file order.
    pub fn intervals(&self) -> &[IntervalItem]
        ensures value { result.now ≡ self.now.intervals }
        ensures intervals { All (IsIntervalOf self.now.specs) self.now.intervals }
        ensures few { length self.now.intervals ≤ 256 }
        ensures sound { IsSound self.now }
    {
        self.intervals.as_slice()
    }

    /// How many approaches there are, at most 64.
    pub fn approach_count(&self) -> u32
        ensures value { result ≡ length self.now.approaches }
        ensures few { result ≤ 64 }
    {
        self.approaches.len() as u32
    }

    /// The approach at a place in file order, from 0.
    pub fn approach_at(&self, index: u32) -> Option<&Approach>
        ensures value { option_copied result ≡ slice_get self.now.approaches index }
        ensures approaches { All (IsApproach self.now.phases) self.now.approaches }
    {
        match self.approaches.get_index(index as usize) {
            Some((_, approach)) => Some(approach),
            None => None,
        }
    }

    /// The place of the approach of this name.
    pub fn approach_named(&self, name: &str) -> Option<u32>
        ensures value { result ≡ approach_place self.now.approaches name.now }
        ensures within { IfSome result (λ i. i < length self.now.approaches) }
    {
        match self.approaches.get_index_of(name.as_bytes()) {
            Some(place) => Some(place as u32),
            None => None,
        }
    }

    /// Whether two phases conflict: where a `conflict` entry names the pair; else, where no `allow`
    /// entry does, where they are in one ring or on different sides of the barrier.
    pub fn conflicts(&self, a: u8, b: u8) -> bool
        requires a { IsConfigured self.now.phases a }
        requires b { IsConfigured self.now.phases b }
        requires differ { a ≢ b }
        ensures value { result ≡ in_conflict self.now a b }
        ensures symmetric { result ≡ in_conflict self.now b a }
    {
        conflict_by(
            self.conflicts.as_slice(),
            self.allows.as_slice(),
            self.phases.as_slice(),
            a,
            b,
        )
    }
}
