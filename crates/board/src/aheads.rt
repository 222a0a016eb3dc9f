// The states of all channels before an hour.
ghost use Rattle.std.specs.Prelude.{◌≡◌, ◌↔◌, ℕ, ℤ, pos, negsuc, ◌<ℤ◌, ◌≤ℤ◌, ◌<◌, ◌≤◌, ◌^◌, [], IsTrue, List, length, slice_index_or, IfOk};
ghost use Rattle.channel_tables.specs.Any.{any_rules};
ghost use Rattle.channel_tables.specs.Spec.{IsSpec, rules_of};
ghost use Rattle.channel_tables.specs.declared.spec.Spec.{Spec};
ghost use Rattle.reach.specs.Runs.{State};
ghost use Rattle.reach.specs.Ahead.{Admits};
ghost use Rattle.channel_path.specs.Walks.{InOrder, BeforeMoves};
ghost use Rattle.channel_path.specs.Places.{EntersBefore};
ghost use Rattle.gap_map.specs.Stretches.{FollowOn};
ghost use Rattle.board.specs.Channels.{AreSpecs};
ghost use Rattle.board.specs.Logs.{IsHour};
ghost use Rattle.board.specs.Repeats.{Repeats, StandsTwice};
ghost use Rattle.board.specs.Places.{AreAheadsOf, AreSameFor, SameFor};
ghost use Rattle.board.specs.Stops.{AreBefore};
ghost use Rattle.board.specs.Hours.{AreEnds, AreAheadsBefore};

use crate::courses::{Course, Courses};
use crate::pasts::Pasts;
use crate::repeat::repeats;
use channel_path::{Move, walk_ahead};
use channel_tables::{AnyMachine, Spec, machine_of};
use colour_machine::Machine;
use gap_map::{Stretch, first_of};
use reach::{Ahead, Past, is_sure};
use sig_base::{NoMemory, Row, Tenth};
use std::alloc::Global;
use std::marker::Model;

/// Which states of each channel can still be completed, in the order of the specs.
#[derive(Drop)]
pub struct Aheads {
    pub(crate) aheads: Vec<Ahead>,
    pub(crate) alloc: Global,
}

impl Model for Aheads {
    ghost use Rattle.std.specs.Prelude.{List, Option, ℤ};

    ghost Value = { List (List (Option ℤ)) };

    ghost view = { λ a. a.aheads.items };
}

impl Aheads {
    /// At the point, the window's end: of each channel every colour with every entry before it.
    pub fn end(alloc: Global, specs: &[Spec], point: Tenth) -> Result<Aheads, NoMemory>
        requires specs { AreSpecs specs.now }
        requires low { negsuc (2 ^ 39) ≤ℤ point }
        requires high { point ≤ℤ pos (2 ^ 39) }
        ensures shape { IfOk result (λ a. AreAheadsOf specs.now a) }
        ensures states { IfOk result (λ a. AreEnds specs.now point (length specs.now) a) }
    {
        let mut aheads = Vec::new(alloc);
        for i in 0..specs.len() {
            aheads.push(ahead_end(&specs[i], point))?;
        }
        Ok(Aheads { aheads, alloc })
    }

    /// An equal value.
    pub fn copy(&self) -> Result<Aheads, NoMemory>
        ensures { IfOk result (λ a. a ≡ self.now) }
    {
        let mut aheads = Vec::new(self.alloc);
        for ahead in &self.aheads {
            aheads.push(ahead.copy())?;
        }
        Ok(Aheads {
            aheads,
            alloc: self.alloc,
        })
    }

    /// Whether both have equally many channels, and each admits the same states in both.
    pub fn same(&self, other: &Aheads) -> bool
        ensures { IsTrue result ↔ (self.now ≡ other.now) }
    {
        same_aheads(&self.aheads, &other.aheads)
    }

    /// Whether of each channel both admit the same of these states, and of those of their colours
    /// that were entered earlier. It answers yes only where of each channel both admit the same
    /// states at all, or one state alone is possible and both admit it.
    pub fn same_for(&self, pasts: &Pasts, other: &Aheads) -> bool
        requires shape { (specs : List Spec) × AreBefore specs pasts.now
            × AreAheadsOf specs self.now × AreAheadsOf specs other.now }
        ensures { IsTrue result → AreSameFor pasts.now self.now other.now }
    {
        for i in 0..self.aheads.len() {
            if !admit_same(&pasts.pasts[i], &self.aheads[i], &other.aheads[i]) {
                return false;
            }
        }
        true
    }

    /// Which states of the channel with this place among the specs, from 0, can be completed.
    pub fn at(&self, spec: u16) -> &Ahead
        requires { spec < length self.now }
        ensures { result.now ≡ slice_index_or self.now spec [] }
    {
        &self.aheads[spec as usize]
    }
}

// The same of one channel.
fn admit_same(past: &Past, a: &Ahead, b: &Ahead) -> bool
    requires a { length past.now ≡ length a.now }
    requires b { length past.now ≡ length b.now }
    ensures { IsTrue result → SameFor past.now a.now b.now }
{
    a.same(b) || (is_sure(past, a) && is_sure(past, b))
}

fn ahead_end(spec: &Spec, point: Tenth) -> Ahead
    requires fits { IsSpec spec.now }
    requires low { negsuc (2 ^ 39) ≤ℤ point }
    requires high { point ≤ℤ pos (2 ^ 39) }
    ensures colours { length result ≡ (rules_of spec.now).colours }
    ensures states { (s : State) → Admits result s ↔ ((s.colour < (rules_of spec.now).colours)
        × (s.entry <ℤ point)) }
{
    let machine = machine_of(spec);
    Ahead::end(machine.colours(), point)
}

fn same_aheads(a: &[Ahead], b: &[Ahead]) -> bool
    ensures { IsTrue result ↔ (a.now ≡ b.now) }
{
    if a.len() != b.len() {
        return false;
    }
    for i in 0..a.len() {
        if !a[i].same(&b[i]) {
            return false;
        }
    }
    true
}

/// Which states of each channel before the hour can be completed: those entered before its first
/// tenth from which some run of the hour that agrees with its known rows leads to one that is
/// admitted after it.
pub fn aheads_hour(
    alloc: Global,
    specs: &[Spec],
    after: &Aheads,
    rows: &[Row],
    stretches: &[Stretch],
) -> Result<Aheads, NoMemory>
    requires specs { AreSpecs specs.now }
    requires hour { (h : ℕ) × IsHour h rows.now stretches.now }
    requires after { AreAheadsOf specs.now after.now }
    ensures shape { IfOk result (λ a. AreAheadsOf specs.now a) }
    ensures before { IfOk result (λ a. AreAheadsBefore specs.now rows.now stretches.now after.now
        a) }
{
    let courses = Courses::of(alloc, specs, rows, stretches)?;
    aheads_along(alloc, specs, after, stretches, &courses)
}

/// The same, where these are the hour's courses.
pub fn aheads_along(
    alloc: Global,
    specs: &[Spec],
    after: &Aheads,
    stretches: &[Stretch],
    courses: &Courses,
) -> Result<Aheads, NoMemory>
    requires same_specs { courses.now.specs ≡ specs.now }
    requires same_stretches { courses.now.stretches ≡ stretches.now }
    requires specs { AreSpecs specs.now }
    requires hour { (h : ℕ) × IsHour h courses.now.rows stretches.now }
    requires after { AreAheadsOf specs.now after.now }
    ensures shape { IfOk result (λ a. AreAheadsOf specs.now a) }
    ensures before { IfOk result (λ a. AreAheadsBefore specs.now courses.now.rows stretches.now
        after.now a) }
{
    let list = courses.list();
    let first = first_of(stretches);
    let mut aheads: Vec<Ahead> = Vec::new(alloc);
    for i in 0..specs.len() {
        if repeats_ahead(specs, list, after, i) {
            let ahead = aheads[i - 1].copy();
            aheads.push(ahead)?;
            continue;
        }
        let ahead = ahead_before(&specs[i], &after.aheads[i], list[i].moves(), first);
        aheads.push(ahead)?;
    }
    Ok(Aheads { aheads, alloc })
}

/// Whether the channel with this place has the machine and the moves of the one before it, and after
/// them the same states are admitted.
pub fn repeats_ahead(specs: &[Spec], list: &[Course], after: &Aheads, place: usize) -> bool
    requires within { place < length specs.now }
    requires same { length list.now ≡ length specs.now }
    requires after { length after.now ≡ length specs.now }
    ensures later { IsTrue result → 1 ≤ place }
    ensures repeats { IsTrue result → Repeats specs.now list.now place }
    ensures states { IsTrue result → StandsTwice after.now place }
{
    if !repeats(specs, list, place) {
        return false;
    }
    after.aheads[place].same(&after.aheads[place - 1])
}

/// The states of one channel, entered before the tenth, from which its moves lead to one that is
/// admitted.
pub fn ahead_before(spec: &Spec, after: &Ahead, moves: &[Move], first: u32) -> Ahead
    requires fits { IsSpec spec.now }
    requires order { InOrder (rules_of spec.now) 0 moves.now }
    requires colours { length after.now ≡ (rules_of spec.now).colours }
    ensures before { (s : State) → Admits result s ↔ ((EntersBefore moves.now s
        × BeforeMoves (rules_of spec.now) after.now moves.now s) × (s.entry <ℤ pos first)) }
    ensures colours { length result ≡ length after.now }
{
    let mut ahead = after.copy();
    walk_any(machine_of(spec), &mut ahead, moves);
    lower_before(&mut ahead, first);
    ahead
}

// The walk back for a machine of any kind: each kind has a walk of its own.
fn walk_any(machine: AnyMachine, ahead: &mut Ahead, moves: &[Move])
    requires order { InOrder (any_rules machine) 0 moves.now }
    requires colours { length ahead.old ≡ (any_rules machine).colours }
    ensures before { (s : State) → Admits ahead.new s ↔ (EntersBefore moves.now s
        × BeforeMoves (any_rules machine) ahead.old moves.now s) }
    ensures colours { length ahead.new ≡ length ahead.old }
{
    match machine {
        AnyMachine::Phase(machine) => walk_ahead(&machine, ahead, moves),
        AnyMachine::Ped(machine) => walk_ahead(&machine, ahead, moves),
        AnyMachine::Overlap(machine) => walk_ahead(&machine, ahead, moves),
        AnyMachine::Switch(machine) => walk_ahead(&machine, ahead, moves),
        AnyMachine::Detector(machine) => walk_ahead(&machine, ahead, moves),
        AnyMachine::Preempt(machine) => walk_ahead(&machine, ahead, moves),
        AnyMachine::Coord(machine) => walk_ahead(&machine, ahead, moves),
    }
}

/// Those of the states that were entered before the tenth.
pub fn lower_before(ahead: &mut Ahead, first: u32)
    ensures states { (s : State) → Admits ahead.new s ↔ (Admits ahead.old s
        × (s.entry <ℤ pos first)) }
    ensures colours { length ahead.new ≡ length ahead.old }
{
    ahead.lower(i64::from(first) - 1);
}
