// The states of all channels after an hour.
ghost use Rattle.std.specs.Prelude.{◌≡◌, ◌↔◌, ℕ, ℤ, pos, ◌-ℤ◌, ◌<◌, ◌≤◌, [], None, IsTrue, length, slice_index_or, MatchOption, IfSome, IfOk, IfErr};
ghost use Rattle.channel_tables.specs.Any.{any_rules};
ghost use Rattle.channel_tables.specs.Spec.{IsSpec, rules_of};
ghost use Rattle.channel_tables.specs.declared.spec.Spec.{Spec};
ghost use Rattle.reach.specs.Runs.{State};
ghost use Rattle.reach.specs.Past.{Holds, AreClamped};
ghost use Rattle.channel_path.specs.Walks.{InOrder, AfterMoves, EnteredBefore};
ghost use Rattle.gap_map.specs.Stretches.{FollowOn};
ghost use Rattle.board.specs.declared.pasts.PastsError.TheVariants.{Memory};
ghost use Rattle.board.specs.Channels.{AreSpecs};
ghost use Rattle.board.specs.Courses.{course_log};
ghost use Rattle.board.specs.Logs.{IsHour, first_tenth, end_tenth};
ghost use Rattle.board.specs.Stops.{number, IsEarlier, IsWalked, IsFirstStop, AreBefore};
ghost use Rattle.board.specs.Repeats.{Repeats, StandsTwice};
ghost use Rattle.board.specs.Places.{AllEarly, AreSamePasts};
ghost use Rattle.board.specs.Hours.{IsStart, AreStarts, AreClampedPasts, ArePastsOf, NamesStop};

use crate::courses::{Course, Courses};
use crate::repeat::repeats;
use channel_path::{Move, walk_past};
use channel_tables::{AnyMachine, Spec, machine_of};
use colour_machine::Machine;
use gap_map::Stretch;
use reach::Past;
use sig_base::{NoMemory, Row};
use std::alloc::Global;
use std::marker::Model;

/// The possible states of each channel, in the order of the specs.
#[derive(Drop)]
pub struct Pasts {
    pub(crate) pasts: Vec<Past>,
    pub(crate) alloc: Global,
}

impl Model for Pasts {
    ghost use Rattle.std.specs.Prelude.{List};
    ghost use Rattle.span_set.specs.declared.set.Span.{Span};

    ghost Value = { List (List (List Span)) };

    ghost view = { λ p. p.pasts.items };
}

impl Pasts {
    /// The states before the window: of each channel all colours, each with every entry from
    /// -36,001 to -1.
    pub fn start(alloc: Global, specs: &[Spec]) -> Result<Pasts, NoMemory>
        requires { AreSpecs specs.now }
        ensures shape { IfOk result (λ p. AreBefore specs.now p) }
        ensures states { IfOk result (λ p. AreStarts specs.now (length specs.now) p) }
    {
        let mut pasts = Vec::new(alloc);
        for i in 0..specs.len() {
            let past = past_start(alloc, &specs[i])?;
            pasts.push(past)?;
        }
        Ok(Pasts { pasts, alloc })
    }

    /// An equal value.
    pub fn copy(&self) -> Result<Pasts, NoMemory>
        ensures { IfOk result (λ p. p ≡ self.now) }
    {
        let mut pasts = Vec::new(self.alloc);
        for past in &self.pasts {
            let next = past.copy()?;
            pasts.push(next)?;
        }
        Ok(Pasts {
            pasts,
            alloc: self.alloc,
        })
    }

    /// Whether both have equally many channels, and each the same states in both.
    pub fn same(&self, other: &Pasts) -> bool
        ensures value { IsTrue result ↔ (self.now ≡ other.now) }
        ensures states { IsTrue result ↔ AreSamePasts self.now other.now }
    {
        same_pasts(&self.pasts, &other.pasts)
    }

    /// The states of the channel with this place among the specs, from 0.
    pub fn at(&self, spec: u16) -> &Past
        requires { spec < length self.now }
        ensures { result.now ≡ slice_index_or self.now spec [] }
    {
        &self.pasts[spec as usize]
    }
}

fn past_start(alloc: Global, spec: &Spec) -> Result<Past, NoMemory>
    requires { IsSpec spec.now }
    ensures colours { IfOk result (λ p. length p ≡ (rules_of spec.now).colours) }
    ensures states { IfOk result (λ p. (s : State) → Holds p s ↔ IsStart (rules_of spec.now) s) }
{
    let machine = machine_of(spec);
    Past::start(alloc, machine.colours())
}

fn same_pasts(a: &[Past], b: &[Past]) -> bool
    ensures value { IsTrue result ↔ (a.now ≡ b.now) }
    ensures states { IsTrue result ↔ AreSamePasts a.now b.now }
{
    if a.len() != b.len() {
        return false;
    }
    for i in 0..a.len() {
        if !a[i].same(&b[i]) {
            return false;
        }
    }
    true
}

/// Why there are no states after an hour.
#[derive(Clone, Copy, Debug, PartialEq, Eq)]
pub enum PastsError {
    /// The log contradicts itself: after this row its channel has no state.
    NoState(Row),
    Memory,
}

impl From<NoMemory> for PastsError {
    ghost from_gives = { λ _ e. e ≡ Memory };

    fn from(_: NoMemory) -> Self {
        PastsError::Memory
    }
}

/// The states of each channel after the hour, from those before it: those to which the runs of the
/// hour lead that agree with its known rows, with the entries that are older than an hour at the
/// point after it made one. `NoState` names the first known row, in the order of the rows, after
/// which its channel has no state, and comes exactly where there is one.
pub fn pasts_hour(
    alloc: Global,
    specs: &[Spec],
    before: &Pasts,
    rows: &[Row],
    stretches: &[Stretch],
) -> Result<Pasts, PastsError>
    requires specs { AreSpecs specs.now }
    requires hour { (h : ℕ) × IsHour h rows.now stretches.now
        × AllEarly (first_tenth h) before.now }
    requires before { AreBefore specs.now before.now }
    ensures pasts { IfOk result (λ p. ArePastsOf specs.now rows.now stretches.now before.now p) }
    ensures stop { IfErr result (NamesStop specs.now rows.now stretches.now before.now) }
    ensures shape { IfOk result (λ p. AreBefore specs.now p) }
    ensures early { IfOk result (λ p. (h : ℕ) → IsHour h rows.now stretches.now
        → AllEarly (end_tenth h) p) }
{
    let courses = Courses::of(alloc, specs, rows, stretches)?;
    pasts_along(alloc, specs, before, rows, stretches, &courses)
}

/// The same, where these are the hour's courses.
pub fn pasts_along(
    alloc: Global,
    specs: &[Spec],
    before: &Pasts,
    rows: &[Row],
    stretches: &[Stretch],
    courses: &Courses,
) -> Result<Pasts, PastsError>
    requires courses { courses.now ≡ course_log specs.now rows.now stretches.now }
    requires specs { AreSpecs specs.now }
    requires hour { (h : ℕ) × IsHour h rows.now stretches.now
        × AllEarly (first_tenth h) before.now }
    requires before { AreBefore specs.now before.now }
    ensures pasts { IfOk result (λ p. ArePastsOf specs.now rows.now stretches.now before.now p) }
    ensures stop { IfErr result (NamesStop specs.now rows.now stretches.now before.now) }
    ensures shape { IfOk result (λ p. AreBefore specs.now p) }
    ensures early { IfOk result (λ p. (h : ℕ) → IsHour h rows.now stretches.now
        → AllEarly (end_tenth h) p) }
{
    let after = pasts_walked(alloc, specs, before, stretches, courses)?;
    match after.stop {
        Some(stop) => Err(PastsError::NoState(rows[stop as usize])),
        None => Ok(after.pasts),
    }
}

/// The tenth after the last stretch.
pub fn end_of(stretches: &[Stretch]) -> u32
    requires { 1 ≤ length stretches.now }
    ensures { (f t : ℕ) → FollowOn f t stretches.now → result ≡ t }
{
    stretches[stretches.len() - 1].to
}

/// Makes the entries of one channel that are older than an hour at the point one.
pub fn clamp_past(past: &mut Past, point: u32)
    ensures { AreClamped (pos point -ℤ pos 36001) past.old past.new }
{
    past.clamp(i64::from(point));
}

/// The states after an hour, and the number of the first row after which its channel has no state.
#[derive(Drop)]
pub struct After {
    pub pasts: Pasts,
    pub stop: Option<u32>,
}

// The states after the hour, those older than an hour made one, and the first stop. A channel that
// repeats the one before it has that one's states, and changes no stop.
fn pasts_walked(
    alloc: Global,
    specs: &[Spec],
    before: &Pasts,
    stretches: &[Stretch],
    courses: &Courses,
) -> Result<After, NoMemory>
    requires same_specs { courses.now.specs ≡ specs.now }
    requires same_stretches { courses.now.stretches ≡ stretches.now }
    requires specs { AreSpecs specs.now }
    requires hour { (h : ℕ) × IsHour h courses.now.rows stretches.now
        × AllEarly (first_tenth h) before.now }
    requires before { AreBefore specs.now before.now }
    ensures stop { IfOk result (λ a. IsFirstStop specs.now courses.now.rows stretches.now
        before.now (length specs.now) a.stop) }
    ensures shape { IfOk result (λ a. a.stop ≡ None → AreBefore specs.now a.pasts) }
    ensures pasts { IfOk result (λ a. a.stop ≡ None → (h : ℕ)
        → IsHour h courses.now.rows stretches.now
        → AreClampedPasts specs.now courses.now.rows stretches.now (first_tenth h) (end_tenth h)
        before.now a.pasts) }
{
    let list = courses.list();
    let end = end_of(stretches);
    let mut pasts: Vec<Past> = Vec::new(alloc);
    let mut stop = None;
    for i in 0..specs.len() {
        if repeats_past(specs, list, before, i) {
            let past = pasts[i - 1].copy()?;
            pasts.push(past)?;
            continue;
        }
        let mut past = before.pasts[i].copy()?;
        let next = walk_spec(alloc, &specs[i], &mut past, list[i].moves())?;
        clamp_past(&mut past, end);
        stop = earlier(stop, next);
        pasts.push(past)?;
    }
    Ok(After {
        pasts: Pasts { pasts, alloc },
        stop,
    })
}

// Whether the channel with this place has the machine, the moves and the states before them of the
// one before it.
fn repeats_past(specs: &[Spec], list: &[Course], before: &Pasts, place: usize) -> bool
    requires within { place < length specs.now }
    requires same { length list.now ≡ length specs.now }
    requires before { length before.now ≡ length specs.now }
    ensures later { IsTrue result → 1 ≤ place }
    ensures repeats { IsTrue result → Repeats specs.now list.now place }
    ensures states { IsTrue result → StandsTwice before.now place }
{
    if !repeats(specs, list, place) {
        return false;
    }
    before.pasts[place].same(&before.pasts[place - 1])
}

/// The states of one channel after its moves. Answers the row after which there is none.
pub fn walk_spec(
    alloc: Global,
    spec: &Spec,
    past: &mut Past,
    moves: &[Move],
) -> Result<Option<u32>, NoMemory>
    requires fits { IsSpec spec.now }
    requires order { (low : ℕ) × EnteredBefore past.old low
        × InOrder (rules_of spec.now) low moves.now }
    requires colours { length past.old ≡ (rules_of spec.now).colours }
    requires some { (s : State) × Holds past.old s }
    ensures after { IfOk result (IsWalked (rules_of spec.now) past.old moves.now past.new) }
    ensures colours { length past.new ≡ length past.old }
{
    walk_any(alloc, machine_of(spec), past, moves)
}

// The walk for a machine of any kind: each kind has a walk of its own.
fn walk_any(
    alloc: Global,
    machine: AnyMachine,
    past: &mut Past,
    moves: &[Move],
) -> Result<Option<u32>, NoMemory>
    requires order { (low : ℕ) × EnteredBefore past.old low
        × InOrder (any_rules machine) low moves.now }
    requires colours { length past.old ≡ (any_rules machine).colours }
    requires some { (s : State) × Holds past.old s }
    ensures after { IfOk result (IsWalked (any_rules machine) past.old moves.now past.new) }
    ensures colours { length past.new ≡ length past.old }
{
    match machine {
        AnyMachine::Phase(machine) => walk_moves(alloc, &machine, past, moves),
        AnyMachine::Ped(machine) => walk_moves(alloc, &machine, past, moves),
        AnyMachine::Overlap(machine) => walk_moves(alloc, &machine, past, moves),
        AnyMachine::Switch(machine) => walk_moves(alloc, &machine, past, moves),
        AnyMachine::Detector(machine) => walk_moves(alloc, &machine, past, moves),
        AnyMachine::Preempt(machine) => walk_moves(alloc, &machine, past, moves),
        AnyMachine::Coord(machine) => walk_moves(alloc, &machine, past, moves),
    }
}

fn walk_moves<M: Machine>(
    alloc: Global,
    machine: &M,
    past: &mut Past,
    moves: &[Move],
) -> Result<Option<u32>, NoMemory>
    requires order { (low : ℕ) × EnteredBefore past.old low
        × InOrder (M.rules machine.now) low moves.now }
    requires colours { length past.old ≡ (M.rules machine.now).colours }
    requires some { (s : State) × Holds past.old s }
    ensures after { IfOk result (IsWalked (M.rules machine.now) past.old moves.now past.new) }
    ensures colours { length past.new ≡ length past.old }
{
    match walk_past(alloc, machine, past, moves)? {
        None => Ok(None),
        Some(place) => Ok(Some(number_of(moves[place]))),
    }
}

fn number_of(one: Move) -> u32
    ensures { result ≡ number one }
{
    match one {
        Move::Letter {
            at: _at,
            letter: _letter,
            row,
        } => row,
        Move::Gap {
            from: _from,
            to: _to,
        } => 0,
    }
}

/// The lesser of two numbers, or the one that there is.
pub fn earlier(a: Option<u32>, b: Option<u32>) -> Option<u32>
    ensures { IsEarlier a b result }
{
    match (a, b) {
        (None, b) => b,
        (Some(x), None) => Some(x),
        (Some(x), Some(y)) => Some(x.min(y)),
    }
}
