// One hour as it is seen from its known places.
ghost use Rattle.std.specs.Prelude.{◌≡◌, ◌↔◌, ℕ, pos, negsuc, ◌≤ℤ◌, IsTrue, ◌<◌, ◌≤◌, ◌^◌, true, length, slice_index_or, IfOk};
ghost use Rattle.channel_tables.specs.Spec.{IsSpec, rules_of};
ghost use Rattle.channel_tables.specs.Any.{any_rules};
ghost use Rattle.channel_tables.specs.declared.spec.Spec.{Spec};
ghost use Rattle.channel_path.specs.Walks.{InOrder, EnteredBefore};
ghost use Rattle.gap_map.specs.Stretches.{FollowOn, known_at};
ghost use Rattle.board.specs.Channels.{AreSpecs};
ghost use Rattle.board.specs.Logs.{end_tenth, first_tenth, hour_log, no_row, no_spec};
ghost use Rattle.board.specs.Stops.{AreBefore, moves_at};
ghost use Rattle.board.specs.Places.{IsBefore, IsRowPlace, IsSplit, IsLog, AreAheadsOf};
ghost use Rattle.board.specs.Verdicts.{SeesRow, SeesEnd};

use crate::aheads::Aheads;
use crate::courses::Courses;
use crate::marks::{Marks, marks_of};
use crate::pasts::Pasts;
use crate::slice_view::SliceView;
use channel_path::{Move, Path};
use channel_tables::{AnyMachine, Spec, machine_of};
use gap_map::{Stretch, first_of};
use reach::{Ahead, Past, Seen, Test};
use sig_base::{Hour, NoMemory, Row, Tenth};
use std::alloc::Global;
use std::marker::Model;
use std::snapshot::Snapshot;

// How many steps are tried before the search begins anew.
const STEPS: usize = 8;

/// An hour of the log, and what all its histories say at its places: those that agree with its
/// known rows, begin in a state of before it and end in one that is admitted after it.
#[derive(Drop)]
pub struct HourView {
    hour: Hour,
    specs: SliceView<Spec>,
    before: Snapshot<Pasts>,
    rows: SliceView<Row>,
    stretches: SliceView<Stretch>,
    after: Snapshot<Aheads>,
    paths: Vec<Path<AnyMachine>>,
    // Those of each path's moves.
    marks: Vec<Marks>,
}

impl Model for HourView {
    ghost use Rattle.std.specs.Prelude.{◌≡◌, length};
    ghost use Rattle.board.specs.Logs.{HourLog, hour_log};
    ghost use Rattle.board.specs.Places.{IsView};

    ghost Value = { HourLog };

    ghost view = { λ v. hour_log v.hour v.specs.items v.rows.items v.stretches.items v.before.value
        v.after.value };

    ghost invariant = { λ v. IsView (hour_log v.hour v.specs.items v.rows.items v.stretches.items
        v.before.value v.after.value) v.paths.items
        × (length v.marks.items ≡ length v.paths.items) };
}

// The hour of the stretches.
fn hour_of(stretches: &[Stretch]) -> Hour
    ensures { (h : ℕ) → FollowOn (first_tenth h) (end_tenth h) stretches.now → result ≡ h }
{
    first_of(stretches) / 36_000
}

impl HourView {
    /// The view of the hour that has these rows and stretches, between the states before it and
    /// those that are admitted after it.
    pub fn new(
        alloc: Global,
        specs: &[Spec],
        before: &Pasts,
        rows: &[Row],
        stretches: &[Stretch],
        after: &Aheads,
    ) -> Result<HourView, NoMemory>
        requires log { (hour : ℕ) × IsLog (hour_log hour specs.now rows.now stretches.now before.now
            after.now) }
        requires before { AreBefore specs.now before.now }
        requires after { AreAheadsOf specs.now after.now }
        ensures { IfOk result (λ v. (hour : ℕ)
            → let log = hour_log hour specs.now rows.now stretches.now before.now after.now in
            IsLog log → v ≡ log) }
    {
        let courses = Courses::of(alloc, specs, rows, stretches)?;
        HourView::along(alloc, specs, before, stretches, after, courses)
    }

    /// The same, where these are the courses of the hour that has these stretches.
    pub fn along(
        alloc: Global,
        specs: &[Spec],
        before: &Pasts,
        stretches: &[Stretch],
        after: &Aheads,
        courses: Courses,
    ) -> Result<HourView, NoMemory>
        requires same_specs { courses.specs ≡ specs.now }
        requires same_stretches { courses.stretches ≡ stretches.now }
        requires log { (hour : ℕ) × IsLog (hour_log hour specs.now courses.rows stretches.now
            before.now after.now) }
        requires before { AreBefore specs.now before.now }
        requires after { AreAheadsOf specs.now after.now }
        ensures { IfOk result (λ v. (hour : ℕ)
            → let log = hour_log hour specs.now courses.rows stretches.now before.now after.now in
            IsLog log → v ≡ log) }
    {
        let hour = hour_of(stretches);
        HourView::of_hour(alloc, hour, specs, before, after, courses)
    }

    // The same, of this hour.
    fn of_hour(
        alloc: Global,
        hour: Hour,
        specs: &[Spec],
        before: &Pasts,
        after: &Aheads,
        courses: Courses,
    ) -> Result<HourView, NoMemory>
        requires same { courses.specs ≡ specs.now }
        requires log { IsLog (hour_log hour specs.now courses.rows courses.stretches before.now
            after.now) }
        requires before { AreBefore specs.now before.now }
        requires after { AreAheadsOf specs.now after.now }
        ensures { IfOk result (λ v. v ≡ hour_log hour specs.now courses.rows courses.stretches
            before.now after.now) }
    {
        let Courses {
            specs: channels,
            rows,
            stretches,
            list,
        } = courses;
        let marks = marks_of(alloc, list.as_slice(), 36_000 * hour)?;
        let mut paths = Vec::with_capacity(alloc, list.len())?;
        for course in list {
            let i = paths.len();
            let moves = course.into_moves();
            let path = path_of(alloc, &specs[i], &before.pasts[i], moves, &after.aheads[i])?;
            paths.push(path)?;
        }
        Ok(HourView {
            hour,
            specs: channels,
            before: Snapshot::of(before),
            rows,
            stretches,
            after: Snapshot::of(after),
            paths,
            marks,
        })
    }

    /// How many channels it has. A caller learns the laws of its log.
    pub fn channels(&self) -> usize
        ensures channels { result ≡ length self.now.specs }
        ensures log { IsLog self.now }
    {
        self.paths.len()
    }

    /// What happens to the channel with this place among the specs, from 0.
    pub fn moves(&self, spec: u16) -> &[Move]
        requires spec { spec < length self.now.specs }
        ensures moves { (d : Spec) → result.now ≡ moves_at self.now.specs self.now.rows
            self.now.stretches spec d }
        ensures log { IsLog self.now }
    {
        self.paths[spec as usize].moves()
    }

    /// What the runs of the channel with this place among the specs say of the test before the
    /// known row with this place in the hour's rows, both from 0. The test's tenth is the row's.
    pub fn seen_before_row(&self, index: u32, spec: u16, test: &Test) -> Seen
        requires spec { spec < length self.now.specs }
        requires low { negsuc (2 ^ 39) ≤ℤ test.now.at }
        requires high { test.now.at ≤ℤ pos (2 ^ 39) }
        ensures { index < length self.now.rows
            → let at = (slice_index_or self.now.rows index no_row).at in
            known_at self.now.stretches at ≡ true → test.now.at ≡ pos at
            → SeesRow self.now index spec test.now result }
    {
        let place = self.place_before_row(index, spec, test.at);
        self.seen_at_place(spec, place, test)
    }

    /// The number of the channel's moves that come before the known row with this place in the
    /// hour's rows, whose tenth this is: where to ask what is seen before the row, as often as
    /// needed.
    pub fn place_before_row(&self, index: u32, spec: u16, at: Tenth) -> usize
        requires spec { spec < length self.now.specs }
        ensures { IsRowPlace self.now at index spec result }
    {
        let path = &self.paths[spec as usize];
        let marks = &self.marks[spec as usize];
        place_of(path.moves(), marks, at, Some(index))
    }

    /// What the runs of the channel say of the test at this place among its moves: before the known
    /// row of which it is the place.
    pub fn seen_at_place(&self, spec: u16, place: usize, test: &Test) -> Seen
        requires spec { spec < length self.now.specs }
        requires place { place ≤ length (moves_at self.now.specs self.now.rows self.now.stretches
            spec no_spec) }
        requires low { negsuc (2 ^ 39) ≤ℤ test.now.at }
        requires high { test.now.at ≤ℤ pos (2 ^ 39) }
        ensures { (n : ℕ) → n < length self.now.rows
            → let at = (slice_index_or self.now.rows n no_row).at in
            known_at self.now.stretches at ≡ true → test.now.at ≡ pos at
            → IsRowPlace self.now test.now.at n spec place
            → SeesRow self.now n spec test.now result }
    {
        self.paths[spec as usize].seen(place, test)
    }

    /// What they say of it at the end of the known tenth, which is the test's.
    pub fn seen_at_end(&self, spec: u16, at: u32, test: &Test) -> Seen
        requires spec { spec < length self.now.specs }
        requires tenth { test.now.at ≡ pos at }
        ensures { known_at self.now.stretches at ≡ true → SeesEnd self.now at spec test.now result }
    {
        let (seen, _place) = self.seen_from(spec, at, test, 0);
        seen
    }

    /// The same, with how many of the channel's moves come before it: looked for from such a number
    /// on, which was answered for an earlier tenth, or from 0. That is quick where the channel has
    /// few moves between the two tenths.
    pub fn seen_from(&self, spec: u16, at: u32, test: &Test, near: usize) -> (Seen, usize)
        requires spec { spec < length self.now.specs }
        requires tenth { test.now.at ≡ pos at }
        ensures { known_at self.now.stretches at ≡ true
            → SeesEnd self.now at spec test.now result.0 }
    {
        let path = &self.paths[spec as usize];
        let marks = &self.marks[spec as usize];
        let place = place_from(path.moves(), marks, near, i64::from(at), None);
        (path.seen(place, test), place)
    }
}

fn path_of(
    alloc: Global,
    spec: &Spec,
    before: &Past,
    moves: Vec<Move>,
    after: &Ahead,
) -> Result<Path<AnyMachine>, NoMemory>
    requires fits { IsSpec spec.now }
    requires order { (low : ℕ) × EnteredBefore before.now low
        × InOrder (rules_of spec.now) low moves.items }
    requires colours { length before.now ≡ (rules_of spec.now).colours }
    requires ahead { length after.now ≡ (rules_of spec.now).colours }
    ensures { IfOk result (λ l. (any_rules l.machine ≡ rules_of spec.now) × (l.before ≡ before.now)
        × (l.moves ≡ moves.items) × (l.after ≡ after.now)) }
{
    let machine = machine_of(spec);
    let path = path_any(alloc, &machine, before, moves, after)?;
    Ok(path)
}

// The path for a machine of any kind: each kind works out the places by itself.
fn path_any(
    alloc: Global,
    machine: &AnyMachine,
    before: &Past,
    moves: Vec<Move>,
    after: &Ahead,
) -> Result<Path<AnyMachine>, NoMemory>
    requires order { (low : ℕ) × EnteredBefore before.now low
        × InOrder (any_rules machine.now) low moves.items }
    requires colours { length before.now ≡ (any_rules machine.now).colours }
    requires ahead { length after.now ≡ (any_rules machine.now).colours }
    ensures { IfOk result (λ l. l ≡ record {
      machine = machine.now;
      before = before.now;
      moves = moves.items;
      after = after.now;
    }) }
{
    match machine {
        AnyMachine::Phase(own) => Path::by(alloc, machine, own, before, moves, after),
        AnyMachine::Ped(own) => Path::by(alloc, machine, own, before, moves, after),
        AnyMachine::Overlap(own) => Path::by(alloc, machine, own, before, moves, after),
        AnyMachine::Switch(own) => Path::by(alloc, machine, own, before, moves, after),
        AnyMachine::Detector(own) => Path::by(alloc, machine, own, before, moves, after),
        AnyMachine::Preempt(own) => Path::by(alloc, machine, own, before, moves, after),
        AnyMachine::Coord(own) => Path::by(alloc, machine, own, before, moves, after),
    }
}

// The number of moves that come before the place. The search begins between the marks about it,
// where both agree with the moves. Each turn halves what is left, whether the half before comes
// before the place or not.
fn place_of(moves: &[Move], marks: &Marks, at: Tenth, index: Option<u32>) -> usize
    ensures within { result ≤ length moves.now }
    ensures place { (j : ℕ) → IsSplit at index moves.now j → result ≡ j }
{
    let (below, above) = marks.about(at);
    let high = high_of(moves, above, at, index);
    let mut low = low_of(moves, below, at, index).min(high);
    let mut left = high - low;
    'search: while left > 0 {
        let half = left - left / 2;
        if is_before(moves[low + half - 1], at, index) {
            low += half;
        }
        left -= half;
    }
    low
}

// The same, at first step by step from a number of moves that come before the place, where these are
// some.
fn place_from(moves: &[Move], marks: &Marks, near: usize, at: Tenth, index: Option<u32>) -> usize
    ensures within { result ≤ length moves.now }
    ensures place { (j : ℕ) → IsSplit at index moves.now j → result ≡ j }
{
    let low = low_of(moves, near, at, index);
    if low == 0 {
        return place_of(moves, marks, at, index);
    }
    let end = moves.len().min(low.saturating_add(STEPS));
    for place in low..end {
        if !is_before(moves[place], at, index) {
            return place;
        }
    }
    if end == moves.len() {
        return end;
    }
    place_of(moves, marks, at, index)
}

// The guess, where that many moves come before the place, and else none.
fn low_of(moves: &[Move], guess: usize, at: Tenth, index: Option<u32>) -> usize
    ensures { (j : ℕ) → IsSplit at index moves.now j → result ≤ j }
{
    if guess > 0 && guess <= moves.len() && is_before(moves[guess - 1], at, index) {
        return guess;
    }
    0
}

// The guess, where no more moves come before the place, and else all.
fn high_of(moves: &[Move], guess: usize, at: Tenth, index: Option<u32>) -> usize
    ensures within { result ≤ length moves.now }
    ensures place { (j : ℕ) → IsSplit at index moves.now j → j ≤ result }
{
    if guess < moves.len() && !is_before(moves[guess], at, index) {
        return guess;
    }
    moves.len()
}

// Whether the move comes before a place at the tenth: before the row with the number, or at the
// end.
fn is_before(one: Move, at: Tenth, index: Option<u32>) -> bool
    ensures { IsTrue result ↔ IsBefore at index one }
{
    match one {
        Move::Gap { from, to: _to } => i64::from(from) < at,
        Move::Letter {
            at: tenth,
            letter: _letter,
            row,
        } => match index {
            Some(index) => row < index,
            None => i64::from(tenth) <= at,
        },
    }
}
