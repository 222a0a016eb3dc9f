// What is said of an hour again, from other states about it: only the channels that differ are gone
// through anew.
ghost use Rattle.std.specs.Prelude.{◌≡◌, ℕ, ◌<◌, ◌^◌, ◌≤◌, [], false, List, None, IsTrue, drop, length, slice_index_or, IfOk, IfErr};
ghost use Rattle.span_set.specs.declared.set.Span.{Span};
ghost use Rattle.channel_tables.specs.declared.spec.Spec.{Spec};
ghost use Rattle.board.specs.Channels.{AreSpecs};
ghost use Rattle.board.specs.Courses.{AreAmong, AreCoursesAmong};
ghost use Rattle.board.specs.Logs.{IsHour, end_tenth, first_tenth};
ghost use Rattle.board.specs.Stops.{IsFirstStop, AreBefore};
ghost use Rattle.board.specs.Places.{AllEarly, AreAheadsOf};
ghost use Rattle.board.specs.Hours.{AreAheadsBefore, AreAlikeBut, AreClampedPasts, ArePastsOf, NamesStop};

use crate::aheads::{Aheads, ahead_before};
use crate::courses::{Course, courses_from, rows_before};
use crate::meeting::{known_end, meets};
use crate::pasts::{After, Pasts, PastsError, clamp_past, earlier, end_of, walk_spec};
use channel_tables::Spec;
use gap_map::{Stretch, first_of};
use sig_base::{NoMemory, Row};
use std::alloc::Global;

// The specs that are wanted, in their order.
fn specs_among(alloc: Global, specs: &[Spec], wanted: &[bool]) -> Result<Vec<Spec>, NoMemory>
    requires specs { AreSpecs specs.now }
    requires same { length wanted.now ≡ length specs.now }
    ensures specs { IfOk result (λ v. AreSpecs v.items) }
    ensures places { IfOk result (λ v. AreAmong specs.now wanted.now (length specs.now) v.items) }
{
    let mut few = Vec::new(alloc);
    for i in 0..specs.len() {
        if !wanted[i] {
            continue;
        }
        few.push(specs[i])?;
    }
    Ok(few)
}

// The moves of each channel that is wanted over the stretches, before which so many of the rows
// stand: in one pass, and in none where none is wanted.
fn courses_among(
    alloc: Global,
    specs: &[Spec],
    wanted: &[bool],
    rows: &[Row],
    first: usize,
    stretches: &[Stretch],
) -> Result<Vec<Course>, NoMemory>
    requires specs { AreSpecs specs.now }
    requires same { length wanted.now ≡ length specs.now }
    requires few { length rows.now < 2 ^ 32 }
    requires first { first ≤ length rows.now }
    ensures { IfOk result (λ v. AreCoursesAmong specs.now wanted.now first (drop first rows.now)
        stretches.now v.items) }
{
    let few = specs_among(alloc, specs, wanted)?;
    if few.is_empty() {
        return Ok(Vec::new(alloc));
    }
    courses_from(alloc, &few, rows, first, stretches)
}

// Whether the channel with this place admits the same in both.
fn same_ahead(a: &Aheads, b: &Aheads, place: usize) -> bool
    ensures { IsTrue result → slice_index_or a.now place [] ≡ slice_index_or b.now place [] }
{
    place < a.aheads.len() && place < b.aheads.len() && a.aheads[place].same(&b.aheads[place])
}

// Of each of so many channels, whether it admits other states in the one than in the other.
fn other_aheads(alloc: Global, a: &Aheads, b: &Aheads, count: usize) -> Result<Vec<bool>, NoMemory>
    ensures count { IfOk result (λ v. length v.items ≡ count) }
    ensures same { IfOk result (λ v. (i : ℕ) → i < count
        → slice_index_or v.items i false ≡ false
        → slice_index_or a.now i [] ≡ slice_index_or b.now i []) }
{
    let mut others = Vec::new(alloc);
    for place in 0..count {
        others.push(!same_ahead(a, b, place))?;
    }
    Ok(others)
}

// Of the others, the channels that admit other states than then all the way back over the hour's last
// minutes.
fn unmet(
    alloc: Global,
    specs: &[Spec],
    others: Vec<bool>,
    after: &Aheads,
    was_after: &Aheads,
    rows: &[Row],
    stretches: &[Stretch],
) -> Result<Vec<bool>, NoMemory>
    requires specs { AreSpecs specs.now }
    requires hour { (h : ℕ) × IsHour h rows.now stretches.now }
    requires after { AreAheadsOf specs.now after.now }
    requires was_shape { AreAheadsOf specs.now was_after.now }
    requires count { length others.items ≡ length specs.now }
    requires same { (i : ℕ) → i < length specs.now → slice_index_or others.items i false ≡ false
        → slice_index_or after.now i [] ≡ slice_index_or was_after.now i [] }
    ensures count { IfOk result (λ v. length v.items ≡ length specs.now) }
    ensures alike { IfOk result (λ v. AreAlikeBut specs.now rows.now stretches.now after.now
        was_after.now v.items (length specs.now)) }
{
    let Some(end) = known_end(stretches) else {
        return Ok(others);
    };
    let first = rows_before(rows, end.from);
    let courses = courses_among(alloc, specs, &others, rows, first, &[end])?;
    let mut unmet = Vec::new(alloc);
    let mut next: usize = 0;
    for i in 0..specs.len() {
        if !others[i] {
            unmet.push(false)?;
            continue;
        }
        let moves = courses[next].moves();
        let met = meets(&specs[i], &after.aheads[i], &was_after.aheads[i], moves);
        unmet.push(!met)?;
        next += 1;
    }
    Ok(unmet)
}

/// The same as `aheads_hour` of an hour for which it was answered already, from `was_after`
/// `was_before`: the channels that admit the same states after the hour as then, or at some place of
/// its last minutes, admit the same before it, and only the others are walked back over all of it.
pub fn aheads_again(
    alloc: Global,
    specs: &[Spec],
    after: &Aheads,
    was_after: &Aheads,
    was_before: &Aheads,
    rows: &[Row],
    stretches: &[Stretch],
) -> Result<Aheads, NoMemory>
    requires specs { AreSpecs specs.now }
    requires hour { (h : ℕ) × IsHour h rows.now stretches.now }
    requires after { AreAheadsOf specs.now after.now }
    requires shape { AreAheadsOf specs.now was_before.now }
    requires was_shape { AreAheadsOf specs.now was_after.now }
    requires was { AreAheadsBefore specs.now rows.now stretches.now was_after.now was_before.now }
    ensures shape { IfOk result (λ a. AreAheadsOf specs.now a) }
    ensures before { IfOk result (λ a. AreAheadsBefore specs.now rows.now stretches.now after.now
        a) }
{
    let others = other_aheads(alloc, after, was_after, specs.len())?;
    let others = unmet(alloc, specs, others, after, was_after, rows, stretches)?;
    let courses = courses_among(alloc, specs, &others, rows, 0, stretches)?;
    let first = first_of(stretches);
    let mut aheads = Vec::new(alloc);
    let mut next: usize = 0;
    for i in 0..specs.len() {
        if !others[i] {
            aheads.push(was_before.aheads[i].copy())?;
            continue;
        }
        let moves = courses[next].moves();
        aheads.push(ahead_before(&specs[i], &after.aheads[i], moves, first))?;
        next += 1;
    }
    Ok(Aheads { aheads, alloc })
}

// Whether the channel with this place has the same states in both.
fn same_past(a: &Pasts, b: &Pasts, place: usize) -> bool
    ensures { IsTrue result → slice_index_or a.now place [] ≡ slice_index_or b.now place [] }
{
    place < a.pasts.len() && place < b.pasts.len() && a.pasts[place].same(&b.pasts[place])
}

// Of each of so many channels, whether it has other states in the one than in the other.
fn other_pasts(alloc: Global, a: &Pasts, b: &Pasts, count: usize) -> Result<Vec<bool>, NoMemory>
    ensures count { IfOk result (λ v. length v.items ≡ count) }
    ensures same { IfOk result (λ v. (i : ℕ) → i < count
        → slice_index_or v.items i false ≡ false
        → slice_index_or a.now i [] ≡ slice_index_or b.now i []) }
{
    let mut others = Vec::new(alloc);
    for place in 0..count {
        others.push(!same_past(a, b, place))?;
    }
    Ok(others)
}

// The states after the hour, those older than an hour made one, and the first stop: taken from
// `was_after` for each channel that isn't one of the others, since its states before the hour are
// those that it had then.
fn pasts_kept(
    alloc: Global,
    specs: &[Spec],
    others: &[bool],
    before: &Pasts,
    was_after: &Pasts,
    rows: &[Row],
    stretches: &[Stretch],
) -> Result<After, NoMemory>
    requires specs { AreSpecs specs.now }
    requires others { length others.now ≡ length specs.now }
    requires hour { (h : ℕ) × IsHour h rows.now stretches.now
        × AllEarly (first_tenth h) before.now }
    requires before { AreBefore specs.now before.now }
    requires shape { AreBefore specs.now was_after.now }
    requires was { (b : List (List (List Span))) × ArePastsOf specs.now rows.now stretches.now b
        was_after.now × ((i : ℕ) → i < length specs.now
        → slice_index_or others.now i false ≡ false
        → slice_index_or before.now i [] ≡ slice_index_or b i []) }
    ensures stop { IfOk result (λ a. IsFirstStop specs.now rows.now stretches.now before.now
        (length specs.now) a.stop) }
    ensures shape { IfOk result (λ a. a.stop ≡ None → AreBefore specs.now a.pasts) }
    ensures pasts { IfOk result (λ a. a.stop ≡ None → (h : ℕ) → IsHour h rows.now stretches.now
        → AreClampedPasts specs.now rows.now stretches.now (first_tenth h) (end_tenth h)
        before.now a.pasts) }
{
    let courses = courses_among(alloc, specs, others, rows, 0, stretches)?;
    let end = end_of(stretches);
    let mut pasts = Vec::new(alloc);
    let mut stop = None;
    let mut next: usize = 0;
    for i in 0..specs.len() {
        if !others[i] {
            let past = was_after.pasts[i].copy()?;
            pasts.push(past)?;
            continue;
        }
        let mut past = before.pasts[i].copy()?;
        let here = walk_spec(alloc, &specs[i], &mut past, courses[next].moves())?;
        clamp_past(&mut past, end);
        stop = earlier(stop, here);
        pasts.push(past)?;
        next += 1;
    }
    Ok(After {
        pasts: Pasts { pasts, alloc },
        stop,
    })
}

/// The same as `pasts_hour` of an hour for which it was answered already, from `was_before`
/// `was_after`: the channels that have the same states before the hour as then have the same after
/// it.
pub fn pasts_again(
    alloc: Global,
    specs: &[Spec],
    before: &Pasts,
    was_before: &Pasts,
    was_after: &Pasts,
    rows: &[Row],
    stretches: &[Stretch],
) -> Result<Pasts, PastsError>
    requires specs { AreSpecs specs.now }
    requires hour { (h : ℕ) × IsHour h rows.now stretches.now
        × AllEarly (first_tenth h) before.now }
    requires before { AreBefore specs.now before.now }
    requires shape { AreBefore specs.now was_after.now }
    requires was { ArePastsOf specs.now rows.now stretches.now was_before.now was_after.now }
    ensures pasts { IfOk result (λ p. ArePastsOf specs.now rows.now stretches.now before.now p) }
    ensures stop { IfErr result (NamesStop specs.now rows.now stretches.now before.now) }
    ensures shape { IfOk result (λ p. AreBefore specs.now p) }
    ensures early { IfOk result (λ p. (h : ℕ) → IsHour h rows.now stretches.now
        → AllEarly (end_tenth h) p) }
{
    let others = other_pasts(alloc, before, was_before, specs.len())?;
    let after = pasts_kept(alloc, specs, &others, before, was_after, rows, stretches)?;
    match after.stop {
        Some(stop) => Err(PastsError::NoState(rows[stop as usize])),
        None => Ok(after.pasts),
    }
}
