// The searches for a window's ends and begin, hour by hour.
ghost use Rattle.std.specs.Prelude.{ℕ, ◌+◌, ◌<◌, ◌≤◌, ◌^◌, length, IfOk, MatchOption};
ghost use Rattle.hour_store.specs.Store.{IsStore};
ghost use Rattle.board.specs.Logs.{first_tenth};
ghost use Rattle.board.specs.Places.{IsPlace};
ghost use Rattle.signal_log.specs.Log.{HasHistory, log_of};
ghost use Rattle.decisive.specs.Breaks.{FitsParts, FitsStart};
ghost use Rattle.decisive.specs.Candidates.{FromLog};
ghost use Rattle.decisive.specs.Cuts.{IsCutAfter};
ghost use Rattle.decisive.specs.Searches.{ArePlaced, IsBeginFound, IsEndFound, rank};
ghost use Rattle.sig_base.specs.Reads.{Grow};
ghost use Rattle.decisive.specs.Tries.{Begins, BeginsGrow, EndsGrow, IsBeginIn, IsBeginOf, IsEndIn, IsEndOf, IsToldAt, NoBeginIn, NoBeginOf, NoBeginRow, NoEndIn, NoEndOf, PlacedBeginsGrow, PlacedEndsGrow};

use crate::hours::{Placed, add_hour, hour_before};
use crate::judge::{Question, Start, Told, begins_by, ends_by};
use crate::search::{first_end, last_begin};
use hour_store::HourStore;
use sig_base::{Hour, NoMemory, Reads};
use std::alloc::Global;

/// The first candidate of these tenths up to which they break it, where they do up to the last.
fn end_within(
    alloc: Global,
    question: &Question<'_>,
    start: &Start<'_>,
    told: &Told<'_>,
    last: u32,
) -> Result<Option<u32>, NoMemory>
    requires told { (f : ℕ) × IsToldAt question.now told.now f (last + 1)
        × FitsStart start.now question.now.specs.now f
        × EndsGrow start.now question.now told.now (last + 1) }
    ensures { IfOk result (λ r. MatchOption r (NoEndOf start.now question.now told.now last)
        (IsEndOf start.now question.now told.now)) }
{
    if !ends_by(alloc, question, start, told, last)? {
        return Ok(None);
    }
    if ends_by(alloc, question, start, told, question.at)? {
        return Ok(Some(question.at));
    }
    first_end(alloc, question, start, told)
}

/// The last candidate of these tenths from which on those up to the last break it.
pub(crate) fn nearest_begin(
    alloc: Global,
    question: &Question<'_>,
    told: &Told<'_>,
    last: u32,
) -> Result<Option<u32>, NoMemory>
    requires late { question.now.at ≤ last }
    requires told { (f t : ℕ) × IsToldAt question.now told.now f t
        × IsCutAfter t told.now.stretches.now last × BeginsGrow question.now told.now last f }
    ensures { IfOk result (λ r. MatchOption r ((Begins question.now told.now last question.now.at
        → ⊥) × NoBeginRow question.now told.now last) (IsBeginOf question.now told.now last)) }
{
    if begins_by(alloc, question, told, question.at, last)? {
        return Ok(Some(question.at));
    }
    last_begin(alloc, question, told, last)
}

/// The same, where they do from the first on.
fn begin_within(
    alloc: Global,
    question: &Question<'_>,
    told: &Told<'_>,
    first: u32,
    last: u32,
) -> Result<Option<u32>, NoMemory>
    requires late { question.now.at ≤ last }
    requires told { (t : ℕ) × IsToldAt question.now told.now first t
        × IsCutAfter t told.now.stretches.now last × BeginsGrow question.now told.now last first }
    ensures { IfOk result (λ r. MatchOption r (NoBeginOf question.now told.now last first)
        (IsBeginOf question.now told.now last)) }
{
    if !begins_by(alloc, question, told, first, last)? {
        return Ok(None);
    }
    nearest_begin(alloc, question, told, last)
}

/// The end in what is told of hours, which is cut into moves.
fn end_in(
    alloc: Global,
    question: &Question<'_>,
    start: &Start<'_>,
    placed: &Placed,
    last: u32,
) -> Result<Option<u32>, NoMemory>
    requires parts { FitsParts question.now.specs.now question.now.parts.now }
    requires few { length placed.now.told.rows.items < 2 ^ 32 }
    requires place { (f : ℕ) × FitsStart start.now question.now.specs.now f
        × IsPlace f (last + 1) placed.now.told.rows.items placed.now.told.stretches.items
        question.now.at placed.now.place
        × PlacedEndsGrow start.now question.now placed.now (last + 1) }
    ensures { IfOk result (λ r. MatchOption r (NoEndIn start.now question.now placed.now last)
        (IsEndIn start.now question.now placed.now)) }
{
    let courses = placed.courses(alloc, question.specs)?;
    let told = placed.told_with(&courses);
    end_within(alloc, question, start, &told, last)
}

/// The begin.
fn begin_in(
    alloc: Global,
    question: &Question<'_>,
    placed: &Placed,
    first: u32,
    last: u32,
) -> Result<Option<u32>, NoMemory>
    requires parts { FitsParts question.now.specs.now question.now.parts.now }
    requires few { length placed.now.told.rows.items < 2 ^ 32 }
    requires late { question.now.at ≤ last }
    requires place { (t : ℕ) × IsPlace first t placed.now.told.rows.items
        placed.now.told.stretches.items question.now.at placed.now.place
        × IsCutAfter t placed.now.told.stretches.items last
        × PlacedBeginsGrow question.now placed.now last first }
    ensures { IfOk result (λ r. MatchOption r (NoBeginIn question.now placed.now last first)
        (IsBeginIn question.now placed.now last)) }
{
    let courses = placed.courses(alloc, question.specs)?;
    let told = placed.told_with(&courses);
    begin_within(alloc, question, &told, first, last)
}

/// The window's end, looked for from the place's hour on, and what is told of the hours up to it.
pub(crate) fn search_end<L>(
    alloc: Global,
    question: &Question<'_>,
    start: &Start<'_>,
    store: &HourStore<L>,
    hour: Hour,
    first: Placed,
    reads: &mut Reads<L>,
) -> Result<(u32, Placed), NoMemory>
    requires parts { FitsParts question.now.specs.now question.now.parts.now }
    requires within { hour < length store.now.hours }
    requires start { FitsStart start.now question.now.specs.now (first_tenth hour) }
    requires history { HasHistory (log_of question.now.specs.now store.now) }
    requires from { FromLog (log_of question.now.specs.now store.now) start.now (first_tenth hour)
        0 }
    requires place { ArePlaced store.now first.told (first_tenth hour) (first_tenth (hour + 1))
        (hour + 1) question.now.at first.place }
    ensures found { IfOk result (λ r. IsEndFound start.now store.now question.now.specs.now
        question.now.parts.now hour question.now.at (rank first.told question.now.at first.place)
        r.0 r.1) }
    ensures store { IsStore store.now }
    ensures grow { Grow reads.old reads.new }
{
    let mut placed = first;
    let hours = store.hours();
    for next in hour + 1..hours {
        match end_in(alloc, question, start, &placed, 36_000 * next - 1)? {
            Some(end) => return Ok((end, placed)),
            None => {}
        }
        add_hour(alloc, store, &mut placed.told, next, reads)?;
    }
    let last = 36_000 * hours - 1;
    match end_in(alloc, question, start, &placed, last)? {
        Some(end) => Ok((end, placed)),
        None => Ok((last, placed)),
    }
}

/// The window's begin, looked for from the place's hour back, where what is told up to the end
/// counts.
pub(crate) fn search_begin<L>(
    alloc: Global,
    question: &Question<'_>,
    store: &HourStore<L>,
    hour: Hour,
    first: Placed,
    end: u32,
    reads: &mut Reads<L>,
) -> Result<u32, NoMemory>
    requires parts { FitsParts question.now.specs.now question.now.parts.now }
    requires store { IsStore store.now }
    requires within { hour < length store.now.hours }
    requires history { HasHistory (log_of question.now.specs.now store.now) }
    requires late { question.now.at ≤ end }
    requires place { (t : ℕ) × (t ≤ first_tenth (length store.now.hours))
        × ArePlaced store.now first.told (first_tenth hour) t 744 question.now.at first.place
        × IsCutAfter t first.told.stretches.items end }
    ensures found { IfOk result (IsBeginFound store.now question.now.specs.now
        question.now.parts.now question.now.at (rank first.told question.now.at first.place) end) }
    ensures grow { Grow reads.old reads.new }
{
    let mut placed = first;
    for back in 0..hour {
        let from = hour - back;
        match begin_in(alloc, question, &placed, 36_000 * from, end)? {
            Some(begin) => return Ok(begin),
            None => {}
        }
        placed = hour_before(alloc, store, from - 1, &placed, reads)?;
    }
    match begin_in(alloc, question, &placed, 0, end)? {
        Some(begin) => Ok(begin),
        None => Ok(0),
    }
}
