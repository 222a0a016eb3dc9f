// The rows with which a window may end or begin: the nearest to the place that will do, looked for
// by growing steps and then by halving.
ghost use Rattle.std.specs.Prelude.{◌≡◌, ◌↔◌, ℕ, ◌+◌, ◌<◌, ◌≤◌, length, slice_index_or, IsTrue, IfOk, MatchOption};
ghost use Rattle.gap_map.specs.Stretches.{FollowOn};
ghost use Rattle.board.specs.Logs.{no_row};
ghost use Rattle.decisive.specs.Breaks.{FitsParts, FitsStart};
ghost use Rattle.decisive.specs.Cuts.{IsCutAfter};
ghost use Rattle.decisive.specs.Tries.{BeginsGrow, DoesAt, EndsGrow, IsBeginRow, IsCandidateRow, IsEndRow, IsFirstOf, IsNearest, IsNearestTenth, IsOwnAt, IsSought, IsToldAt, IsTrail, NoBeginRow, NoEndRow, NoneDo, found_at, row_at, row_count};

use crate::judge::{Question, Start, Told, begins_by, ends_by};
use crate::rows::{is_known, is_row_of_parts};
use sig_base::{NoMemory, Row};
use std::alloc::Global;

/// What is looked for: on from the place an end, where a walk begins with these states, or back
/// from it a begin, where what is told up to this tenth counts.
#[derive(Drop)]
pub(crate) enum Aim<'a> {
    End(&'a Start<'a>),
    Begin(u32),
}

/// The candidates that were found, by how many rows each is from the place, the nearest first; and
/// how many of them are known not to do.
#[derive(Drop)]
pub(crate) struct Trail {
    pub(crate) found: Vec<usize>,
    pub(crate) tried: usize,
}

// How many rows there are to look at.
fn row_count(told: &Told<'_>, aim: &Aim<'_>) -> usize
    requires { told.now.place ≤ length told.now.rows.now }
    ensures { result ≡ row_count aim.now told.now }
{
    match aim {
        Aim::End(_start) => told.rows.len() - told.place,
        Aim::Begin(_last) => told.place,
    }
}

// The row that is so many rows from the place.
fn row_from(told: &Told<'_>, aim: &Aim<'_>, i: usize) -> Row
    requires place { told.now.place ≤ length told.now.rows.now }
    requires within { i < row_count aim.now told.now }
    ensures { result ≡ slice_index_or told.now.rows.now (row_at aim.now told.now i) no_row }
{
    match aim {
        Aim::End(_start) => told.rows[told.place..][i],
        Aim::Begin(_last) => told.rows[told.place - 1 - i],
    }
}

// Whether it is a candidate: known, and of one of the channels.
fn is_candidate(question: &Question<'_>, told: &Told<'_>, row: Row) -> bool
    requires parts { FitsParts question.now.specs.now question.now.parts.now }
    requires follow { (f t : ℕ) × FollowOn f t told.now.stretches.now × (f ≤ row.at) }
    ensures { IsTrue result ↔ IsCandidateRow question.now told.now row }
{
    is_row_of_parts(question.specs, question.parts, row) && is_known(told.stretches, row.at)
}

// Whether the row does.
fn does_at(
    alloc: Global,
    question: &Question<'_>,
    told: &Told<'_>,
    aim: &Aim<'_>,
    i: usize,
) -> Result<bool, NoMemory>
    requires sought { IsSought aim.now question.now told.now }
    requires within { i < row_count aim.now told.now }
    requires own { IsOwnAt aim.now question.now told.now i }
    ensures { IfOk result (λ b. IsTrue b ↔ DoesAt aim.now question.now told.now i) }
{
    let row = row_from(told, aim, i);
    match aim {
        Aim::End(start) => ends_by(alloc, question, start, told, row.at),
        Aim::Begin(last) => begins_by(alloc, question, told, row.at, *last),
    }
}

// The place of the first candidate that does, where the last of them does and those that were tried
// don't: by halving.
fn halve(
    alloc: Global,
    question: &Question<'_>,
    told: &Told<'_>,
    aim: &Aim<'_>,
    trail: &Trail,
) -> Result<usize, NoMemory>
    requires sought { IsSought aim.now question.now told.now }
    requires trail { (n : ℕ) × (n ≤ row_count aim.now told.now)
        × IsTrail aim.now question.now told.now trail.now n }
    requires untried { trail.now.tried < length trail.now.found.items }
    requires last { (k : ℕ) → k + 1 ≡ length trail.now.found.items
        → DoesAt aim.now question.now told.now (found_at trail.now k) }
    ensures { IfOk result (IsFirstOf aim.now question.now told.now trail.now) }
{
    let mut low = trail.tried;
    let mut high = trail.found.len() - 1;
    'search: while low < high {
        let middle = low + (high - low) / 2;
        if does_at(alloc, question, told, aim, trail.found[middle])? {
            high = middle;
        } else {
            low = middle + 1;
        }
    }
    Ok(low)
}

// The nearest candidate that does, where the last that was found does; else none of them does.
fn try_last(
    alloc: Global,
    question: &Question<'_>,
    told: &Told<'_>,
    aim: &Aim<'_>,
    trail: &Trail,
) -> Result<Option<usize>, NoMemory>
    requires sought { IsSought aim.now question.now told.now }
    requires trail { (n : ℕ) × (n ≤ row_count aim.now told.now)
        × IsTrail aim.now question.now told.now trail.now n }
    requires untried { trail.now.tried < length trail.now.found.items }
    ensures { IfOk result (λ r. MatchOption r ((k : ℕ) → k < length trail.now.found.items
        → DoesAt aim.now question.now told.now (found_at trail.now k) → ⊥)
        (IsNearest aim.now question.now told.now)) }
{
    let last = trail.found[trail.found.len() - 1];
    if !does_at(alloc, question, told, aim, last)? {
        return Ok(None);
    }
    let first = halve(alloc, question, told, aim, trail)?;
    Ok(Some(trail.found[first]))
}

// Looks at one row more; twice as many candidates are found between one try and the next.
fn step(
    alloc: Global,
    question: &Question<'_>,
    told: &Told<'_>,
    aim: &Aim<'_>,
    trail: &mut Trail,
    i: usize,
) -> Result<Option<usize>, NoMemory>
    requires sought { IsSought aim.now question.now told.now }
    requires within { i < row_count aim.now told.now }
    requires trail { IsTrail aim.now question.now told.now trail.old i }
    ensures { IfOk result (λ r. MatchOption r (IsTrail aim.now question.now told.now trail.new
        (i + 1)) (IsNearest aim.now question.now told.now)) }
{
    if !is_candidate(question, told, row_from(told, aim, i)) {
        return Ok(None);
    }
    trail.found.push(i)?;
    if trail.found.len() / 2 < trail.tried {
        return Ok(None);
    }
    let hit = try_last(alloc, question, told, aim, trail)?;
    trail.tried = trail.found.len();
    Ok(hit)
}

// The nearest candidate that does.
fn nearest(
    alloc: Global,
    question: &Question<'_>,
    told: &Told<'_>,
    aim: &Aim<'_>,
) -> Result<Option<usize>, NoMemory>
    requires sought { IsSought aim.now question.now told.now }
    ensures { IfOk result (λ r. MatchOption r (NoneDo aim.now question.now told.now
        (row_count aim.now told.now)) (IsNearest aim.now question.now told.now)) }
{
    let mut trail = Trail {
        found: Vec::new(alloc),
        tried: 0,
    };
    for i in 0..row_count(told, aim) {
        match step(alloc, question, told, aim, &mut trail, i)? {
            Some(hit) => return Ok(Some(hit)),
            None => {}
        }
    }
    if trail.tried == trail.found.len() {
        return Ok(None);
    }
    try_last(alloc, question, told, aim, &trail)
}

// Its tenth.
fn nearest_tenth(
    alloc: Global,
    question: &Question<'_>,
    told: &Told<'_>,
    aim: &Aim<'_>,
) -> Result<Option<u32>, NoMemory>
    requires sought { IsSought aim.now question.now told.now }
    ensures { IfOk result (λ r. MatchOption r (NoneDo aim.now question.now told.now
        (row_count aim.now told.now)) (IsNearestTenth aim.now question.now told.now)) }
{
    match nearest(alloc, question, told, aim)? {
        Some(i) => Ok(Some(row_from(told, aim, i).at)),
        None => Ok(None),
    }
}

/// The tenth of the first candidate among the rows after the place up to which the tenths break it.
pub(crate) fn first_end(
    alloc: Global,
    question: &Question<'_>,
    start: &Start<'_>,
    told: &Told<'_>,
) -> Result<Option<u32>, NoMemory>
    requires told { (f t : ℕ) × IsToldAt question.now told.now f t
        × FitsStart start.now question.now.specs.now f
        × EndsGrow start.now question.now told.now t }
    ensures { IfOk result (λ r. MatchOption r (NoEndRow start.now question.now told.now)
        (IsEndRow start.now question.now told.now)) }
{
    nearest_tenth(alloc, question, told, &Aim::End(start))
}

/// The tenth of the last candidate among the rows before the place from which on the tenths up to
/// the last break it.
pub(crate) fn last_begin(
    alloc: Global,
    question: &Question<'_>,
    told: &Told<'_>,
    last: u32,
) -> Result<Option<u32>, NoMemory>
    requires late { question.now.at ≤ last }
    requires told { (f t : ℕ) × IsToldAt question.now told.now f t
        × IsCutAfter t told.now.stretches.now last × BeginsGrow question.now told.now last f }
    ensures { IfOk result (λ r. MatchOption r (NoBeginRow question.now told.now last)
        (IsBeginRow question.now told.now last)) }
{
    nearest_tenth(alloc, question, told, &Aim::Begin(last))
}
