// Whether an obligation is broken over some tenths alone.
ghost use Rattle.std.specs.Prelude.{◌↔◌, ◌++◌, ℕ, ◌≤◌, IsTrue, IfOk};
ghost use Rattle.channel_path.specs.Walks.{InOrder};
ghost use Rattle.board.specs.Channels.{AreSpecs};
ghost use Rattle.decisive.specs.Breaks.{Breaks, FitsPart, FitsStart, track_of};
ghost use Rattle.decisive.specs.Cuts.{IsCutAfter, IsCutBefore};
ghost use Rattle.decisive.specs.Tries.{Begins, Ends, IsToldAt, PartBegins, PartEnds};

use crate::channel_judge::{is_broken_after, is_broken_from};
use crate::cuts::{about_place, moves_from, moves_to};
use crate::parts::Part;
use board::{Course, Pasts};
use channel_path::Move;
use channel_tables::{Spec, machine_of};
use gap_map::Stretch;
use sig_base::{NoMemory, Row};
use std::alloc::Global;

/// What is asked: of these channels' states at a place of the tenth.
#[derive(Drop)]
pub(crate) struct Question<'a> {
    pub(crate) specs: &'a [Spec],
    pub(crate) parts: &'a [Part],
    pub(crate) at: u32,
}

/// The states with which a walk may begin: any of those with which the tenth may begin, or those that
/// are kept at a point.
#[derive(Drop)]
pub(crate) enum Start<'a> {
    Free(u32),
    Kept(&'a Pasts),
}

/// What is told of some tenths, each channel's moves of that, and after how many of its rows the
/// place is.
#[derive(Drop)]
pub(crate) struct Told<'a> {
    pub(crate) rows: &'a [Row],
    pub(crate) stretches: &'a [Stretch],
    pub(crate) courses: &'a [Course],
    pub(crate) place: usize,
}

// Whether no walk over the first moves and then the others has the state between them that the
// channel's is to be.
fn walk_breaks(
    alloc: Global,
    question: &Question<'_>,
    part: Part,
    start: &Start<'_>,
    to: &[Move],
    on: &[Move],
) -> Result<bool, NoMemory>
    requires are { AreSpecs question.now.specs.now }
    requires part { FitsPart question.now.specs.now part }
    requires start { (f : ℕ) × FitsStart start.now question.now.specs.now f
        × InOrder (track_of question.now.specs.now part.spec).rules f (to.now ++ on.now) }
    ensures { IfOk result (λ b. IsTrue b ↔ Breaks start.now question.now.specs.now question.now.at
        part to.now on.now) }
{
    let machine = machine_of(&question.specs[part.spec as usize]);
    match start {
        Start::Free(from) => is_broken_from(alloc, &machine, *from, to, part.keep, question.at, on),
        Start::Kept(pasts) => {
            let past = pasts.at(part.spec);
            is_broken_after(alloc, &machine, past, to, part.keep, question.at, on)
        }
    }
}

// Whether the tenths up to this one have no such state of the channel.
fn part_ends(
    alloc: Global,
    question: &Question<'_>,
    part: Part,
    start: &Start<'_>,
    told: &Told<'_>,
    tenth: u32,
) -> Result<bool, NoMemory>
    requires part { FitsPart question.now.specs.now part }
    requires late { question.now.at ≤ tenth }
    requires told { (f t : ℕ) × IsToldAt question.now told.now f t
        × FitsStart start.now question.now.specs.now f × IsCutAfter t told.now.stretches.now tenth }
    ensures { IfOk result (λ b. IsTrue b ↔ PartEnds start.now question.now told.now tenth part) }
{
    let course = &told.courses[part.spec as usize];
    let (to, on) = about_place(moves_to(course.moves(), tenth), told.place, question.at);
    walk_breaks(alloc, question, part, start, to, on)
}

// Whether of the tenths up to the last those from this one on have none.
fn part_begins(
    alloc: Global,
    question: &Question<'_>,
    part: Part,
    told: &Told<'_>,
    tenth: u32,
    last: u32,
) -> Result<bool, NoMemory>
    requires part { FitsPart question.now.specs.now part }
    requires early { tenth ≤ question.now.at }
    requires late { question.now.at ≤ last }
    requires told { (f t : ℕ) × IsToldAt question.now told.now f t
        × IsCutBefore f told.now.stretches.now tenth × IsCutAfter t told.now.stretches.now last }
    ensures { IfOk result (λ b. IsTrue b ↔ PartBegins question.now told.now last tenth part) }
{
    let course = &told.courses[part.spec as usize];
    let moves = moves_from(moves_to(course.moves(), last), tenth);
    let (to, on) = about_place(moves, told.place, question.at);
    walk_breaks(alloc, question, part, &Start::Free(tenth), to, on)
}

/// Whether the tenths up to this one break it.
pub(crate) fn ends_by(
    alloc: Global,
    question: &Question<'_>,
    start: &Start<'_>,
    told: &Told<'_>,
    tenth: u32,
) -> Result<bool, NoMemory>
    requires late { question.now.at ≤ tenth }
    requires told { (f t : ℕ) × IsToldAt question.now told.now f t
        × FitsStart start.now question.now.specs.now f × IsCutAfter t told.now.stretches.now tenth }
    ensures { IfOk result (λ b. IsTrue b ↔ Ends start.now question.now told.now tenth) }
{
    for i in 0..question.parts.len() {
        if !part_ends(alloc, question, question.parts[i], start, told, tenth)? {
            return Ok(false);
        }
    }
    Ok(true)
}

/// Whether of the tenths up to the last those from this one on break it.
pub(crate) fn begins_by(
    alloc: Global,
    question: &Question<'_>,
    told: &Told<'_>,
    tenth: u32,
    last: u32,
) -> Result<bool, NoMemory>
    requires early { tenth ≤ question.now.at }
    requires late { question.now.at ≤ last }
    requires told { (f t : ℕ) × IsToldAt question.now told.now f t
        × IsCutBefore f told.now.stretches.now tenth × IsCutAfter t told.now.stretches.now last }
    ensures { IfOk result (λ b. IsTrue b ↔ Begins question.now told.now last tenth) }
{
    for i in 0..question.parts.len() {
        if !part_begins(alloc, question, question.parts[i], told, tenth, last)? {
            return Ok(false);
        }
    }
    Ok(true)
}
