// Some tenths of a store.
ghost use Rattle.std.specs.Prelude.{◌≡◌, ◌∷◌, [], ◌<◌, ◌^◌, length, IfOk};
ghost use Rattle.board.specs.Channels.{AreSpecs, track};
ghost use Rattle.board.specs.Moves.{own};
ghost use Rattle.hour_store.specs.Store.{IsStore};
ghost use Rattle.sig_base.specs.Reads.{Grow};
ghost use Rattle.strand_search.specs.Parts.{IsHourPart};

use board::{Course, courses_of};
use channel_tables::Spec;
use gap_map::{Stretch, stretches};
use hour_store::HourStore;
use sig_base::{Hour, NoMemory, Reads, Row};
use std::alloc::Global;

/// Some tenths: their rows, and their stretches by what is known.
#[derive(Drop)]
pub(crate) struct Part<'a> {
    pub(crate) rows: &'a [Row],
    pub(crate) stretches: Vec<Stretch>,
}

/// An hour, which is opened.
#[tactic(auto, using(crate::proofs::Growing::grow_raised_to))]
pub(crate) fn hour_part<'a, L>(
    alloc: Global,
    store: &'a HourStore<L>,
    hour: Hour,
    reads: &mut Reads<L>,
) -> Result<Part<'a>, NoMemory>
    requires { hour < length store.now.hours }
    ensures store { IsStore store.now }
    ensures part { IfOk result (λ p. IsHourPart store.now hour p.rows.now p.stretches.items) }
    ensures grow { Grow reads.old reads.new }
{
    let rows = store.open_hour(hour, reads);
    let cut = stretches(alloc, hour, rows.is_some(), store.blanked())?;
    Ok(Part {
        rows: rows.unwrap_or(&[]),
        stretches: cut,
    })
}

// The only one.
fn only(courses: Vec<Course>) -> Course
    requires { length courses.items ≡ 1 }
    ensures { courses.items ≡ result ∷ [] }
{
    let mut courses = courses;
    match courses.pop() {
        Some(course) => course,
        None => unreachable!(),
    }
}

/// The moves of one channel over the part.
pub(crate) fn course_of(alloc: Global, spec: &Spec, part: &Part<'_>) -> Result<Course, NoMemory>
    requires spec { AreSpecs (spec.now ∷ []) }
    requires few { length part.now.rows.now < 2 ^ 32 }
    ensures { IfOk result (λ c. c
        ≡ own (track spec.now) 0 part.now.rows.now part.now.stretches.items) }
{
    let courses = courses_of(
        alloc,
        std::slice::from_ref(spec),
        part.rows,
        &part.stretches,
    )?;
    Ok(only(courses))
}
