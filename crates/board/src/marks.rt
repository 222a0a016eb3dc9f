// Where a search among a channel's moves in an hour can begin.
ghost use Rattle.std.specs.Prelude.{◌≡◌, length, IfOk};

use crate::courses::Course;
use channel_path::Move;
use sig_base::{NoMemory, Tenth};
use std::alloc::Global;

// The marks of an hour, of 36,000 tenths.
const MARKS: usize = 141;

/// At each mark of an hour, one every 256 tenths, how many of a channel's moves come before it:
/// where a search can begin. Nothing rests on it but speed.
#[derive(Drop)]
pub struct Marks {
    first: u32,
    // Up to the last mark that no longer has all moves before it.
    counts: Vec<u32>,
    all: usize,
}

impl Marks {
    /// The marks of the moves, in the hour that begins at this tenth.
    pub fn new(alloc: Global, moves: &[Move], first: u32) -> Result<Marks, NoMemory> {
        let mut counts = Vec::new(alloc);
        let mut before: u32 = 0;
        for one in moves {
            let marks = (tenth_of(*one).saturating_sub(first) / 256 + 1) as usize;
            count_up_to(&mut counts, marks.min(MARKS), before)?;
            before = before.saturating_add(1);
        }
        Ok(Marks {
            first,
            counts,
            all: moves.len(),
        })
    }

    /// How many moves come before the mark at or before the tenth, and before the mark after it.
    pub fn about(&self, at: Tenth) -> (usize, usize) {
        let first = i64::from(self.first);
        if at < first {
            return (0, self.count(0));
        }
        let mark = (at - first) as usize / 256;
        (self.count(mark), self.count(mark + 1))
    }

    fn count(&self, mark: usize) -> usize {
        match self.counts.get(mark) {
            Some(count) => *count as usize,
            None => self.all,
        }
    }
}

/// The marks of each course, in the hour that begins at this tenth.
pub fn marks_of(alloc: Global, courses: &[Course], first: u32) -> Result<Vec<Marks>, NoMemory>
    ensures { IfOk result (λ v. length v.items ≡ length courses.now) }
{
    let mut marks = Vec::new(alloc);
    for course in courses {
        let own = Marks::new(alloc, course.moves(), first)?;
        marks.push(own)?;
    }
    Ok(marks)
}

// The tenth of the move, or its first.
fn tenth_of(one: Move) -> u32 {
    match one {
        Move::Gap { from, to: _to } => from,
        Move::Letter {
            at,
            letter: _letter,
            row: _row,
        } => at,
    }
}

// This count for each of the first marks, so many, that has none yet.
fn count_up_to(counts: &mut Vec<u32>, marks: usize, before: u32) -> Result<(), NoMemory> {
    for _mark in counts.len()..marks {
        counts.push(before)?;
    }
    Ok(())
}
