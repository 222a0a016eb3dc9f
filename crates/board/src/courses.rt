// The moves of each channel in an hour, in one pass over stretches and rows.
ghost use Rattle.std.specs.Prelude.{◌≡◌, ℕ, ◌+◌, ◌<◌, ◌≤◌, ◌^◌, [], ◌∷◌, ◌++◌, length, drop, take, slice_index_or, OnOk, IfOk};
ghost use Rattle.channel_tables.specs.declared.spec.Spec.{Spec};
ghost use Rattle.channel_path.specs.declared.moves.Move.{Move};
ghost use Rattle.channel_path.specs.declared.moves.Move.TheVariants.{Letter, Gap};
ghost use Rattle.board.specs.Channels.{letter_in, track, AreSpecs};
ghost use Rattle.board.specs.Moves.{RowsIn, count_before, with_letter, letter_moves, stretch_moves};
ghost use Rattle.board.specs.Courses.{AreAdded, AreCourses, AreCoursesFrom, course_log};
ghost use Rattle.board.specs.Finding.{IsFinder};
ghost use Rattle.board.specs.Stops.{moves_at};

use crate::finder::Finder;
use crate::slice_view::SliceView;
use channel_path::Move;
use channel_tables::Spec;
use gap_map::Stretch;
use sig_base::{NoMemory, Row};
use std::alloc::Global;
use std::marker::Model;

// Up to so many moves a course has room for from the start.
const MOST_ROOM: usize = 4_096;

/// The moves of one channel.
#[derive(Drop)]
pub struct Course {
    moves: Vec<Move>,
}

impl Model for Course {
    ghost use Rattle.std.specs.Prelude.{List};
    ghost use Rattle.channel_path.specs.declared.moves.Move.{Move};

    ghost Value = { List Move };

    ghost view = { λ c. c.moves.items };
}

impl Course {
    // None yet, with room for so many.
    fn new(alloc: Global, room: usize) -> Result<Course, NoMemory>
        ensures { IfOk result (λ c. c ≡ []) }
    {
        let moves = Vec::with_capacity(alloc, room)?;
        Ok(Course { moves })
    }

    fn add(&mut self, one: Move) -> Result<(), NoMemory>
        ensures { OnOk result (self.new ≡ self.old ++ one ∷ []) }
    {
        self.moves.push(one)?;
        Ok(())
    }

    /// The moves, in the order of their tenths.
    pub fn moves(&self) -> &[Move]
        ensures { result.now ≡ self.now }
    {
        self.moves.as_slice()
    }

    /// The moves, in the place of the course.
    pub fn into_moves(self) -> Vec<Move>
        ensures { result.items ≡ self }
    {
        self.moves
    }
}

/// The courses of an hour's channels, made once and lent to all that goes over the hour channel by
/// channel. A clause sees what they are cut out of.
#[derive(Drop)]
pub struct Courses {
    pub(crate) specs: SliceView<Spec>,
    pub(crate) rows: SliceView<Row>,
    pub(crate) stretches: SliceView<Stretch>,
    pub(crate) list: Vec<Course>,
}

impl Model for Courses {
    ghost use Rattle.board.specs.Courses.{AreCourses, CourseLog, course_log};

    ghost Value = { CourseLog };

    ghost view = { λ c. course_log c.specs.items c.rows.items c.stretches.items };

    ghost invariant = { λ c. AreCourses c.specs.items c.rows.items c.stretches.items c.list.items };
}

impl Courses {
    /// Those of the hour that has these rows and stretches.
    pub fn of(
        alloc: Global,
        specs: &[Spec],
        rows: &[Row],
        stretches: &[Stretch],
    ) -> Result<Courses, NoMemory>
        requires specs { AreSpecs specs.now }
        requires few { length rows.now < 2 ^ 32 }
        ensures { IfOk result (λ c. c ≡ course_log specs.now rows.now stretches.now) }
    {
        let list = courses_of(alloc, specs, rows, stretches)?;
        Ok(Courses {
            specs: SliceView::of(specs),
            rows: SliceView::of(rows),
            stretches: SliceView::of(stretches),
            list,
        })
    }

    /// What happens to the channel with this place among the specs, from 0.
    pub fn moves(&self, spec: u16) -> &[Move]
        requires { spec < length self.now.specs }
        ensures { (d : Spec) → result.now ≡ moves_at self.now.specs self.now.rows self.now.stretches
            spec d }
    {
        self.list[spec as usize].moves()
    }

    /// They, in the order of the channels.
    pub(crate) fn list(&self) -> &[Course]
        ensures { AreCourses self.now.specs self.now.rows self.now.stretches result.now }
    {
        self.list.as_slice()
    }
}

/// The moves of each channel over the stretches.
pub fn courses_of(
    alloc: Global,
    specs: &[Spec],
    rows: &[Row],
    stretches: &[Stretch],
) -> Result<Vec<Course>, NoMemory>
    requires specs { AreSpecs specs.now }
    requires few { length rows.now < 2 ^ 32 }
    ensures { IfOk result (λ v. AreCourses specs.now rows.now stretches.now v.items) }
{
    courses_from(alloc, specs, rows, 0, stretches)
}

/// The moves of each channel over the stretches, before which so many of the rows stand.
pub(crate) fn courses_from(
    alloc: Global,
    specs: &[Spec],
    rows: &[Row],
    first: usize,
    stretches: &[Stretch],
) -> Result<Vec<Course>, NoMemory>
    requires specs { AreSpecs specs.now }
    requires few { length rows.now < 2 ^ 32 }
    requires first { first ≤ length rows.now }
    ensures { IfOk result (λ v. AreCoursesFrom specs.now first (drop first rows.now) stretches.now
        v.items) }
{
    let count = rows.len() - first;
    let mut finder = Finder::new(alloc, specs, count)?;
    let mut courses = empty(alloc, specs.len(), (count / 16).min(MOST_ROOM))?;
    let mut next = first;
    for stretch in stretches {
        next = add_stretch(
            specs,
            &mut finder,
            courses.as_mut_slice(),
            rows,
            next,
            *stretch,
        )?;
    }
    Ok(courses)
}

// So many courses, each with room for so many moves.
fn empty(alloc: Global, count: usize, room: usize) -> Result<Vec<Course>, NoMemory>
    ensures { IfOk result (λ v. (length v.items ≡ count)
        × ((i : ℕ) → slice_index_or v.items i [] ≡ [])) }
{
    let mut courses = Vec::with_capacity(alloc, count)?;
    for _course in 0..count {
        let course = Course::new(alloc, room)?;
        courses.push(course)?;
    }
    Ok(courses)
}

// The moves of a stretch, of which the next row is the first. Answers which row comes next then.
fn add_stretch(
    specs: &[Spec],
    finder: &mut Finder,
    courses: &mut [Course],
    rows: &[Row],
    next: usize,
    stretch: Stretch,
) -> Result<usize, NoMemory>
    requires specs { AreSpecs specs.now }
    requires finder { IsFinder specs.now finder.old }
    requires same { length courses.old ≡ length specs.now }
    requires few { length rows.now < 2 ^ 32 }
    requires next { next ≤ length rows.now }
    ensures next { IfOk result (λ n. n ≡ next + count_before stretch.to (drop next rows.now)) }
    ensures added { OnOk result ((d : Spec) → AreAdded courses.old courses.new
        (λ i. stretch_moves (track (slice_index_or specs.now i d)) next
        (take (count_before stretch.to (drop next rows.now)) (drop next rows.now)) stretch)) }
    ensures finder { IsFinder specs.now finder.new }
{
    let (_done, rest) = rows.split_at(next);
    let count = count_before(rest, stretch.to);
    if stretch.known {
        let (here, _later) = rest.split_at(count);
        add_rows(specs, finder, courses, here, next as u32)?;
        return Ok(next + count);
    }
    add_gap(courses, stretch.from, stretch.to)?;
    Ok(next + count)
}

/// The number of first rows before the tenth.
pub fn count_before(rows: &[Row], tenth: u32) -> usize
    ensures { result ≡ count_before tenth rows.now }
{
    for (i, row) in rows.iter().enumerate() {
        if row.at >= tenth {
            return i;
        }
    }
    rows.len()
}

/// The same of rows in order, by halves.
pub(crate) fn rows_before(rows: &[Row], tenth: u32) -> usize
    ensures count { (f t : ℕ) → RowsIn f t rows.now → result ≡ count_before tenth rows.now }
    ensures within { result ≤ length rows.now }
{
    rows.partition_point(|row| row.at < tenth)
}

// A gap for each channel.
fn add_gap(courses: &mut [Course], from: u32, to: u32) -> Result<(), NoMemory>
    ensures { OnOk result (AreAdded courses.old courses.new (λ _. Gap from to ∷ [])) }
{
    for course in courses.iter_mut() {
        course.add(Move::Gap { from, to })?;
    }
    Ok(())
}

// The rows, of which the first has this number.
fn add_rows(
    specs: &[Spec],
    finder: &mut Finder,
    courses: &mut [Course],
    rows: &[Row],
    first: u32,
) -> Result<(), NoMemory>
    requires specs { AreSpecs specs.now }
    requires finder { IsFinder specs.now finder.old }
    requires same { length courses.old ≡ length specs.now }
    requires few { first + length rows.now < 2 ^ 32 }
    ensures finder { IsFinder specs.now finder.new }
    ensures added { OnOk result ((d : Spec) → AreAdded courses.old courses.new
        (λ i. letter_moves (track (slice_index_or specs.now i d)) first rows.now)) }
{
    let mut number = first;
    for row in rows {
        add_row(specs, finder, courses, *row, number)?;
        number += 1;
    }
    Ok(())
}

// A row, for the channel to which it belongs.
fn add_row(
    specs: &[Spec],
    finder: &mut Finder,
    courses: &mut [Course],
    row: Row,
    number: u32,
) -> Result<(), NoMemory>
    requires specs { AreSpecs specs.now }
    requires finder { IsFinder specs.now finder.old }
    requires same { length courses.old ≡ length specs.now }
    ensures finder { IsFinder specs.now finder.new }
    ensures added { OnOk result ((d : Spec) → AreAdded courses.old courses.new
        (λ i. with_letter (letter_in (slice_index_or specs.now i d) row.code row.param) row.at
        number [])) }
{
    let Some((place, letter)) = finder.find(specs, row.code, row.param) else {
        return Ok(());
    };
    courses[place as usize].add(Move::Letter {
        at: row.at,
        letter,
        row: number,
    })?;
    Ok(())
}
