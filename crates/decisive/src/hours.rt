// What the store tells of some hours, one after another.
ghost use Rattle.std.specs.Prelude.{◌≡◌, ◌++◌, ◌+◌, ◌<◌, ◌≤◌, ◌^◌, ℕ, List, length, option_copied, IfOk, OnOk};
ghost use Rattle.channel_tables.specs.declared.spec.Spec.{Spec};
ghost use Rattle.hour_store.specs.Store.{rows_at};
ghost use Rattle.board.specs.Channels.{AreSpecs};
ghost use Rattle.board.specs.Courses.{AreCourses};
ghost use Rattle.board.specs.Logs.{first_tenth};
ghost use Rattle.signal_log.specs.Log.{log_of};
ghost use Rattle.signal_log.specs.Points.{ArePastsAt, rows_or_none};
ghost use Rattle.decisive.specs.Laws.{TellsOf};
ghost use Rattle.decisive.specs.Searches.{ArePlaced, rank};
ghost use Rattle.sig_base.specs.Reads.{Grow};
ghost use Rattle.decisive.specs.Lines.{AreHourMoves};

use crate::judge::Told;
use board::{Course, Pasts, courses_of};
use channel_tables::Spec;
use gap_map::{Stretch, stretches};
use hour_store::HourStore;
use ring_config::Config;
use sig_base::{Hour, NoMemory, Reads, Row};
use std::alloc::Global;

/// The rows of some hours and their stretches.
#[derive(Drop)]
pub(crate) struct HoursTold {
    pub(crate) rows: Vec<Row>,
    pub(crate) stretches: Vec<Stretch>,
}

/// The same, and after how many of the rows the place is.
#[derive(Drop)]
pub(crate) struct Placed {
    pub(crate) told: HoursTold,
    pub(crate) place: usize,
}

impl Placed {
    /// Each channel's moves of what is told.
    pub(crate) fn courses(&self, alloc: Global, specs: &[Spec]) -> Result<Vec<Course>, NoMemory>
        requires specs { AreSpecs specs.now }
        requires few { length self.now.told.rows.items < 2 ^ 32 }
        ensures { IfOk result (λ v. AreCourses specs.now self.now.told.rows.items
            self.now.told.stretches.items v.items) }
    {
        courses_of(alloc, specs, &self.told.rows, &self.told.stretches)
    }

    /// What is told, with these moves of it.
    pub(crate) fn told_with<'a>(&'a self, courses: &'a [Course]) -> Told<'a>
        ensures rows { result.rows.now ≡ self.now.told.rows.items }
        ensures stretches { result.stretches.now ≡ self.now.told.stretches.items }
        ensures courses { result.courses.now ≡ courses.now }
        ensures place { result.place ≡ self.now.place }
    {
        Told {
            rows: self.told.rows.as_slice(),
            stretches: self.told.stretches.as_slice(),
            courses,
            place: self.place,
        }
    }
}

// The rows, or none.
fn copied(alloc: Global, rows: Option<&[Row]>) -> Result<Vec<Row>, NoMemory>
    ensures { IfOk result (λ v. v.items ≡ rows_or_none (option_copied rows.entry)) }
{
    let mut own = Vec::new(alloc);
    match rows {
        Some(rows) => {
            own.extend_from_slice(rows)?;
            Ok(own)
        }
        None => Ok(own),
    }
}

/// What is told of an hour, which is opened.
pub(crate) fn hour_told<L>(
    alloc: Global,
    store: &HourStore<L>,
    hour: Hour,
    reads: &mut Reads<L>,
) -> Result<HoursTold, NoMemory>
    requires { hour < length store.now.hours }
    ensures tells { IfOk result (λ t. (specs : List Spec)
        → TellsOf (log_of specs store.now) t.rows.items t.stretches.items (first_tenth hour)
        (first_tenth (hour + 1))) }
    ensures rows { IfOk result (λ t. t.rows.items ≡ rows_or_none (rows_at store.now hour)) }
    ensures few { IfOk result (λ t. length t.rows.items ≤ 400000) }
    ensures grow { Grow reads.old reads.new }
{
    let rows = store.open_hour(hour, reads);
    let cut = stretches(alloc, hour, rows.is_some(), store.blanked())?;
    let own = copied(alloc, rows)?;
    Ok(HoursTold {
        rows: own,
        stretches: cut,
    })
}

/// What the windows of an hour's lines are looked for in first: the states of each channel at the
/// point before the hour, its rows, its stretches, and each channel's moves, cut once.
#[derive(Drop)]
pub struct HourMoves<'a> {
    pub(crate) before: &'a Pasts,
    pub(crate) rows: &'a [Row],
    pub(crate) stretches: Vec<Stretch>,
    pub(crate) courses: Vec<Course>,
}

impl<'a> HourMoves<'a> {
    /// Of an hour of the store, which is opened; `before` has the states at the point before it.
    pub fn new<L>(
        alloc: Global,
        config: &Config,
        store: &'a HourStore<L>,
        before: &'a Pasts,
        hour: Hour,
        reads: &mut Reads<L>,
    ) -> Result<HourMoves<'a>, NoMemory>
        requires within { hour < length store.now.hours }
        requires before { ArePastsAt (log_of config.now.specs store.now) hour before.now }
        ensures moves { IfOk result (AreHourMoves config.now.specs store.now hour) }
        ensures grow { Grow reads.old reads.new }
    {
        let opened = store.open_hour(hour, reads);
        let cut = stretches(alloc, hour, opened.is_some(), store.blanked())?;
        let rows = shown(opened);
        let courses = courses_of(alloc, config.specs(), rows, &cut)?;
        Ok(HourMoves {
            before,
            rows,
            stretches: cut,
            courses,
        })
    }

    /// What is told of the hour, with a place of a line.
    pub(crate) fn told(&self, place: usize) -> Told<'_>
        ensures rows { result.rows.now ≡ self.now.rows.now }
        ensures stretches { result.stretches.now ≡ self.now.stretches.items }
        ensures courses { result.courses.now ≡ self.now.courses.items }
        ensures place { result.place ≡ place }
    {
        Told {
            rows: self.rows,
            stretches: self.stretches.as_slice(),
            courses: self.courses.as_slice(),
            place,
        }
    }
}

// The rows, or none.
fn shown(rows: Option<&[Row]>) -> &[Row]
    ensures { result.now ≡ rows_or_none (option_copied rows.entry) }
{
    match rows {
        Some(rows) => rows,
        None => &[],
    }
}

/// Adds what is told of the hours after these.
pub(crate) fn append(told: &mut HoursTold, more: &HoursTold) -> Result<(), NoMemory>
    ensures rows { OnOk result (told.new.rows.items ≡ told.old.rows.items ++ more.now.rows.items) }
    ensures stretches { OnOk result (told.new.stretches.items ≡ told.old.stretches.items
        ++ more.now.stretches.items) }
{
    told.rows.extend_from_slice(&more.rows)?;
    told.stretches.extend_from_slice(&more.stretches)?;
    Ok(())
}

/// Adds what is told of the hour after these, which is opened.
pub(crate) fn add_hour<L>(
    alloc: Global,
    store: &HourStore<L>,
    told: &mut HoursTold,
    hour: Hour,
    reads: &mut Reads<L>,
) -> Result<(), NoMemory>
    requires { hour < length store.now.hours }
    ensures placed { OnOk result ((f k x n : ℕ) → ArePlaced store.now told.old f (first_tenth hour)
        k x n → ArePlaced store.now told.new f (first_tenth (hour + 1)) (k + 1) x n) }
    ensures rank { OnOk result ((f k x n : ℕ) → ArePlaced store.now told.old f (first_tenth hour) k
        x n → rank told.new x n ≡ rank told.old x n) }
    ensures grow { Grow reads.old reads.new }
{
    let more = hour_told(alloc, store, hour, reads)?;
    append(told, &more)
}

/// Puts what is told of an hour, which is opened, before what is told from the hour after it on.
pub(crate) fn hour_before<L>(
    alloc: Global,
    store: &HourStore<L>,
    hour: Hour,
    placed: &Placed,
    reads: &mut Reads<L>,
) -> Result<Placed, NoMemory>
    requires within { hour < length store.now.hours }
    requires few { placed.now.place + 400000 < 2 ^ 32 }
    ensures placed { IfOk result (λ p. (t k x : ℕ) → ArePlaced store.now placed.now.told
        (first_tenth (hour + 1)) t k x placed.now.place
        → ArePlaced store.now p.told (first_tenth hour) t (k + 1) x p.place) }
    ensures rank { IfOk result (λ p. (t k x : ℕ) → ArePlaced store.now placed.now.told
        (first_tenth (hour + 1)) t k x placed.now.place
        → rank p.told x p.place ≡ rank placed.now.told x placed.now.place) }
    ensures grow { Grow reads.old reads.new }
{
    let mut first = hour_told(alloc, store, hour, reads)?;
    let place = first.rows.len() + placed.place;
    append(&mut first, &placed.told)?;
    Ok(Placed { told: first, place })
}
