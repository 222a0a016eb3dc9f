// What is asked of one file: the count of its codes, or the packed hour of its rows.
ghost use Rattle.std.specs.Prelude.{◌≡◌, ◌⊎◌, ◌<◌, [], true, Ok, IfSome};
ghost use Rattle.sig_base.specs.Reads.{raised};
ghost use Rattle.sig_base.specs.Window.{IsDay};
ghost use Rattle.row_reader.specs.Repeats.{HasNoRepeat};
ghost use Rattle.row_reader.specs.Signal.{is_signal};
ghost use Rattle.sigaudit.specs.Status.{status_of_run};
ghost use Rattle.sigaudit.specs.Request.{plain_asked};
ghost use Rattle.sigaudit.specs.Transcript.{file_outcome, limited, outcome, outcome_of, pack_outcome, window_of};
ghost use Rattle.sigaudit.specs.Run.{world, RunsAs, FileCause, NeverFall, PutsOutcome};
ghost use Rattle.report_text.specs.Counts.{count_text};
ghost use Rattle.report_text.specs.Packed.{packed_text};
ghost use Rattle.report_text.specs.Refusals.{refusal_text};

use crate::hour_file::{Unread, read_hour};
use crate::status::{Ended, Stopped};
use hour_pack::{PackError, pack};
use outside::{FetchError, Shelf, Sink};
use report_text::{Refusal, put_counts, put_packed_refusal, put_refusal};
use row_reader::{RowError, read_rows};
use sig_base::{HourRows, Reads, Window};
use std::alloc::Global;

/// What is asked of a file.
#[derive(Clone, Copy)]
pub enum Task {
    /// The count of its codes.
    Count,
    /// The packed hour of its rows.
    Pack,
}

/// What is asked of one file: its name, the signal, and the hour of a day, counted from 1970-01-01.
#[derive(Clone, Copy)]
pub struct FileAsked<'a> {
    pub task: Task,
    pub file: &'a str,
    pub signal: &'a str,
    pub day: i64,
    pub hour: u8,
}

// The most bytes of the file.
const LONGEST: u64 = 32 * 1_048_576;

fn show_counts<L, K: Sink>(
    rows: &HourRows<L>,
    sink: &mut K,
    reads: &mut Reads<L>,
) -> Result<Ended, Stopped>
    ensures put { PutsOutcome (outcome (count_text rows.now.rows rows.now.repeats) Ended.Done)
        (K.taken sink.old) (K.taken sink.new) result }
    ensures reads { reads.new ≡ raised reads.old rows.now.hour }
{
    put_counts(rows.show(reads), rows.repeats(), sink)?;
    Ok(Ended::Done)
}

fn show_refusal<K: Sink>(window: &Window, error: RowError, sink: &mut K) -> Result<Ended, Stopped>
    ensures { PutsOutcome (outcome (refusal_text window.now None (Refusal.File error))
        Ended.SomeRefused) (K.taken sink.old) (K.taken sink.new) result }
{
    put_refusal(window, None, &Refusal::File(error), sink)?;
    Ok(Ended::SomeRefused)
}

// Writes the count of what the bytes of the file say.
fn put_count<L, K: Sink>(
    alloc: Global,
    bytes: &[u8],
    asked: &FileAsked<'_>,
    window: &Window,
    sink: &mut K,
    reads: &mut Reads<L>,
) -> Result<Ended, Stopped>
    requires { window.now ≡ window_of (plain_asked asked.now) }
    ensures put { PutsOutcome (outcome_of Task.Count (plain_asked asked.now) bytes.now)
        (K.taken sink.old) (K.taken sink.new) result }
    ensures reads { (reads.new ≡ reads.old) ⊎ (reads.new ≡ raised reads.old 0) }
{
    match read_rows::<L>(alloc, bytes, asked.signal, 0, window) {
        Ok(rows) => show_counts(&rows, sink, reads),
        Err(RowError::Memory) => Err(Stopped::Memory),
        Err(error) => show_refusal(window, error, sink),
    }
}

fn show_packed<K: Sink>(bytes: &[u8], sink: &mut K) -> Result<Ended, Stopped>
    ensures { PutsOutcome (outcome bytes.now Ended.Done) (K.taken sink.old) (K.taken sink.new)
        result }
{
    sink.put(bytes)?;
    Ok(Ended::Done)
}

fn show_packed_refusal<K: Sink>(error: PackError, sink: &mut K) -> Result<Ended, Stopped>
    ensures { PutsOutcome (outcome (packed_text None error) Ended.SomeRefused) (K.taken sink.old)
        (K.taken sink.new) result }
{
    put_packed_refusal(None, error, sink)?;
    Ok(Ended::SomeRefused)
}

// Writes the packed hour of these rows.
fn pack_rows<L, K: Sink>(
    alloc: Global,
    rows: &HourRows<L>,
    asked: &FileAsked<'_>,
    window: &Window,
    sink: &mut K,
    reads: &mut Reads<L>,
) -> Result<Ended, Stopped>
    requires window { window.now ≡ window_of (plain_asked asked.now) }
    requires signal { is_signal asked.now.signal.now ≡ true }
    requires hour { rows.now.hour ≡ 0 }
    requires no_repeat { HasNoRepeat [] rows.now.rows }
    ensures put { PutsOutcome (pack_outcome (plain_asked asked.now) (Ok rows.now))
        (K.taken sink.old) (K.taken sink.new) result }
    ensures reads { reads.new ≡ raised reads.old 0 }
{
    let bytes = pack(alloc, asked.signal, window, rows, reads)?;
    show_packed(&bytes, sink)
}

// Writes the packed hour of what the bytes of the file say.
fn put_pack<L, K: Sink>(
    alloc: Global,
    bytes: &[u8],
    asked: &FileAsked<'_>,
    window: &Window,
    sink: &mut K,
    reads: &mut Reads<L>,
) -> Result<Ended, Stopped>
    requires window { window.now ≡ window_of (plain_asked asked.now) }
    requires signal { is_signal asked.now.signal.now ≡ true }
    ensures put { PutsOutcome (outcome_of Task.Pack (plain_asked asked.now) bytes.now)
        (K.taken sink.old) (K.taken sink.new) result }
    ensures reads { (reads.new ≡ reads.old) ⊎ (reads.new ≡ raised reads.old 0) }
{
    match read_hour::<L>(alloc, bytes, asked.signal, 0, window) {
        Ok(rows) => pack_rows(alloc, &rows, asked, window, sink, reads),
        Err(Unread::Records(error)) => show_refusal(window, error, sink),
        Err(Unread::Packed(error)) => show_packed_refusal(error, sink),
        Err(Unread::Memory) => Err(Stopped::Memory),
    }
}

// Writes what is asked of the bytes of the file.
fn put_outcome<L, K: Sink>(
    alloc: Global,
    bytes: &[u8],
    asked: &FileAsked<'_>,
    window: &Window,
    sink: &mut K,
    reads: &mut Reads<L>,
) -> Result<Ended, Stopped>
    requires window { window.now ≡ window_of (plain_asked asked.now) }
    requires signal { is_signal asked.now.signal.now ≡ true }
    ensures put { PutsOutcome (outcome_of asked.now.task (plain_asked asked.now) bytes.now)
        (K.taken sink.old) (K.taken sink.new) result }
    ensures reads { (reads.new ≡ reads.old) ⊎ (reads.new ≡ raised reads.old 0) }
{
    match asked.task {
        Task::Count => put_count(alloc, bytes, asked, window, sink, reads),
        Task::Pack => put_pack(alloc, bytes, asked, window, sink, reads),
    }
}

/// Reads one file and writes what is asked of it.
pub fn put_file<L, S: Shelf, K: Sink>(
    alloc: Global,
    asked: &FileAsked<'_>,
    shelf: &mut S,
    sink: &mut K,
    reads: &mut Reads<L>,
) -> Result<Ended, Stopped>
    requires day { IsDay asked.now.day }
    requires hour { asked.now.hour < 24 }
    requires signal { is_signal asked.now.signal.now ≡ true }
    ensures told { IfSome (S.files shelf.old) (λ files. RunsAs
        (λ lines o. o ≡ file_outcome asked.now.task (plain_asked asked.now)
        (limited 33554432 (files asked.now.file.now))) (world (S.counts shelf.old) (K.taken sink.old))
        (world (S.counts shelf.new) (K.taken sink.new)) (status_of_run result)) }
    ensures cause { FileCause (world (S.counts shelf.old) (K.taken sink.old))
        (world (S.counts shelf.new) (K.taken sink.new)) (status_of_run result) }
    ensures never_fall { NeverFall (world (S.counts shelf.old) (K.taken sink.old))
        (world (S.counts shelf.new) (K.taken sink.new)) }
    ensures reads { (reads.new ≡ reads.old) ⊎ (reads.new ≡ raised reads.old 0) }
{
    let Some(window) = Window::new(asked.day, asked.hour, 1) else {
        unreachable!();
    };
    let mut bytes = Vec::new(alloc);
    match shelf.fetch(alloc, asked.file, LONGEST, &mut bytes) {
        Ok(()) => put_outcome(alloc, &bytes, asked, &window, sink, reads),
        Err(FetchError::Missing) => Ok(Ended::NoFile),
        Err(FetchError::TooLong) => Ok(Ended::NoFile),
        Err(FetchError::Failed) => Err(Stopped::Fault),
        Err(FetchError::Memory) => Err(Stopped::Memory),
    }
}
