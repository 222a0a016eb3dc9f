// A script, line by line.
ghost use Rattle.std.specs.Prelude.{◌≡◌, ◌<◌, ◌≤◌, ◌^◌, Some, None, [], length, OnOk, nat_lt};
ghost use Rattle.outside.specs.Shelf.{Files};
ghost use Rattle.sig_base.specs.HourRows.{Shown};
ghost use Rattle.hour_store.specs.Store.{Store};
ghost use Rattle.session.specs.Edits.{change_of, hour_change};
ghost use Rattle.session.specs.Links.{AllSettled};
ghost use Rattle.session.specs.Opens.{AreOpenedOnce};
ghost use Rattle.sig_base.specs.Reads.{Grow};
ghost use Rattle.script_lines.specs.Lines.{lines_of};
ghost use Rattle.script_lines.specs.Words.{said};
ghost use Rattle.script_lines.specs.Seen.{seen, seen_edit};
ghost use Rattle.sigaudit.specs.Script.{edit_said, is_edit_memory, hour_file, load_bytes, IsEdited, IsMeasured, IsMeasuredOf, IsTurn, ReadsLoad, TakesLoad};
ghost use Rattle.sigaudit.specs.Counting.{AreCountedFor, ArePlain, BytesTally, EditTally, IsPlain, LineTally, LoadTally, ScriptTally};
ghost use Rattle.sigaudit.specs.Run.{world, CountsFetch, FetchesHour, NamesNoRow, IsCaused, NeverFall, Takes, TakesBy, TellsAll};

use crate::audit::{audit_line, verdicts_line};
use crate::hour_file::{Unread, read_hour};
use crate::offsets::offsets_line;
use crate::points::points_line;
use crate::refused::{refuse, refuse_packed};
use crate::status::Stopped;
use outside::{FetchError, Shelf, Sink};
use report_text::{Refusal, put_applied, put_hour_measures, put_window_measures};
use script_lines::{Line, PlainEdit, read_line, split_line};
use session::{Draft, Edit};
use sig_base::{EditError, Hour, HourRows, Reads};
use std::alloc::Global;

// What came of a fetch of an hour file.
#[derive(Clone, Copy)]
enum Fetched {
    There,
    Missed(Refusal),
    Cut(Stopped),
}

// What a line says that loads an hour, or replaces it: the line's number, the hour, the name of its
// file, and whether it replaces.
#[derive(Clone, Copy)]
struct LoadLine<'a> {
    number: u32,
    hour: Hour,
    name: &'a str,
    replaces: bool,
}

// The most bytes of an hour file.
const LONGEST: u64 = 32 * 1_048_576;

fn is_edit_memory(error: EditError) -> bool
    ensures { result ≡ is_edit_memory error }
{
    matches!(error, EditError::Memory)
}

// Makes an edit and answers its line; a load or a replacement names its rows and repeats. The
// numbers of the hours that change may wait until a line asks for them.
fn edit_line<L, K: Sink>(
    number: u32,
    loaded: Option<(u32, u32)>,
    edit: Edit<L>,
    session: &mut Draft<L>,
    sink: &mut K,
    reads: &mut Reads<L>,
) -> Result<bool, Stopped>
    ensures turn { TakesBy (IsEdited session.old.config number loaded session.old.store
        (change_of edit)) (K.taken sink.old) (K.taken sink.new) session.new.store result }
    ensures config { session.new.config ≡ session.old.config }
    ensures opens { OnOk result (AreCountedFor session.old.waiting session.new.waiting
        (EditTally session.old.config session.old.store (change_of edit)) reads.old reads.new) }
    ensures grow { Grow reads.old reads.new }
{
    match session.apply(edit, true, reads) {
        Ok(applied) => match put_applied(number, loaded, &applied, sink) {
            Ok(()) => Ok(false),
            Err(_) => Err(Stopped::Fault),
        },
        Err(error) => {
            if is_edit_memory(error) {
                return Err(Stopped::Memory);
            }
            refuse(session.config(), number, Refusal::Edit(error), sink)
        }
    }
}

// The edit that loads these rows, or puts them in the place of the held ones.
fn edit_of<L>(rows: HourRows<L>, replaces: bool) -> Edit<L>
    ensures { change_of result ≡ hour_change replaces rows }
{
    if replaces {
        Edit::Replace(rows)
    } else {
        Edit::Load(rows)
    }
}

// Loads or replaces an hour by what the bytes of its file say.
#[tactic(auto, using(crate::proofs::GrowFacts::grow_same))]
fn bytes_line<L, K: Sink>(
    alloc: Global,
    load: &LoadLine<'_>,
    bytes: &[u8],
    session: &mut Draft<L>,
    sink: &mut K,
    reads: &mut Reads<L>,
) -> Result<bool, Stopped>
    requires { load.now.hour < session.old.config.window.hours }
    ensures turn { TakesBy (ReadsLoad session.old.config load.now session.old.store bytes.now)
        (K.taken sink.old) (K.taken sink.new) session.new.store result }
    ensures config { session.new.config ≡ session.old.config }
    ensures opens { OnOk result (AreCountedFor session.old.waiting session.new.waiting
        (BytesTally session.old.config load.now session.old.store bytes.now)
        reads.old reads.new) }
    ensures grow { Grow reads.old reads.new }
{
    let config = session.config();
    match read_hour::<L>(alloc, bytes, config.signal(), load.hour, config.window()) {
        Ok(rows) => {
            let loaded = Some((rows.len(), rows.repeats()));
            let edit = edit_of(rows, load.replaces);
            edit_line(load.number, loaded, edit, session, sink, reads)
        }
        Err(Unread::Records(error)) => refuse(config, load.number, Refusal::File(error), sink),
        Err(Unread::Packed(error)) => refuse_packed(config, load.number, error, sink),
        Err(Unread::Memory) => Err(Stopped::Memory),
    }
}

// Fetches an hour file, or says why there is nothing to read.
fn fetch_hour<S: Shelf>(alloc: Global, name: &str, shelf: &mut S, bytes: &mut Vec<u8>) -> Fetched
    requires { bytes.old.items ≡ [] }
    ensures told { (files : Files) → S.files shelf.old ≡ Some files
        → FetchesHour (hour_file (files name.now)) bytes.new.items result }
    ensures plain { NamesNoRow result }
    ensures counts { CountsFetch (S.counts shelf.old) (S.counts shelf.new) result }
    ensures files { S.files shelf.new ≡ S.files shelf.old }
{
    match shelf.fetch(alloc, name, LONGEST, bytes) {
        Ok(()) => Fetched::There,
        Err(FetchError::Missing) => Fetched::Missed(Refusal::MissingFile),
        Err(FetchError::TooLong) => Fetched::Missed(Refusal::FileTooLong),
        Err(FetchError::Failed) => Fetched::Cut(Stopped::Fault),
        Err(FetchError::Memory) => Fetched::Cut(Stopped::Memory),
    }
}

// Loads or replaces an hour of the window by the file of this name.
#[tactic(auto, using(crate::proofs::GrowFacts::grow_same))]
fn fetch_line<L, S: Shelf, K: Sink>(
    alloc: Global,
    load: &LoadLine<'_>,
    session: &mut Draft<L>,
    shelf: &mut S,
    sink: &mut K,
    reads: &mut Reads<L>,
) -> Result<bool, Stopped>
    requires { load.now.hour < session.old.config.window.hours }
    ensures turn { (files : Files) → S.files shelf.old ≡ Some files
        → Takes (TakesLoad session.old.config load.now session.old.store
        (hour_file (files load.now.name.now))) (world (S.counts shelf.old) (K.taken sink.old))
        (world (S.counts shelf.new) (K.taken sink.new)) session.new.store result }
    ensures cause { IsCaused (world (S.counts shelf.old) (K.taken sink.old))
        (world (S.counts shelf.new) (K.taken sink.new)) result }
    ensures never_fall { NeverFall (world (S.counts shelf.old) (K.taken sink.old))
        (world (S.counts shelf.new) (K.taken sink.new)) }
    ensures files { S.files shelf.new ≡ S.files shelf.old }
    ensures config { session.new.config ≡ session.old.config }
    ensures opens { (files : Files) → S.files shelf.old ≡ Some files
        → OnOk result (AreCountedFor session.old.waiting session.new.waiting
        (LoadTally session.old.config load.now session.old.store
        (hour_file (files load.now.name.now))) reads.old reads.new) }
    ensures grow { Grow reads.old reads.new }
{
    let mut bytes = Vec::new(alloc);
    match fetch_hour(alloc, load.name, shelf, &mut bytes) {
        Fetched::There => bytes_line(alloc, load, &bytes, session, sink, reads),
        Fetched::Missed(refusal) => refuse(session.config(), load.number, refusal, sink),
        Fetched::Cut(stopped) => Err(stopped),
    }
}

// Loads or replaces an hour by the file of this name.
#[tactic(auto, using(crate::proofs::GrowFacts::grow_same))]
fn file_line<L, S: Shelf, K: Sink>(
    alloc: Global,
    load: &LoadLine<'_>,
    session: &mut Draft<L>,
    shelf: &mut S,
    sink: &mut K,
    reads: &mut Reads<L>,
) -> Result<bool, Stopped>
    ensures turn { (files : Files) → S.files shelf.old ≡ Some files
        → Takes (TakesLoad session.old.config load.now session.old.store
        (load_bytes files session.old.config load.now))
        (world (S.counts shelf.old) (K.taken sink.old))
        (world (S.counts shelf.new) (K.taken sink.new)) session.new.store result }
    ensures cause { IsCaused (world (S.counts shelf.old) (K.taken sink.old))
        (world (S.counts shelf.new) (K.taken sink.new)) result }
    ensures never_fall { NeverFall (world (S.counts shelf.old) (K.taken sink.old))
        (world (S.counts shelf.new) (K.taken sink.new)) }
    ensures files { S.files shelf.new ≡ S.files shelf.old }
    ensures config { session.new.config ≡ session.old.config }
    ensures opens { (files : Files) → S.files shelf.old ≡ Some files
        → OnOk result (AreCountedFor session.old.waiting session.new.waiting
        (LoadTally session.old.config load.now session.old.store
        (load_bytes files session.old.config load.now)) reads.old reads.new) }
    ensures grow { Grow reads.old reads.new }
{
    if load.hour >= session.config().window().hours() {
        return refuse(
            session.config(),
            load.number,
            Refusal::Edit(EditError::OutOfWindow),
            sink,
        );
    }
    fetch_line(alloc, load, session, shelf, sink, reads)
}

// Writes the measures of the window, where no numbers wait.
fn put_window<L, K: Sink>(number: u32, session: &Draft<L>, sink: &mut K) -> Result<bool, Stopped>
    requires { AllSettled session.now.waiting }
    ensures { TakesBy (IsMeasured session.now.config number session.now.store) (K.taken sink.old)
        (K.taken sink.new) session.now.store result }
{
    let total = session.report().total();
    put_window_measures(number, session.config(), total, sink)?;
    Ok(false)
}

// Works out the numbers that wait, and writes the measures of the window.
fn measures_line<L, K: Sink>(
    number: u32,
    session: &mut Draft<L>,
    sink: &mut K,
    reads: &mut Reads<L>,
) -> Result<bool, Stopped>
    ensures turn { TakesBy (IsMeasured session.old.config number session.old.store)
        (K.taken sink.old) (K.taken sink.new) session.new.store result }
    ensures config { session.new.config ≡ session.old.config }
    ensures opens { OnOk result (AreOpenedOnce session.old.waiting session.new.waiting
        reads.old reads.new) }
    ensures grow { Grow reads.old reads.new }
{
    session.settle(reads)?;
    put_window(number, session, sink)
}

// Writes the measures of one hour, where no numbers wait.
fn put_hour<L, K: Sink>(
    number: u32,
    hour: Hour,
    session: &Draft<L>,
    sink: &mut K,
) -> Result<bool, Stopped>
    requires { AllSettled session.now.waiting }
    ensures { TakesBy (IsMeasuredOf session.now.config number hour session.now.store
        (nat_lt hour session.now.config.window.hours)) (K.taken sink.old) (K.taken sink.new)
        session.now.store result }
{
    let config = session.config();
    let Some(part) = session.report().hour(hour) else {
        return refuse(config, number, Refusal::Edit(EditError::OutOfWindow), sink);
    };
    put_hour_measures(number, hour, config, part, sink)?;
    Ok(false)
}

// Works out the numbers that wait, and writes the measures of one hour.
fn hour_line<L, K: Sink>(
    number: u32,
    hour: Hour,
    session: &mut Draft<L>,
    sink: &mut K,
    reads: &mut Reads<L>,
) -> Result<bool, Stopped>
    ensures turn { TakesBy (IsMeasuredOf session.old.config number hour session.old.store
        (nat_lt hour session.old.config.window.hours)) (K.taken sink.old) (K.taken sink.new)
        session.new.store result }
    ensures config { session.new.config ≡ session.old.config }
    ensures opens { OnOk result (AreOpenedOnce session.old.waiting session.new.waiting
        reads.old reads.new) }
    ensures grow { Grow reads.old reads.new }
{
    session.settle(reads)?;
    put_hour(number, hour, session, sink)
}

// The edit of a line that names no file.
fn plain_edit<L>(edit: PlainEdit) -> Edit<L>
    ensures { edit_said (seen_edit edit) ≡ Some (change_of result) }
{
    match edit {
        PlainEdit::Withdraw(hour) => Edit::Withdraw(hour),
        PlainEdit::Blank(from, to) => Edit::Blank { from, to },
        PlainEdit::Unblank(from, to) => Edit::Unblank { from, to },
    }
}

// Takes a line by what it says.
#[tactic(auto, using(crate::proofs::GrowFacts::grow_same))]
fn take_said<L, S: Shelf, K: Sink>(
    alloc: Global,
    number: u32,
    line: Line<'_>,
    session: &mut Draft<L>,
    shelf: &mut S,
    sink: &mut K,
    reads: &mut Reads<L>,
) -> Result<bool, Stopped>
    ensures turn { (files : Files) → S.files shelf.old ≡ Some files
        → Takes (IsTurn files session.old.config number (seen line.entry) session.old.store)
        (world (S.counts shelf.old) (K.taken sink.old))
        (world (S.counts shelf.new) (K.taken sink.new)) session.new.store result }
    ensures cause { IsCaused (world (S.counts shelf.old) (K.taken sink.old))
        (world (S.counts shelf.new) (K.taken sink.new)) result }
    ensures never_fall { NeverFall (world (S.counts shelf.old) (K.taken sink.old))
        (world (S.counts shelf.new) (K.taken sink.new)) }
    ensures files { S.files shelf.new ≡ S.files shelf.old }
    ensures config { session.new.config ≡ session.old.config }
    ensures opens { (files : Files) → S.files shelf.old ≡ Some files
        → IsPlain session.old.config (seen line.entry)
        → OnOk result (AreCountedFor session.old.waiting session.new.waiting
        (LineTally files session.old.config (seen line.entry) session.old.store)
        reads.old reads.new) }
    ensures grow { Grow reads.old reads.new }
{
    match line {
        Line::Skip => Ok(false),
        Line::Bad => refuse(session.config(), number, Refusal::BadLine, sink),
        Line::Load(hour, name) => {
            let load = LoadLine {
                number,
                hour,
                name,
                replaces: false,
            };
            file_line(alloc, &load, session, shelf, sink, reads)
        }
        Line::Replace(hour, name) => {
            let load = LoadLine {
                number,
                hour,
                name,
                replaces: true,
            };
            file_line(alloc, &load, session, shelf, sink, reads)
        }
        Line::Audit => audit_line(alloc, number, session, sink, reads),
        Line::Verdicts(hour) => verdicts_line(number, hour, session, sink, reads),
        Line::Measures => measures_line(number, session, sink, reads),
        Line::MeasuresOf(hour) => hour_line(number, hour, session, sink, reads),
        Line::Points(phase) => points_line(number, phase, session, sink, reads),
        Line::Offsets(name) => offsets_line(alloc, number, name, session, sink, reads),
        Line::Edit(edit) => {
            let edit = plain_edit(edit);
            edit_line(number, None, edit, session, sink, reads)
        }
    }
}

// Takes a line of a script.
fn take_line<L, S: Shelf, K: Sink>(
    alloc: Global,
    number: u32,
    line: &[u8],
    session: &mut Draft<L>,
    shelf: &mut S,
    sink: &mut K,
    reads: &mut Reads<L>,
) -> Result<bool, Stopped>
    ensures turn { (files : Files) → S.files shelf.old ≡ Some files
        → Takes (IsTurn files session.old.config number (said session.old.config.window line.now)
        session.old.store) (world (S.counts shelf.old) (K.taken sink.old))
        (world (S.counts shelf.new) (K.taken sink.new)) session.new.store result }
    ensures cause { IsCaused (world (S.counts shelf.old) (K.taken sink.old))
        (world (S.counts shelf.new) (K.taken sink.new)) result }
    ensures never_fall { NeverFall (world (S.counts shelf.old) (K.taken sink.old))
        (world (S.counts shelf.new) (K.taken sink.new)) }
    ensures files { S.files shelf.new ≡ S.files shelf.old }
    ensures config { session.new.config ≡ session.old.config }
    ensures opens { (files : Files) → S.files shelf.old ≡ Some files
        → IsPlain session.old.config (said session.old.config.window line.now)
        → OnOk result (AreCountedFor session.old.waiting session.new.waiting
        (LineTally files session.old.config (said session.old.config.window line.now)
        session.old.store) reads.old reads.new) }
    ensures grow { Grow reads.old reads.new }
{
    let said = read_line(line, session.config().window());
    take_said(alloc, number, said, session, shelf, sink, reads)
}

/// Takes the lines of a script in their order, numbered from 1, and answers whether one of them was
/// refused. The bytes written are the texts of the lines, or a prefix of them where the run was cut
/// off.
pub fn run_script<L, S: Shelf, K: Sink>(
    alloc: Global,
    script: &[u8],
    session: &mut Draft<L>,
    shelf: &mut S,
    sink: &mut K,
    reads: &mut Reads<L>,
) -> Result<bool, Stopped>
    requires { length script.now < 2 ^ 32 }
    ensures transcript { (files : Files) → S.files shelf.old ≡ Some files
        → TellsAll files session.old.config (lines_of script.now) session.old.store
        session.new.store (world (S.counts shelf.old) (K.taken sink.old))
        (world (S.counts shelf.new) (K.taken sink.new)) result }
    ensures cause { IsCaused (world (S.counts shelf.old) (K.taken sink.old))
        (world (S.counts shelf.new) (K.taken sink.new)) result }
    ensures never_fall { NeverFall (world (S.counts shelf.old) (K.taken sink.old))
        (world (S.counts shelf.new) (K.taken sink.new)) }
    ensures opens { (files : Files) → S.files shelf.old ≡ Some files
        → ArePlain session.old.config (lines_of script.now)
        → OnOk result (AreCountedFor session.old.waiting session.new.waiting
        (ScriptTally files session.old.config (lines_of script.now) session.old.store)
        reads.old reads.new) }
    ensures config { session.new.config ≡ session.old.config }
    ensures grow { Grow reads.old reads.new }
{
    let mut rest = script;
    let mut number: u32 = 0;
    let mut refused = false;
    while !rest.is_empty() {
        let (line, after) = split_line(rest);
        number += 1;
        match take_line(alloc, number, line, session, shelf, sink, reads) {
            Ok(is_refused) => refused |= is_refused,
            Err(stopped) => return Err(stopped),
        }
        rest = after;
    }
    Ok(refused)
}
