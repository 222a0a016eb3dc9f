// The whole run.
ghost use Rattle.std.specs.Prelude.{◌≡◌, ◌≤◌, ◌<◌, Some, [], length, IfOk, IfSome, true, false};
ghost use Rattle.outside.specs.Shelf.{Counts, Files};
ghost use Rattle.sig_base.specs.Window.{IsDay};
ghost use Rattle.sig_base.specs.Reads.{Grow};
ghost use Rattle.ring_config.specs.Settings.{config_of};
ghost use Rattle.command_line.specs.Words.{IsReadable, seen};
ghost use Rattle.sigaudit.specs.Asked.{asked_of};
ghost use Rattle.report_text.specs.ConfigRefusal.{config_text, is_config_memory};
ghost use Rattle.report_text.specs.Usage.{usage_text};
ghost use Rattle.sigaudit.specs.Status.{status_of_run};
ghost use Rattle.script_lines.specs.Lines.{lines_of};
ghost use Rattle.hour_store.specs.Store.{nothing_held};
ghost use Rattle.session.specs.Links.{AllSettled};
ghost use Rattle.row_reader.specs.Stamp.{stamp_in};
ghost use Rattle.sigaudit.specs.Aims.{aim_of, for_lines, for_rule};
ghost use Rattle.sigaudit.specs.Pairs.{AreFound, place_of};
ghost use Rattle.sigaudit.specs.Transcript.{asks_pairs, ended_by, limited, outcome, BeginsWithFirstLines, HaveOneTranscript, IsAimOutcome, IsAnswer, IsConfigOutcome, IsDemoOutcome, IsFileOutcome, IsScriptOutcome};
ghost use Rattle.sigaudit.specs.Counting.{OpensAnswer, OpensAsked, OpensConfig, OpensFile, OpensText, WhereTaken};
ghost use Rattle.sigaudit.specs.Run.{world, CountsCarried, CountsGrow, CountsText, FetchesText, DemoCause, FewBytes, IsCarriedOut, IsPairsRun, IsRun, LeavesShelf, PutsOne, RunsAs, HasCause, NeedsWords, NeverFall, PutsOutcome, ScriptCause};

use crate::demo_shelf::DemoShelf;
use crate::file::{FileAsked, Task, put_file};
use crate::pairs::put_undecided;
use crate::purpose::Purpose;
use crate::quiet_sink::QuietSink;
use crate::script::run_script;
use crate::status::{Ended, Status, Stopped, status_of};
use crate::words::Words;
use command_line::{Refused, Request, parse_words};
use decisive::window_is_one;
use hour_work::reports_are_one;
use measure_laws::parts_are_one;
use outside::{FetchError, Shelf, Sink};
use report_text::{put_config_error, put_usage};
use ring_config::{Config, ConfigError, read_config};
use session::Draft;
use sig_base::Reads;
use signal_log::some_history_agrees;
use std::alloc::Global;

// The most bytes of a configuration, and of a script.
const CONFIG_LIMIT: u64 = 1_048_576;

const SCRIPT_LIMIT: u64 = 4_194_304;

// What came of a fetch of a text.
#[derive(Clone, Copy)]
enum Got {
    Have,
    Nothing,
    Stop(Stopped),
}

fn fetch_text<S: Shelf>(
    alloc: Global,
    name: &str,
    limit: u64,
    shelf: &mut S,
    bytes: &mut Vec<u8>,
) -> Got
    requires { bytes.old.items ≡ [] }
    ensures told { (files : Files) → S.files shelf.old ≡ Some files
        → FetchesText (limited limit (files name.now)) bytes.new.items result }
    ensures counts { CountsText (S.counts shelf.old) (S.counts shelf.new) result }
    ensures few { FewBytes limit bytes.new.items result }
    ensures files { S.files shelf.new ≡ S.files shelf.old }
{
    match shelf.fetch(alloc, name, limit, bytes) {
        Ok(()) => Got::Have,
        Err(FetchError::Missing) => Got::Nothing,
        Err(FetchError::TooLong) => Got::Nothing,
        Err(FetchError::Failed) => Got::Stop(Stopped::Fault),
        Err(FetchError::Memory) => Got::Stop(Stopped::Memory),
    }
}

fn show_usage<K: Sink>(sink: &mut K) -> Result<Ended, Stopped>
    ensures { PutsOutcome (outcome usage_text Ended.Usage) (K.taken sink.old) (K.taken sink.new)
        result }
{
    put_usage(sink)?;
    Ok(Ended::Usage)
}

fn show_config_error<K: Sink>(error: ConfigError, sink: &mut K) -> Result<Ended, Stopped>
    ensures { PutsOutcome (outcome (config_text error) Ended.BadConfig) (K.taken sink.old)
        (K.taken sink.new) result }
{
    put_config_error(error, sink)?;
    Ok(Ended::BadConfig)
}

// Carries out the lines of a script and writes their texts.
#[tactic(auto, using(crate::proofs::GrowFacts::grow_same))]
fn tell_lines<L, S: Shelf, K: Sink>(
    alloc: Global,
    config: Config,
    script: &[u8],
    shelf: &mut S,
    sink: &mut K,
    reads: &mut Reads<L>,
) -> Result<Ended, Stopped>
    requires { length script.now ≤ 4194304 }
    ensures told { (files : Files) → S.files shelf.old ≡ Some files
        → RunsAs (IsScriptOutcome files config (Some script.now))
        (world (S.counts shelf.old) (K.taken sink.old))
        (world (S.counts shelf.new) (K.taken sink.new)) (status_of_run result) }
    ensures cause { ScriptCause (world (S.counts shelf.old) (K.taken sink.old))
        (world (S.counts shelf.new) (K.taken sink.new)) (status_of_run result) }
    ensures never_fall { NeverFall (world (S.counts shelf.old) (K.taken sink.old))
        (world (S.counts shelf.new) (K.taken sink.new)) }
    ensures opens { (files : Files) → S.files shelf.old ≡ Some files → WhereTaken
        (status_of_run result) (OpensText files config for_lines
        reads.old reads.new (Some script.now)) }
    ensures grow { Grow reads.old reads.new }
{
    match Draft::new(alloc, config) {
        Ok(mut session) => tell_lines_in(alloc, script, &mut session, shelf, sink, reads),
        Err(_) => Err(Stopped::Memory),
    }
}

// Carries them out in a draft that holds nothing yet.
fn tell_lines_in<L, S: Shelf, K: Sink>(
    alloc: Global,
    script: &[u8],
    session: &mut Draft<L>,
    shelf: &mut S,
    sink: &mut K,
    reads: &mut Reads<L>,
) -> Result<Ended, Stopped>
    requires short { length script.now ≤ 4194304 }
    requires begun { session.old.store ≡ nothing_held session.old.config.window.hours }
    requires settled { AllSettled session.old.waiting }
    ensures told { (files : Files) → S.files shelf.old ≡ Some files
        → RunsAs (IsScriptOutcome files session.old.config (Some script.now))
        (world (S.counts shelf.old) (K.taken sink.old))
        (world (S.counts shelf.new) (K.taken sink.new)) (status_of_run result) }
    ensures cause { ScriptCause (world (S.counts shelf.old) (K.taken sink.old))
        (world (S.counts shelf.new) (K.taken sink.new)) (status_of_run result) }
    ensures never_fall { NeverFall (world (S.counts shelf.old) (K.taken sink.old))
        (world (S.counts shelf.new) (K.taken sink.new)) }
    ensures opens { (files : Files) → S.files shelf.old ≡ Some files → WhereTaken
        (status_of_run result) (OpensText files session.old.config for_lines
        reads.old reads.new (Some script.now)) }
    ensures grow { Grow reads.old reads.new }
{
    match run_script(alloc, script, session, shelf, sink, reads) {
        Ok(refused) => Ok(ended_by(refused)),
        Err(stopped) => Err(stopped),
    }
}

// Carries out the lines of a script in a new draft, and writes nothing.
#[tactic(auto, using(crate::proofs::GrowFacts::grow_same))]
fn carry_out<L, S: Shelf>(
    alloc: Global,
    config: Config,
    script: &[u8],
    shelf: &mut S,
    reads: &mut Reads<L>,
) -> Result<(Draft<L>, bool), Stopped>
    requires { length script.now ≤ 4194304 }
    ensures told { (files : Files) → S.files shelf.old ≡ Some files
        → IsCarriedOut files config (lines_of script.now) result }
    ensures cause { CountsCarried (S.counts shelf.old) (S.counts shelf.new) result }
    ensures never_fall { CountsGrow (S.counts shelf.old) (S.counts shelf.new) }
    ensures grow { Grow reads.old reads.new }
{
    let mut session = match Draft::new(alloc, config) {
        Ok(session) => session,
        Err(_) => return Err(Stopped::Memory),
    };
    match run_script(alloc, script, &mut session, shelf, &mut QuietSink, reads) {
        Ok(refused) => Ok((session, refused)),
        Err(stopped) => Err(stopped),
    }
}

// Carries out the lines of a script for this purpose.
#[tactic(auto, using(crate::proofs::GrowFacts::grow_same))]
fn run_lines<L, S: Shelf, K: Sink>(
    alloc: Global,
    config: Config,
    script: &[u8],
    purpose: Purpose<'_>,
    shelf: &mut S,
    sink: &mut K,
    reads: &mut Reads<L>,
) -> Result<Ended, Stopped>
    requires { length script.now ≤ 4194304 }
    ensures told { (files : Files) → S.files shelf.old ≡ Some files
        → RunsAs (IsAimOutcome files config (aim_of purpose.entry) (Some script.now))
        (world (S.counts shelf.old) (K.taken sink.old))
        (world (S.counts shelf.new) (K.taken sink.new)) (status_of_run result) }
    ensures cause { ScriptCause (world (S.counts shelf.old) (K.taken sink.old))
        (world (S.counts shelf.new) (K.taken sink.new)) (status_of_run result) }
    ensures never_fall { NeverFall (world (S.counts shelf.old) (K.taken sink.old))
        (world (S.counts shelf.new) (K.taken sink.new)) }
    ensures opens { (files : Files) → S.files shelf.old ≡ Some files → WhereTaken
        (status_of_run result) (OpensText files config (aim_of purpose.entry)
        reads.old reads.new (Some script.now)) }
    ensures grow { Grow reads.old reads.new }
{
    match purpose {
        Purpose::Lines => tell_lines(alloc, config, script, shelf, sink, reads),
        Purpose::Undecided(rule, at) => {
            tell_pairs(alloc, config, script, (rule, at), shelf, sink, reads)
        }
    }
}

// Carries out the lines of a script, and writes what a rule leaves undecided after them.
fn tell_pairs<L, S: Shelf, K: Sink>(
    alloc: Global,
    config: Config,
    script: &[u8],
    asked: (u32, &str),
    shelf: &mut S,
    sink: &mut K,
    reads: &mut Reads<L>,
) -> Result<Ended, Stopped>
    requires { length script.now ≤ 4194304 }
    ensures told { (files : Files) → S.files shelf.old ≡ Some files
        → RunsAs (IsAimOutcome files config (for_rule asked.entry.0 asked.entry.1.now)
        (Some script.now))
        (world (S.counts shelf.old) (K.taken sink.old))
        (world (S.counts shelf.new) (K.taken sink.new)) (status_of_run result) }
    ensures cause { ScriptCause (world (S.counts shelf.old) (K.taken sink.old))
        (world (S.counts shelf.new) (K.taken sink.new)) (status_of_run result) }
    ensures never_fall { NeverFall (world (S.counts shelf.old) (K.taken sink.old))
        (world (S.counts shelf.new) (K.taken sink.new)) }
    ensures grow { Grow reads.old reads.new }
{
    match carry_out(alloc, config, script, shelf, reads) {
        Ok((session, refused)) => show_pairs(asked.0, asked.1, refused, &session, sink, reads),
        Err(stopped) => Err(stopped),
    }
}

// Writes what a rule leaves undecided, after a script of which some lines may have been refused.
fn show_pairs<L, K: Sink>(
    rule: u32,
    at: &str,
    refused: bool,
    session: &Draft<L>,
    sink: &mut K,
    reads: &mut Reads<L>,
) -> Result<Ended, Stopped>
    ensures text { PutsOne (AreFound session.now.config session.now.store
        (place_of session.now.config rule (stamp_in session.now.config.window at.now)))
        (K.taken sink.old) (K.taken sink.new) result }
    ensures ended { IfOk result (λ e. e ≡ ended_by refused) }
    ensures grow { Grow reads.old reads.new }
{
    match put_undecided(rule, at, session, sink, reads) {
        Ok(()) => Ok(ended_by(refused)),
        Err(stopped) => Err(stopped),
    }
}

fn ended_by(refused: bool) -> Ended
    ensures { result ≡ ended_by refused }
{
    if refused {
        Ended::SomeRefused
    } else {
        Ended::Done
    }
}

// Carries out the script of this name.
#[tactic(auto, using(crate::proofs::GrowFacts::grow_same))]
fn run_script_file<L, S: Shelf, K: Sink>(
    alloc: Global,
    config: Config,
    name: &str,
    purpose: Purpose<'_>,
    shelf: &mut S,
    sink: &mut K,
    reads: &mut Reads<L>,
) -> Result<Ended, Stopped>
    ensures told { (files : Files) → S.files shelf.old ≡ Some files
        → RunsAs (IsAimOutcome files config (aim_of purpose.entry)
        (limited 4194304 (files name.now))) (world (S.counts shelf.old) (K.taken sink.old))
        (world (S.counts shelf.new) (K.taken sink.new)) (status_of_run result) }
    ensures cause { ScriptCause (world (S.counts shelf.old) (K.taken sink.old))
        (world (S.counts shelf.new) (K.taken sink.new)) (status_of_run result) }
    ensures never_fall { NeverFall (world (S.counts shelf.old) (K.taken sink.old))
        (world (S.counts shelf.new) (K.taken sink.new)) }
    ensures opens { (files : Files) → S.files shelf.old ≡ Some files
        → WhereTaken (status_of_run result) (OpensText files config (aim_of purpose.entry)
        reads.old reads.new (limited 4194304 (files name.now))) }
    ensures grow { Grow reads.old reads.new }
{
    let mut script = Vec::new(alloc);
    match fetch_text(alloc, name, SCRIPT_LIMIT, shelf, &mut script) {
        Got::Have => run_lines(alloc, config, &script, purpose, shelf, sink, reads),
        Got::Nothing => Ok(Ended::NoFile),
        Got::Stop(stopped) => Err(stopped),
    }
}

fn is_memory(error: ConfigError) -> bool
    ensures { result ≡ is_config_memory error }
{
    matches!(error, ConfigError::Memory)
}

// Carries out a script under what the bytes of a configuration say.
#[tactic(auto, using(crate::proofs::GrowFacts::grow_same))]
fn run_config<L, S: Shelf, K: Sink>(
    alloc: Global,
    bytes: &[u8],
    script: &str,
    purpose: Purpose<'_>,
    shelf: &mut S,
    sink: &mut K,
    reads: &mut Reads<L>,
) -> Result<Ended, Stopped>
    ensures told { (files : Files) → S.files shelf.old ≡ Some files
        → RunsAs (IsConfigOutcome files (aim_of purpose.entry) script.now (config_of bytes.now))
        (world (S.counts shelf.old) (K.taken sink.old))
        (world (S.counts shelf.new) (K.taken sink.new)) (status_of_run result) }
    ensures cause { ScriptCause (world (S.counts shelf.old) (K.taken sink.old))
        (world (S.counts shelf.new) (K.taken sink.new)) (status_of_run result) }
    ensures never_fall { NeverFall (world (S.counts shelf.old) (K.taken sink.old))
        (world (S.counts shelf.new) (K.taken sink.new)) }
    ensures opens { (files : Files) → S.files shelf.old ≡ Some files
        → WhereTaken (status_of_run result) (OpensConfig files (aim_of purpose.entry)
        script.now reads.old reads.new (config_of bytes.now)) }
    ensures grow { Grow reads.old reads.new }
{
    match read_config(alloc, bytes) {
        Ok(config) => run_script_file(alloc, config, script, purpose, shelf, sink, reads),
        Err(error) => {
            if is_memory(error) {
                return Err(Stopped::Memory);
            }
            show_config_error(error, sink)
        }
    }
}

// Carries out a script over a configuration, both by their names.
#[tactic(auto, using(crate::proofs::GrowFacts::grow_same))]
fn run_files<L, S: Shelf, K: Sink>(
    alloc: Global,
    config: &str,
    script: &str,
    purpose: Purpose<'_>,
    shelf: &mut S,
    sink: &mut K,
    reads: &mut Reads<L>,
) -> Result<Ended, Stopped>
    ensures told { (files : Files) → S.files shelf.old ≡ Some files
        → RunsAs (IsFileOutcome files (aim_of purpose.entry) script.now
        (limited 1048576 (files config.now))) (world (S.counts shelf.old) (K.taken sink.old))
        (world (S.counts shelf.new) (K.taken sink.new)) (status_of_run result) }
    ensures cause { ScriptCause (world (S.counts shelf.old) (K.taken sink.old))
        (world (S.counts shelf.new) (K.taken sink.new)) (status_of_run result) }
    ensures never_fall { NeverFall (world (S.counts shelf.old) (K.taken sink.old))
        (world (S.counts shelf.new) (K.taken sink.new)) }
    ensures opens { (files : Files) → S.files shelf.old ≡ Some files
        → WhereTaken (status_of_run result) (OpensFile files (aim_of purpose.entry)
        script.now reads.old reads.new (limited 1048576 (files config.now))) }
    ensures grow { Grow reads.old reads.new }
{
    let mut bytes = Vec::new(alloc);
    match fetch_text(alloc, config, CONFIG_LIMIT, shelf, &mut bytes) {
        Got::Have => run_config(alloc, &bytes, script, purpose, shelf, sink, reads),
        Got::Nothing => Ok(Ended::NoFile),
        Got::Stop(stopped) => Err(stopped),
    }
}

// Runs the demonstration of so many hours, which has a shelf of its own.
#[tactic(auto, using(crate::proofs::GrowFacts::grow_same))]
fn run_demo<L, K: Sink>(
    alloc: Global,
    hours: u32,
    sink: &mut K,
    reads: &mut Reads<L>,
) -> Result<Ended, Stopped>
    requires some { 1 ≤ hours }
    requires few { hours ≤ 168 }
    ensures told { (k : Counts) → RunsAs (IsDemoOutcome hours) (world k (K.taken sink.old))
        (world k (K.taken sink.new)) (status_of_run result) }
    ensures cause { DemoCause (K.taken sink.old).faults (K.taken sink.new).faults
        (status_of_run result) }
    ensures never_fall { (K.taken sink.old).faults ≤ (K.taken sink.new).faults }
    ensures grow { Grow reads.old reads.new }
{
    let mut shelf = match DemoShelf::new(alloc, hours) {
        Ok(shelf) => shelf,
        Err(_) => return Err(Stopped::Memory),
    };
    run_files(
        alloc,
        "config",
        "script",
        Purpose::Lines,
        &mut shelf,
        sink,
        reads,
    )
}

// Does what the words ask for.
#[tactic(auto, using(crate::proofs::GrowFacts::grow_same))]
fn run_request<L, S: Shelf, K: Sink>(
    alloc: Global,
    request: Request<'_>,
    shelf: &mut S,
    sink: &mut K,
    reads: &mut Reads<L>,
) -> Result<Ended, Stopped>
    requires { IsReadable request }
    ensures told { (files : Files) → S.files shelf.old ≡ Some files
        → RunsAs (IsAnswer (Some (seen request.entry)) files)
        (world (S.counts shelf.old) (K.taken sink.old))
        (world (S.counts shelf.new) (K.taken sink.new)) (status_of_run result) }
    ensures cause { HasCause (Some (seen request.entry))
        (world (S.counts shelf.old) (K.taken sink.old))
        (world (S.counts shelf.new) (K.taken sink.new)) (status_of_run result) }
    ensures alone { LeavesShelf (Some (seen request.entry))
        (world (S.counts shelf.old) (K.taken sink.old))
        (world (S.counts shelf.new) (K.taken sink.new)) (status_of_run result) }
    ensures never_fall { NeverFall (world (S.counts shelf.old) (K.taken sink.old))
        (world (S.counts shelf.new) (K.taken sink.new)) }
    ensures opens { (files : Files) → S.files shelf.old ≡ Some files
        → WhereTaken (status_of_run result) (OpensAsked files reads.old reads.new
        (Some (seen request.entry))) }
    ensures grow { Grow reads.old reads.new }
{
    match request {
        Request::Run(config, script) => {
            run_files(alloc, config, script, Purpose::Lines, shelf, sink, reads)
        }
        Request::Pairs(config, script, rule, at) => {
            let purpose = Purpose::Undecided(rule, at);
            run_files(alloc, config, script, purpose, shelf, sink, reads)
        }
        Request::Count(file, signal, day, hour) => {
            let asked = FileAsked {
                task: Task::Count,
                file,
                signal,
                day,
                hour,
            };
            put_file(alloc, &asked, shelf, sink, reads)
        }
        Request::Pack(file, signal, day, hour) => {
            let asked = FileAsked {
                task: Task::Pack,
                file,
                signal,
                day,
                hour,
            };
            put_file(alloc, &asked, shelf, sink, reads)
        }
        Request::Demo(hours) => run_demo(alloc, hours, sink, reads),
    }
}

// Runs to an end, unless something from outside cuts the run off.
#[tactic(auto, using(crate::proofs::GrowFacts::grow_same))]
fn run_to_end<L, S: Shelf, K: Sink>(
    alloc: Global,
    words: &Words,
    shelf: &mut S,
    sink: &mut K,
    reads: &mut Reads<L>,
) -> Result<Ended, Stopped>
    ensures told { (files : Files) → S.files shelf.old ≡ Some files
        → RunsAs (IsAnswer (asked_of words.now) files)
        (world (S.counts shelf.old) (K.taken sink.old))
        (world (S.counts shelf.new) (K.taken sink.new)) (status_of_run result) }
    ensures cause { HasCause (asked_of words.now) (world (S.counts shelf.old) (K.taken sink.old))
        (world (S.counts shelf.new) (K.taken sink.new)) (status_of_run result) }
    ensures usage { NeedsWords (asked_of words.now) (world (S.counts shelf.old) (K.taken sink.old))
        (world (S.counts shelf.new) (K.taken sink.new)) (status_of_run result) }
    ensures alone { LeavesShelf (asked_of words.now) (world (S.counts shelf.old) (K.taken sink.old))
        (world (S.counts shelf.new) (K.taken sink.new)) (status_of_run result) }
    ensures never_fall { NeverFall (world (S.counts shelf.old) (K.taken sink.old))
        (world (S.counts shelf.new) (K.taken sink.new)) }
    ensures opens { (files : Files) → S.files shelf.old ≡ Some files
        → WhereTaken (status_of_run result) (OpensAsked files reads.old reads.new
        (asked_of words.now)) }
    ensures grow { Grow reads.old reads.new }
{
    let all = match words.after_name() {
        Ok(all) => all,
        Err(_) => return Err(Stopped::Memory),
    };
    match parse_words(alloc, &all) {
        Ok(request) => run_request(alloc, request, shelf, sink, reads),
        Err(Refused::Usage) => show_usage(sink),
        Err(Refused::Memory) => Err(Stopped::Memory),
    }
}

/// Does all that the program does: it writes the transcript of the words and the files, and answers
/// how the run ended. Where the shelf reveals its files and the sink its bytes, the bytes that this
/// call adds are the transcript. Where the answer is `Fault` or `Memory` they are a prefix of what
/// the transcript begins with: of the text of the script's first lines, for some number of them.
/// Words that ask for what a rule leaves undecided have as many transcripts as there are ways to
/// show it; the bytes are one of these, or a prefix of one.
pub fn run<L, S: Shelf, K: Sink>(
    alloc: Global,
    words: &Words,
    shelf: &mut S,
    sink: &mut K,
    reads: &mut Reads<L>,
) -> Status
    ensures headline { IfSome (S.files shelf.old) (λ files. asks_pairs (asked_of words.now) ≡ false
        → IsRun words.now files (world (S.counts shelf.old) (K.taken sink.old))
        (world (S.counts shelf.new) (K.taken sink.new)) result) }

    // Words that ask for what a rule leaves undecided have more than one transcript.
    ensures pairs { IfSome (S.files shelf.old) (λ files. asks_pairs (asked_of words.now) ≡ true
        → IsPairsRun words.now files (world (S.counts shelf.old) (K.taken sink.old))
        (world (S.counts shelf.new) (K.taken sink.new)) result) }

    // Each answer has its cause, whatever the shelf and the sink reveal.
    ensures cause { HasCause (asked_of words.now) (world (S.counts shelf.old) (K.taken sink.old))
        (world (S.counts shelf.new) (K.taken sink.new)) result }
    ensures usage { NeedsWords (asked_of words.now) (world (S.counts shelf.old) (K.taken sink.old))
        (world (S.counts shelf.new) (K.taken sink.new)) result }

    // A demonstration is made of its own files, and stops at a fault of the sink alone.
    ensures alone { LeavesShelf (asked_of words.now) (world (S.counts shelf.old) (K.taken sink.old))
        (world (S.counts shelf.new) (K.taken sink.new)) result }
    ensures never_fall { NeverFall (world (S.counts shelf.old) (K.taken sink.old))
        (world (S.counts shelf.new) (K.taken sink.new)) }

    // Where a script has edits, measures, bad and skipped lines alone and all are taken, each hour
    // is opened at least as often as it moves by accepted edits, and at most three times as often
    // as it moves or lies on the way to a contradiction.
    ensures opens { IfSome (S.files shelf.old) (λ files. WhereTaken result
        (OpensAnswer files reads.old reads.new (asked_of words.now))) }

    // No count of opened hours falls.
    ensures grow { Grow reads.old reads.new }
{
    status_of(run_to_end(alloc, words, shelf, sink, reads))
}

/// Law: the words and the files have no more than one transcript, and it begins with what is written
/// for a script's first lines, unless the words ask for what a rule leaves undecided.
pub fn transcripts_are_one()
    ensures one { HaveOneTranscript }
    ensures begins { BeginsWithFirstLines }
{
    some_history_agrees();
    reports_are_one();
    parts_are_one();
    window_is_one();
}
