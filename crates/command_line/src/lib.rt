//! What the words of a command line ask for: one simple command of nine options, each taking one
//! value, and the sets of them that the program has. The rules are those of
//! `docs/FORMATS.md`.
#![tactic(auto)]

ghost use Rattle.std.specs.Prelude.{◌≡◌, ◌<◌, ◌≤◌, true, false, map, IfOk, IfSome, List, Option, option_map, Some, None};
ghost use Rattle.sig_base.specs.Window.{IsDay};
ghost use Rattle.row_reader.specs.Signal.{is_signal};
ghost use Rattle.clap.specs.Words.{app_of, rule_of, found_of, rows_of};
ghost use Rattle.command_line.specs.Words.{count_asked, demo_asked, file_asked, hour_asked, is_of_file, is_of_script, is_stamp, pack_asked, pairs_asked, script_asked, text_of, option_rule, sigaudit, request_of, Answers, IsReadable, Parses, asked_given, given_by, given_in, seen};
ghost use Rattle.command_line.specs.declared.Refused.TheVariants.{Memory};

use clap::error::ErrorKind;
use clap::{Arg, ArgAction, ArgMatches, Command};
use row_reader::{is_signal, read_hour_stamp, read_number, read_stamp};
use sig_base::Window;
use std::alloc::{AllocError, Global};

/// What the words ask for.
#[derive(Clone, Copy, Debug, PartialEq, Eq)]
pub enum Request<'a> {
    /// A configuration and a script, by their names.
    Run(&'a str, &'a str),
    /// The same, the number of a rule, at most 999,999, and a stamp with the letter `T`: what the
    /// rule leaves undecided there.
    Pairs(&'a str, &'a str, u32, &'a str),
    /// A file by its name, the signal, and the hour: a day, counted from 1970-01-01, and an hour of
    /// it, 0 to 23.
    Count(&'a str, &'a str, i64, u8),
    /// The same of a file whose rows are to be packed.
    Pack(&'a str, &'a str, i64, u8),
    /// The demonstration of so many hours, 1 to 168.
    Demo(u32),
}

/// Why there is no request.
#[derive(Clone, Copy, Debug, PartialEq, Eq)]
pub enum Refused {
    /// The words are none that the program has.
    Usage,
    /// Memory ran out.
    Memory,
}

impl From<AllocError> for Refused {
    ghost from_gives = { λ _ e. e ≡ Memory };

    fn from(_e: AllocError) -> Refused {
        Refused::Memory
    }
}

fn option<'a>(alloc: Global, name: &'a str) -> Arg<'a>
    ensures rule { rule_of result ≡ option_rule name.entry.now }
    ensures local { result.global ≡ false }
{
    Arg::new(alloc, name).long(name).action(ArgAction::Set)
}

fn command<'a>(alloc: Global) -> Result<Command<'a>, AllocError>
    ensures { IfOk result (λ c. app_of c ≡ sigaudit) }
{
    Command::new(alloc, "sigaudit")
        .arg(option(alloc, "config"))?
        .arg(option(alloc, "script"))?
        .arg(option(alloc, "rule"))?
        .arg(option(alloc, "at"))?
        .arg(option(alloc, "count"))?
        .arg(option(alloc, "signal"))?
        .arg(option(alloc, "hour"))?
        .arg(option(alloc, "pack"))?
        .arg(option(alloc, "demo"))
}

// Whether a text is a stamp with the letter `T`. It is one in every window or in none.
fn is_stamp(text: &str) -> bool
    ensures { result ≡ is_stamp text.now }
{
    let bytes = text.as_bytes();
    match Window::new(0, 0, 1) {
        Some(window) => !bytes.contains(&b' ') && read_stamp(bytes, &window).is_some(),
        None => false,
    }
}

fn pairs_asked<'a>(config: &'a str, script: &'a str, rule: &str, at: &'a str) -> Option<Request<'a>>
    ensures value { option_map seen result
        ≡ pairs_asked config.entry.now script.entry.now rule.now at.entry.now }
    ensures readable { IfSome result IsReadable }
{
    if !is_stamp(at) {
        return None;
    }
    match read_number(rule.as_bytes(), 1, 6, 999_999) {
        Some(rule) => Some(Request::Pairs(config, script, rule, at)),
        None => None,
    }
}

// The hour of one signal that the words name, a day and an hour of it, where both are readable.
fn hour_asked(signal: &str, hour: &str) -> Option<(i64, u8)>
    ensures value { result ≡ hour_asked signal.now hour.now }
    ensures day { IfSome result (λ at. IsDay at.0 × (at.1 < 24) × (is_signal signal.now ≡ true)) }
{
    if is_signal(signal) {
        read_hour_stamp(hour.as_bytes())
    } else {
        None
    }
}

fn count_asked<'a>(file: &'a str, signal: &'a str, hour: &str) -> Option<Request<'a>>
    ensures value { option_map seen result ≡ count_asked file.entry.now signal.entry.now hour.now }
    ensures readable { IfSome result IsReadable }
{
    match hour_asked(signal, hour) {
        Some((day, hour)) => Some(Request::Count(file, signal, day, hour)),
        None => None,
    }
}

fn pack_asked<'a>(file: &'a str, signal: &'a str, hour: &str) -> Option<Request<'a>>
    ensures value { option_map seen result ≡ pack_asked file.entry.now signal.entry.now hour.now }
    ensures readable { IfSome result IsReadable }
{
    match hour_asked(signal, hour) {
        Some((day, hour)) => Some(Request::Pack(file, signal, day, hour)),
        None => None,
    }
}

fn demo_asked<'a>(hours: &str) -> Option<Request<'a>>
    ensures value { option_map seen result ≡ demo_asked hours.now }
    ensures readable { IfSome result IsReadable }
{
    match read_number(hours.as_bytes(), 1, 3, 168) {
        Some(0) | None => None,
        Some(hours) => Some(Request::Demo(hours)),
    }
}

// The values of the options.
#[derive(Clone, Copy)]
struct Options<'a> {
    config: Option<&'a str>,
    script: Option<&'a str>,
    rule: Option<&'a str>,
    at: Option<&'a str>,
    count: Option<&'a str>,
    signal: Option<&'a str>,
    hour: Option<&'a str>,
    pack: Option<&'a str>,
    demo: Option<&'a str>,
}

// The request of exactly these options of a script.
fn script_asked<'a>(
    config: Option<&'a str>,
    script: Option<&'a str>,
    rule: Option<&'a str>,
    at: Option<&'a str>,
) -> Option<Request<'a>>
    ensures value { option_map seen result
        ≡ script_asked (text_of config.entry) (text_of script.entry) (text_of rule.entry)
        (text_of at.entry) }
    ensures readable { IfSome result IsReadable }
{
    match (config, script, rule, at) {
        (Some(config), Some(script), None, None) => Some(Request::Run(config, script)),
        (Some(config), Some(script), Some(rule), Some(at)) => {
            pairs_asked(config, script, rule, at)
        }
        _ => None,
    }
}

// The request of exactly these options without a script.
fn file_asked<'a>(
    count: Option<&'a str>,
    signal: Option<&'a str>,
    hour: Option<&'a str>,
    pack: Option<&'a str>,
    demo: Option<&'a str>,
) -> Option<Request<'a>>
    ensures value { option_map seen result
        ≡ file_asked (text_of count.entry) (text_of signal.entry) (text_of hour.entry)
        (text_of pack.entry) (text_of demo.entry) }
    ensures readable { IfSome result IsReadable }
{
    match (count, signal, hour, pack, demo) {
        (Some(file), Some(signal), Some(hour), None, None) => count_asked(file, signal, hour),
        (None, Some(signal), Some(hour), Some(file), None) => pack_asked(file, signal, hour),
        (None, None, None, None, Some(hours)) => demo_asked(hours),
        _ => None,
    }
}

fn is_of_script(given: Options<'_>) -> bool
    ensures { result ≡ is_of_script (given_in given.entry) }
{
    given.count.is_none()
        && given.signal.is_none()
        && given.hour.is_none()
        && given.pack.is_none()
        && given.demo.is_none()
}

fn is_of_file(given: Options<'_>) -> bool
    ensures { result ≡ is_of_file (given_in given.entry) }
{
    given.config.is_none() && given.script.is_none() && given.rule.is_none() && given.at.is_none()
}

// The request of exactly the options that have values.
#[tactic(auto, unfolding(crate::specs::Words::asked_given))]
fn choose<'a>(given: Options<'a>) -> Option<Request<'a>>
    ensures value { option_map seen result ≡ asked_given (given_in given.entry) }
    ensures readable { IfSome result IsReadable }
{
    if is_of_script(given) {
        return script_asked(given.config, given.script, given.rule, given.at);
    }
    if is_of_file(given) {
        return file_asked(
            given.count,
            given.signal,
            given.hour,
            given.pack,
            given.demo,
        );
    }
    None
}

// The matches of the words, the program's own name first.
fn parse<'a>(alloc: Global, words: &'a [&'a str]) -> Result<ArgMatches<'a>, Refused>
    ensures { Parses result (map (λ w. w.now) words.entry.now) }
{
    let command = command(alloc)?;
    match command.try_get_matches_from(words) {
        Ok(matches) => Ok(matches),
        Err(error) => match error.kind() {
            ErrorKind::OutOfMemory => return Err(Refused::Memory),
            _ => return Err(Refused::Usage),
        },
    }
}

// What the options that were given ask for.
fn asked<'a>(matches: &ArgMatches<'a>) -> Option<Request<'a>>
    ensures value { option_map seen result
        ≡ asked_given (given_by (rows_of (found_of matches.now))) }
    ensures readable { IfSome result IsReadable }
{
    choose(Options {
        config: matches.get_str("config"),
        script: matches.get_str("script"),
        rule: matches.get_str("rule"),
        at: matches.get_str("at"),
        count: matches.get_str("count"),
        signal: matches.get_str("signal"),
        hour: matches.get_str("hour"),
        pack: matches.get_str("pack"),
        demo: matches.get_str("demo"),
    })
}

/// What the words ask for, the program's own name first. `Usage` comes exactly where the command
/// refuses them for another cause than memory, where the options are none of the sets that the
/// program has, or where the rule, the stamp, the signal, the hour or the number of hours isn't
/// readable.
pub fn parse_words<'a>(alloc: Global, words: &'a [&'a str]) -> Result<Request<'a>, Refused>
    ensures value { Answers result (request_of (map (λ w. w.now) words.entry.now)) }
    ensures readable { IfOk result IsReadable }
{
    let matches = parse(alloc, words)?;
    match asked(&matches) {
        Some(request) => Ok(request),
        None => Err(Refused::Usage),
    }
}
