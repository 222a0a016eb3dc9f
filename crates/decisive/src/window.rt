// The decisive window of a broken line.
ghost use Rattle.std.specs.Prelude.{◌≡◌, ℕ, ◌+◌, ◌/◌, ◌<◌, ◌≤◌, true, length, IfOk, IfSome};
ghost use Rattle.hour_store.specs.Store.{Store, is_known};
ghost use Rattle.board.specs.Logs.{first_tenth};
ghost use Rattle.signal_log.specs.Log.{HasHistory, log_of};
ghost use Rattle.signal_log.specs.Points.{ArePastsAt};
ghost use Rattle.rule_audit.specs.Rules.{rules_for};
ghost use Rattle.board.specs.Moves.{RowsIn};
ghost use Rattle.decisive.specs.declared.judge.Start.TheVariants.{Kept};
ghost use Rattle.decisive.specs.Breaks.{FitsParts};
ghost use Rattle.decisive.specs.Searches.{AreFound, ArePlaced, rank, rank_in};
ghost use Rattle.signal_log.specs.Rows.{hour_rows};
ghost use Rattle.sig_base.specs.Reads.{Grow};
ghost use Rattle.decisive.specs.Lines.{AreHourMoves, IsBrokenIn, IsHourBegin, IsWindowIn, place_in};
ghost use Rattle.decisive.specs.Window.{IsPlaceIn};

use crate::hours::{HourMoves, Placed, hour_told};
use crate::judge::{Question, Start};
use crate::parts::parts_of;
use crate::rows::rows_before;
use crate::within::{nearest_begin, search_begin, search_end};
use board::Pasts;
use hour_store::HourStore;
use ring_config::Config;
use rule_audit::{AuditLine, Place, Rule};
use sig_base::{Hour, NoMemory, Reads, Row};
use std::alloc::Global;

// After how many of the hour's rows the place of a line is.
fn place_in(rows: &[Row], at: u32, place: Place) -> usize
    requires { IsPlaceIn rows.now at place }
    ensures { (f t : ℕ) → RowsIn f t rows.now → result ≡ place_in rows.now at place }
{
    match place {
        Place::BeforeRow(row) => row as usize,
        Place::EndOfTenth => rows_before(rows, at as u64 + 1),
    }
}

// What is told of the hour, with the place.
fn placed_in<L>(
    alloc: Global,
    store: &HourStore<L>,
    hour: Hour,
    at: u32,
    place: Place,
    reads: &mut Reads<L>,
) -> Result<Placed, NoMemory>
    requires within { hour < length store.now.hours }
    requires low { first_tenth hour ≤ at }
    requires high { at < first_tenth (hour + 1) }
    requires is_known { is_known store.now at ≡ true }
    requires place { IsPlaceIn (hour_rows store.now hour) at place }
    ensures placed { IfOk result (λ p. ArePlaced store.now p.told (first_tenth hour)
        (first_tenth (hour + 1)) (hour + 1) at p.place) }
    ensures rank { IfOk result (λ p. rank p.told at p.place
        ≡ rank_in (hour_rows store.now hour) at place) }
    ensures grow { Grow reads.old reads.new }
{
    let told = hour_told(alloc, store, hour, reads)?;
    let place = place_in(&told.rows, at, place);
    Ok(Placed { told, place })
}

// The window, looked for hour by hour: its end, and then its begin.
fn search_window<L>(
    alloc: Global,
    question: &Question<'_>,
    store: &HourStore<L>,
    before: &Pasts,
    place: Place,
    reads: &mut Reads<L>,
) -> Result<(u32, u32), NoMemory>
    requires parts { FitsParts question.now.specs.now question.now.parts.now }
    requires within { question.now.at / 36000 < length store.now.hours }
    requires is_known { is_known store.now question.now.at ≡ true }
    requires place { IsPlaceIn (hour_rows store.now (question.now.at / 36000)) question.now.at
        place }
    requires history { HasHistory (log_of question.now.specs.now store.now) }
    requires before { ArePastsAt (log_of question.now.specs.now store.now) (question.now.at / 36000)
        before.now }
    ensures found { IfOk result (λ w. AreFound (Kept before.entry) store.now question.now.specs.now
        question.now.parts.now (question.now.at / 36000) question.now.at
        (rank_in (hour_rows store.now (question.now.at / 36000)) question.now.at place) w.0 w.1) }
    ensures grow { Grow reads.old reads.new }
{
    let hour = question.at / 36_000;
    let start = Start::Kept(before);
    let first = placed_in(alloc, store, hour, question.at, place, reads)?;
    let (end, placed) = search_end(alloc, question, &start, store, hour, first, reads)?;
    let begin = search_begin(alloc, question, store, hour, placed, end, reads)?;
    Ok((begin, end))
}

// The begin, where the line's own tenth is the end and the begin is in its hour.
fn begin_in_hour(
    alloc: Global,
    question: &Question<'_>,
    moves: &HourMoves<'_>,
    place: Place,
) -> Result<Option<u32>, NoMemory>
    requires parts { FitsParts question.now.specs.now question.now.parts.now }
    requires place { IsPlaceIn moves.now.rows.now question.now.at place }
    requires moves { (s : Store) × (hour : ℕ)
        × AreHourMoves question.now.specs.now s hour moves.now
        × HasHistory (log_of question.now.specs.now s) × (is_known s question.now.at ≡ true)
        × (first_tenth hour ≤ question.now.at) × (question.now.at < first_tenth (hour + 1)) }
    ensures { IfOk result (λ r. IfSome r (IsHourBegin question.now moves.now place)) }
{
    let told = moves.told(place_in(moves.rows, question.at, place));
    nearest_begin(alloc, question, &told, question.at)
}

/// The decisive window of a broken line of an hour of this store: its first and its last tenth.
/// The last is the least candidate from the line's own tenth on up to which the log alone, from the
/// window's start, breaks the obligation; then the first is the greatest candidate up to the own
/// tenth from which on the log up to the last tenth alone does. Candidates are the own tenth, those
/// of known rows of the rule's channels, tenth 0 and the window's last. Where the hour up to the own
/// tenth alone breaks it, no other is opened.
pub fn window_in<L>(
    alloc: Global,
    config: &Config,
    rules: &[Rule],
    store: &HourStore<L>,
    moves: &HourMoves<'_>,
    line: &AuditLine,
    reads: &mut Reads<L>,
) -> Result<(u32, u32), NoMemory>
    requires rules { rules.now ≡ rules_for config.now }
    requires history { HasHistory (log_of config.now.specs store.now) }
    requires line { IsBrokenIn config.now store.now rules.now line.now }
    requires moves { AreHourMoves config.now.specs store.now (line.now.at / 36000) moves.now }
    ensures window { IfOk result (λ w. IsWindowIn config.now store.now rules.now line.now w.0 w.1) }
    ensures grow { Grow reads.old reads.new }
{
    let specs = config.specs();
    let parts = parts_of(alloc, &rules[line.rule as usize - 1])?;
    let question = Question {
        specs,
        parts: &parts,
        at: line.at,
    };
    match begin_in_hour(alloc, &question, moves, line.place)? {
        Some(begin) => Ok((begin, line.at)),
        None => search_window(alloc, &question, store, moves.before, line.place, reads),
    }
}

/// The same of one line alone, where `before` has the states of each channel at the point before the
/// line's hour. The hours that it looks at are opened.
pub fn decisive_window<L>(
    alloc: Global,
    config: &Config,
    rules: &[Rule],
    store: &HourStore<L>,
    before: &Pasts,
    line: &AuditLine,
    reads: &mut Reads<L>,
) -> Result<(u32, u32), NoMemory>
    requires rules { rules.now ≡ rules_for config.now }
    requires history { HasHistory (log_of config.now.specs store.now) }
    requires line { IsBrokenIn config.now store.now rules.now line.now }
    requires before { ArePastsAt (log_of config.now.specs store.now) (line.now.at / 36000)
        before.now }
    ensures window { IfOk result (λ w. IsWindowIn config.now store.now rules.now line.now w.0 w.1) }
    ensures grow { Grow reads.old reads.new }
{
    let moves = HourMoves::new(alloc, config, store, before, line.at / 36_000, reads)?;
    window_in(alloc, config, rules, store, &moves, line, reads)
}
