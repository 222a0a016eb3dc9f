// A store with what is kept of it, changed by edits; numbers may wait.
ghost use Rattle.std.specs.Prelude.{◌≡◌, ◌+◌, ◌*◌, ◌<◌, ◌≤◌, ◌⊎◌, ◌↔◌, ℤ, pos, ◌<ℤ◌, ◌≤ℤ◌, length, Some, IfOk, IfErr, IfSome, OnOk, OnErr};
ghost use Rattle.sig_base.specs.HourRows.{Shown};
ghost use Rattle.arrival_measures.specs.Points.{diagrams_of};
ghost use Rattle.hour_store.specs.Store.{IsStore, LieWithin, Store, is_known, known_rows, nothing_held, rows_held, with_blanks, with_hour};
ghost use Rattle.ring_config.specs.Settings.{Settings};
ghost use Rattle.ring_config.specs.Sound.{IsSound};
ghost use Rattle.signal_log.specs.Log.{HasHistory, log_of};
ghost use Rattle.rule_audit.specs.Rules.{rules_for};
ghost use Rattle.hour_work.specs.Points.{NamesRow};
ghost use Rattle.hour_work.specs.Reports.{IsReport};
ghost use Rattle.session.specs.Edits.{Change, blank, change_of, held_error, hour_change, range_change, step_of, withdraw};
ghost use Rattle.session.specs.Links.{AllSettled, AreKept, IsKeptPlain};
ghost use Rattle.session.specs.Moved.{AreMoved, KeepLines, KeepParts, Moves, Touches};
ghost use Rattle.session.specs.Opens.{AreOpenedOnce, OpensFor};
ghost use Rattle.session.specs.Pairs.{ArePairsAt};
ghost use Rattle.session.specs.Puts.{AreSameAt, AreSameBut, IsPlaced, put_into};
ghost use Rattle.session.specs.Sessions.{AreCounted, MayRefuse, Steps, StopsAt, refusal_for};
ghost use Rattle.sig_base.specs.Reads.{Grow};
ghost use Rattle.session.specs.Windows.{AreHourLines};

use crate::Edit;
use crate::audit::{lines_of, with_windows};
use crate::begin::begin;
use crate::blanks::{RangeEdit, edited, hours_as_were, reaches_out};
use crate::hours::{Put, Touched, exchange, hour_at};
use crate::pairs::{Asked, pairs_of};
use crate::points::phase_diagrams;
use crate::renew::{Worked, adopt, moved, renew};
use crate::settle::settle_all;
use arrival_measures::Diagram;
use filling_pair::Pairs;
use hour_store::HourStore;
use hour_work::{ForwardError, Report};
use ring_config::Config;
use rule_audit::{AuditLine, Rule, rules_of};
use sig_base::{Applied, EditError, Hour, HourRows, NoMemory, Reads, Tenth};
use std::alloc::Global;
use std::marker::Model;

const MOST_ROWS: u64 = 20_000_000;

const MOST_BLANKS: usize = 10_000;

/// What is held of a signal's log and which tenths are blanked, under a configuration, with what is
/// kept of it at each hour point. The numbers of some hours may wait; `settle` works them out. Some
/// history of the signal agrees with the log.
#[derive(Drop)]
pub struct Draft<L> {
    alloc: Global,
    config: Config,
    rules: Vec<Rule>,
    store: HourStore<L>,
    worked: Worked,
}

impl<L> Model for Draft<L> {
    ghost use Rattle.session.specs.Sessions.{Belong, Drafted};

    ghost Value = { Drafted };

    ghost view = { λ s. record { config = s.config; store = s.store; waiting = s.worked.waiting.items } };

    ghost invariant = { λ s. Belong s.config s.store s.rules.items s.worked.waiting.items
        s.worked.carries.items s.worked.futures.items s.worked.report };
}

// How many rows are held once the hour has so many.
fn rows_with<L>(store: &HourStore<L>, hour: Hour, count: u32) -> u64
    requires { hour < length store.now.hours }
    ensures { (r : Shown) → length r.rows ≡ count → result
        ≡ rows_held (with_hour store.now hour (Some r)) }
{
    store.rows_held() + count as u64 - store.len_of(hour) as u64
}

fn edit_error(error: ForwardError) -> EditError
    ensures { result ≡ refusal_for error }
{
    match error {
        ForwardError::Contradiction(row) => EditError::Contradiction(row),
        ForwardError::Memory => EditError::Memory,
    }
}

// Why an hour isn't replaced, or isn't loaded, by what is held of it.
fn held_error(replaces: bool) -> EditError
    ensures { result ≡ held_error replaces }
{
    if replaces {
        EditError::NotHeld
    } else {
        EditError::AlreadyHeld
    }
}

// The rules of a configuration, a store of its window that holds nothing, and what is kept of it.
fn parts_of<L>(
    alloc: Global,
    config: &Config,
    hours: u32,
) -> Result<(Vec<Rule>, HourStore<L>, Worked), NoMemory>
    requires some { 1 ≤ hours }
    requires few { hours ≤ 744 }
    requires sound { IsSound config.now }
    requires window { hours ≡ config.now.window.hours }
    ensures rules { IfOk result (λ p. p.0.items ≡ rules_for config.now) }
    ensures store { IfOk result (λ p. p.1 ≡ nothing_held hours) }
    ensures kept { IfOk result (λ p. AreKept config.now (nothing_held hours) p.2.waiting.items
        p.2.carries.items p.2.futures.items p.2.report) }
    ensures settled { IfOk result (λ p. AllSettled p.2.waiting.items) }
{
    let rules = rules_of(alloc, config)?;
    let store = HourStore::new(alloc, hours)?;
    let worked = begin(alloc, config, &rules, hours)?;
    Ok((rules, store, worked))
}

impl<L> Draft<L> {
    /// A draft that holds and blanks nothing. No numbers wait.
    pub fn new(alloc: Global, config: Config) -> Result<Draft<L>, NoMemory>
        ensures config { IfOk result (λ s. s.config ≡ config) }
        ensures store { IfOk result (λ s. s.store ≡ nothing_held config.window.hours) }
        ensures settled { IfOk result (λ s. AllSettled s.waiting) }
    {
        let hours = config.hours();
        let (rules, store, worked) = parts_of(alloc, &config, hours)?;
        Ok(Draft {
            alloc,
            config,
            rules,
            store,
            worked,
        })
    }

    /// The configuration that the draft was made with.
    pub fn config(&self) -> &Config
        ensures value { result.now ≡ self.now.config }
        ensures hours { length self.now.store.hours ≡ self.now.config.window.hours }
    {
        &self.config
    }

    /// The audit rules of the configuration; the first one has number 1.
    pub fn rules(&self) -> &[Rule]
        ensures { result.now ≡ rules_for self.now.config }
    {
        self.rules.as_slice()
    }

    /// The report of what is held and blanked, where no numbers wait.
    pub fn report(&self) -> &Report
        requires { AllSettled self.now.waiting }
        ensures report { IsReport self.now.config self.now.store result.now }
        ensures counted { AreCounted (length (rules_for self.now.config)) result.now }
        ensures history { HasHistory (log_of self.now.config.specs self.now.store) }
        ensures store { IsStore self.now.store }
    {
        &self.worked.report
    }

    /// The lines of the audit of an hour, in their order: the verdicts that aren't idle, over all
    /// histories that agree with the log. Where `windows` are wanted each broken line has its
    /// decisive window, else no line has one.
    pub fn audit_hour(
        &self,
        hour: Hour,
        windows: bool,
        reads: &mut Reads<L>,
    ) -> Result<Vec<AuditLine>, NoMemory>
        requires { hour < length self.now.store.hours }
        ensures lines { IfOk result (λ v. AreHourLines self.now.config self.now.store hour windows
            v.items) }
        ensures history { HasHistory (log_of self.now.config.specs self.now.store) }
        ensures store { IsStore self.now.store }
        ensures grow { Grow reads.old reads.new }
    {
        let alloc = self.alloc;
        let config = &self.config;
        let rules = &self.rules;
        let store = &self.store;
        let plain = lines_of(alloc, config, rules, store, &self.worked, hour, reads)?;
        if !windows {
            return Ok(plain);
        }
        let before = self.worked.carries[hour as usize].pasts();
        with_windows(alloc, config, rules, store, before, &plain, reads)
    }

    /// The whole cycles of a phase, in their order, each with the arrivals in it at the advance
    /// detectors of the phase's approaches.
    pub fn points(&self, phase: u8, reads: &mut Reads<L>) -> Result<Vec<Diagram>, NoMemory>
        ensures points { IfOk result (λ v. v.items ≡ diagrams_of (is_known self.now.store)
            self.now.config phase (known_rows self.now.store)) }
        ensures store { IsStore self.now.store }
        ensures grow { Grow reads.old reads.new }
    {
        phase_diagrams(
            self.alloc,
            &self.config,
            &self.store,
            &self.worked,
            phase,
            reads,
        )
    }

    /// For each line of the audit that says undecided, of the rule of this number and at this
    /// tenth, strands of the rule's channels with which it is kept there, and strands with which
    /// it is broken, in the order of the lines. The first rule has number 1. The tenth's hour is
    /// opened, and for each such line the hours of the window.
    pub fn pairs(&self, rule: u16, at: u32, reads: &mut Reads<L>) -> Result<Pairs, NoMemory>
        requires first { 1 ≤ rule }
        requires last { rule ≤ length (rules_for self.now.config) }
        requires at { at < 36000 * length self.now.store.hours }
        ensures pairs { IfOk result (λ p. ArePairsAt self.now.config self.now.store rule at p) }
        ensures history { HasHistory (log_of self.now.config.specs self.now.store) }
        ensures store { IsStore self.now.store }
        ensures grow { Grow reads.old reads.new }
    {
        let alloc = self.alloc;
        let config = &self.config;
        let rules = &self.rules;
        let store = &self.store;
        let hour = at / 36_000;
        let lines = lines_of(alloc, config, rules, store, &self.worked, hour, reads)?;
        let asked = Asked { rule, at };
        pairs_of(alloc, config, rules, store, &lines, asked, reads)
    }

    // Puts this into the store, of which only the hours that are touched can then be otherwise, and
    // those that are told to be as they were aren't, or leaves all as it was.
    fn make(
        &mut self,
        put: Put<L>,
        touched: &Touched,
        reads: &mut Reads<L>,
    ) -> Result<Applied, EditError>
        requires placed { IsPlaced (length self.old.store.hours) put }
        requires order { touched.now.first ≤ touched.now.last }
        requires last { touched.now.last < length self.old.store.hours }
        requires same { AreSameBut touched.now.first touched.now.last self.old.store
            (put_into self.old.store put) }
        requires as_were { AreSameAt touched.now.same.items self.old.store
            (put_into self.old.store put) }
        ensures done { OnOk result ((self.new.store ≡ put_into self.old.store put)
            × HasHistory (log_of self.old.config.specs (put_into self.old.store put))) }
        ensures moved { IfOk result (AreMoved self.old.config self.old.store
            (put_into self.old.store put) touched.now.first touched.now.last) }
        ensures stays { IsKeptPlain touched.now.may_wait self.old.waiting → IfOk result (KeepParts
            self.old.config self.old.store (put_into self.old.store put)) }
        ensures lines { IfOk result (KeepLines self.old.config self.old.store
            (put_into self.old.store put)) }
        ensures settled { IsKeptPlain touched.now.may_wait self.old.waiting
            → AllSettled self.new.waiting }
        ensures back { OnErr result (self.new.store ≡ self.old.store) }
        ensures stop { IfErr result (StopsAt self.old.config (put_into self.old.store put)) }
        ensures store { IsStore (put_into self.old.store put) }
        ensures config { self.new.config ≡ self.old.config }
        ensures opens { (change : Change) → Touches change touched.now.first touched.now.last
            → OpensFor change self.old.waiting self.new.waiting reads.old reads.new result }
        ensures grow { Grow reads.old reads.new }
    {
        let before = exchange(&mut self.store, put);
        match renew(
            self.alloc,
            &self.config,
            &self.rules,
            &self.store,
            &self.worked,
            touched,
            reads,
        ) {
            Ok(fresh) => {
                drop(before);
                let hours = moved(&fresh.points);
                adopt(&mut self.worked, fresh);
                Ok(hours)
            }
            Err(error) => {
                drop(exchange(&mut self.store, before));
                Err(edit_error(error))
            }
        }
    }

    // Loads the rows of an hour, or replaces those that are held.
    #[tactic(auto, using(crate::proofs::EditLaws::steps_done, crate::proofs::GrowLaws::grow_same), unfolding(crate::specs::Edits::step_of, crate::specs::Opens::OpensFor))]
    fn edit_hour(
        &mut self,
        rows: HourRows<L>,
        replaces: bool,
        may_wait: bool,
        reads: &mut Reads<L>,
    ) -> Result<Applied, EditError>
        ensures step { Steps self.old.config (step_of self.old.store (hour_change replaces rows))
            self.old.store self.new.store result }
        ensures moved { IfOk result (Moves self.old.config self.old.store self.new.store
            (hour_change replaces rows)) }
        ensures stays { IsKeptPlain may_wait self.old.waiting → IfOk result (KeepParts
            self.old.config self.old.store self.new.store) }
        ensures lines { IfOk result (KeepLines self.old.config self.old.store self.new.store) }
        ensures settled { IsKeptPlain may_wait self.old.waiting → AllSettled self.new.waiting }
        ensures config { self.new.config ≡ self.old.config }
        ensures opens { OpensFor (hour_change replaces rows) self.old.waiting self.new.waiting
            reads.old reads.new result }
        ensures grow { Grow reads.old reads.new }
    {
        let hour = rows.hour();
        if !self.config.window().has_hour(hour) {
            return Err(EditError::OutOfWindow);
        }
        if self.store.is_held(hour) != replaces {
            return Err(held_error(replaces));
        }
        if rows_with(&self.store, hour, rows.len()) > MOST_ROWS {
            return Err(EditError::TooManyRows);
        }
        let touched = Touched {
            first: hour,
            last: hour,
            same: Vec::new(self.alloc),
            may_wait,
        };
        self.make(Put::Hour(hour, Some(rows)), &touched, reads)
    }

    #[tactic(auto, using(crate::proofs::EditLaws::steps_done, crate::proofs::GrowLaws::grow_same), unfolding(crate::specs::Edits::step_of, crate::specs::Opens::OpensFor))]
    fn withdraw(
        &mut self,
        hour: Hour,
        may_wait: bool,
        reads: &mut Reads<L>,
    ) -> Result<Applied, EditError>
        ensures step { Steps self.old.config (step_of self.old.store (withdraw hour)) self.old.store
            self.new.store result }
        ensures never { IfErr result (MayRefuse (withdraw hour)) }
        ensures moved { IfOk result (Moves self.old.config self.old.store self.new.store
            (withdraw hour)) }
        ensures stays { IsKeptPlain may_wait self.old.waiting → IfOk result (KeepParts
            self.old.config self.old.store self.new.store) }
        ensures lines { IfOk result (KeepLines self.old.config self.old.store self.new.store) }
        ensures settled { IsKeptPlain may_wait self.old.waiting → AllSettled self.new.waiting }
        ensures config { self.new.config ≡ self.old.config }
        ensures opens { OpensFor (withdraw hour) self.old.waiting self.new.waiting reads.old
            reads.new result }
        ensures grow { Grow reads.old reads.new }
    {
        if !self.config.window().has_hour(hour) {
            return Err(EditError::OutOfWindow);
        }
        if !self.store.is_held(hour) {
            return Err(EditError::NotHeld);
        }
        let touched = Touched {
            first: hour,
            last: hour,
            same: Vec::new(self.alloc),
            may_wait,
        };
        self.make(Put::Hour(hour, None), &touched, reads)
    }

    // Blanks the tenths of a range, or no longer.
    #[tactic(auto, using(crate::proofs::EditLaws::steps_done, crate::proofs::GrowLaws::grow_same), unfolding(crate::specs::Edits::step_of, crate::specs::Opens::OpensFor))]
    fn edit_range(
        &mut self,
        edit: RangeEdit,
        from: Tenth,
        to: Tenth,
        may_wait: bool,
        reads: &mut Reads<L>,
    ) -> Result<Applied, EditError>
        ensures step { Steps self.old.config (step_of self.old.store (range_change edit from to))
            self.old.store self.new.store result }
        ensures never { IfErr result (MayRefuse (range_change edit from to)) }
        ensures moved { IfOk result (Moves self.old.config self.old.store self.new.store
            (range_change edit from to)) }
        ensures stays { IsKeptPlain may_wait self.old.waiting → IfOk result (KeepParts
            self.old.config self.old.store self.new.store) }
        ensures lines { IfOk result (KeepLines self.old.config self.old.store self.new.store) }
        ensures settled { IsKeptPlain may_wait self.old.waiting → AllSettled self.new.waiting }
        ensures config { self.new.config ≡ self.old.config }
        ensures opens { OpensFor (range_change edit from to) self.old.waiting self.new.waiting
            reads.old reads.new result }
        ensures grow { Grow reads.old reads.new }
    {
        if reaches_out(self.config.hours(), from, to) {
            return Err(EditError::OutOfWindow);
        }
        if to <= from {
            return Err(EditError::EmptyRange);
        }
        let blanks = match edited(self.store.blanked(), edit, from, to) {
            Ok(blanks) => blanks,
            Err(_) => return Err(EditError::Memory),
        };
        if blanks.ranges().len() > MOST_BLANKS {
            return Err(EditError::TooManyBlanks);
        }
        let first = hour_at(from);
        let last = hour_at(to - 1);
        let same = match hours_as_were(self.alloc, self.store.blanked(), edit, first, last) {
            Ok(same) => same,
            Err(_) => return Err(EditError::Memory),
        };
        let touched = Touched {
            first,
            last,
            same,
            may_wait,
        };
        self.make(Put::Blanks(blanks), &touched, reads)
    }

    /// Makes the edit, or refuses it, as `Session::apply` does. Where they may wait, the numbers of
    /// the hours that change wait, but of a load: `settle` works them out, once for all edits up to
    /// then. That opens each of these hours once more, and spares an opening in each edit.
    pub fn apply(
        &mut self,
        edit: Edit<L>,
        may_wait: bool,
        reads: &mut Reads<L>,
    ) -> Result<Applied, EditError>
        ensures step { Steps self.old.config (step_of self.old.store (change_of edit))
            self.old.store self.new.store result }
        ensures never { IfErr result (MayRefuse (change_of edit)) }
        ensures moved { IfOk result (Moves self.old.config self.old.store self.new.store
            (change_of edit)) }
        ensures stays { IsKeptPlain may_wait self.old.waiting → IfOk result (KeepParts
            self.old.config self.old.store self.new.store) }
        ensures lines { IfOk result (KeepLines self.old.config self.old.store self.new.store) }
        ensures settled { IsKeptPlain may_wait self.old.waiting → AllSettled self.new.waiting }
        ensures config { self.new.config ≡ self.old.config }
        ensures opens { OpensFor (change_of edit) self.old.waiting self.new.waiting reads.old
            reads.new result }
        ensures grow { Grow reads.old reads.new }
    {
        match edit {
            Edit::Load(rows) => self.edit_hour(rows, false, false, reads),
            Edit::Replace(rows) => self.edit_hour(rows, true, may_wait, reads),
            Edit::Withdraw(hour) => self.withdraw(hour, may_wait, reads),
            Edit::Blank { from, to } => {
                self.edit_range(RangeEdit::Blank, from, to, may_wait, reads)
            }
            Edit::Unblank { from, to } => {
                self.edit_range(RangeEdit::Unblank, from, to, may_wait, reads)
            }
        }
    }

    /// Works out the numbers that wait. Where memory ran out some of them may still wait.
    pub fn settle(&mut self, reads: &mut Reads<L>) -> Result<(), NoMemory>
        ensures config { self.new.config ≡ self.old.config }
        ensures store { self.new.store ≡ self.old.store }
        ensures settled { OnOk result (AllSettled self.new.waiting) }
        ensures opens { OnOk result (AreOpenedOnce self.old.waiting self.new.waiting reads.old
            reads.new) }
        ensures grow { Grow reads.old reads.new }
    {
        settle_all(
            self.alloc,
            &self.config,
            &self.rules,
            &self.store,
            &mut self.worked,
            reads,
        )
    }
}
