// A store with its report, changed by edits.
ghost use Rattle.std.specs.Prelude.{◌≡◌, ◌*◌, ◌<◌, ◌≤◌, length, IfOk, IfErr};
ghost use Rattle.arrival_measures.specs.Points.{diagrams_of};
ghost use Rattle.hour_store.specs.Store.{IsStore, is_known, known_rows, nothing_held};
ghost use Rattle.signal_log.specs.Log.{HasHistory, log_of};
ghost use Rattle.rule_audit.specs.Rules.{rules_for};
ghost use Rattle.hour_work.specs.Reports.{IsReport};
ghost use Rattle.session.specs.Edits.{change_of, step_of};
ghost use Rattle.session.specs.Moved.{KeepLines, KeepParts, Moves};
ghost use Rattle.session.specs.Opens.{OpensBy};
ghost use Rattle.session.specs.Pairs.{ArePairsAt};
ghost use Rattle.session.specs.Sessions.{AreCounted, Kept, MayRefuse, Steps};
ghost use Rattle.sig_base.specs.Reads.{Grow};
ghost use Rattle.session.specs.Windows.{AreHourLines};

use crate::draft::Draft;
use crate::edit::Edit;
use arrival_measures::Diagram;
use filling_pair::Pairs;
use hour_work::Report;
use ring_config::Config;
use rule_audit::{AuditLine, Rule};
use sig_base::{Applied, EditError, Hour, NoMemory, Reads};
use std::alloc::Global;
use std::marker::Model;

/// What is held of a signal's log and which tenths are blanked, under a configuration, with the
/// report of it. Some history of the signal agrees with the log. A draft of which no numbers wait.
#[derive(Drop)]
pub struct Session<L> {
    draft: Draft<L>,
}

impl<L> Model for Session<L> {
    ghost use Rattle.session.specs.Links.{AllSettled};
    ghost use Rattle.session.specs.Sessions.{Kept};

    ghost Value = { Kept };

    ghost view = { λ s. record { config = s.draft.config; store = s.draft.store } };

    ghost invariant = { λ s. AllSettled s.draft.waiting };
}

impl<L> Session<L> {
    /// A session that holds and blanks nothing.
    pub fn new(alloc: Global, config: Config) -> Result<Session<L>, NoMemory>
        ensures { IfOk result (λ s. s ≡ record {
          config = config;
          store = nothing_held
              config.window.hours;
        }) }
    {
        let draft = Draft::new(alloc, config)?;
        Ok(Session { draft })
    }

    /// The configuration that the session was made with.
    pub fn config(&self) -> &Config
        ensures value { result.now ≡ self.now.config }
        ensures hours { length self.now.store.hours ≡ self.now.config.window.hours }
    {
        self.draft.config()
    }

    /// The audit rules of the configuration; the first one has number 1.
    pub fn rules(&self) -> &[Rule]
        ensures { result.now ≡ rules_for self.now.config }
    {
        self.draft.rules()
    }

    /// The report of what is held and blanked.
    pub fn report(&self) -> &Report
        ensures report { IsReport self.now.config self.now.store result.now }
        ensures counted { AreCounted (length (rules_for self.now.config)) result.now }
        ensures history { HasHistory (log_of self.now.config.specs self.now.store) }
        ensures store { IsStore self.now.store }
    {
        self.draft.report()
    }

    /// The lines of the audit of an hour, in their order: the verdicts that aren't idle, over all
    /// histories that agree with the log. Where `windows` are wanted each broken line has its
    /// decisive window, else no line has one.
    pub fn audit_hour(
        &self,
        hour: Hour,
        windows: bool,
        reads: &mut Reads<L>,
    ) -> Result<Vec<AuditLine>, NoMemory>
        requires { hour < length self.now.store.hours }
        ensures lines { IfOk result (λ v. AreHourLines self.now.config self.now.store hour windows
            v.items) }
        ensures history { HasHistory (log_of self.now.config.specs self.now.store) }
        ensures store { IsStore self.now.store }
        ensures grow { Grow reads.old reads.new }
    {
        self.draft.audit_hour(hour, windows, reads)
    }

    /// The whole cycles of a phase, in their order, each with the arrivals in it at the advance
    /// detectors of the phase's approaches.
    pub fn points(&self, phase: u8, reads: &mut Reads<L>) -> Result<Vec<Diagram>, NoMemory>
        ensures points { IfOk result (λ v. v.items ≡ diagrams_of (is_known self.now.store)
            self.now.config phase (known_rows self.now.store)) }
        ensures store { IsStore self.now.store }
        ensures grow { Grow reads.old reads.new }
    {
        self.draft.points(phase, reads)
    }

    /// For each line of the audit that says undecided, of the rule of this number and at this
    /// tenth, strands of the rule's channels with which it is kept there, and strands with which
    /// it is broken, in the order of the lines. The first rule has number 1. The tenth's hour is
    /// opened, and for each such line the hours of the window.
    pub fn pairs(&self, rule: u16, at: u32, reads: &mut Reads<L>) -> Result<Pairs, NoMemory>
        requires first { 1 ≤ rule }
        requires last { rule ≤ length (rules_for self.now.config) }
        requires at { at < 36000 * length self.now.store.hours }
        ensures pairs { IfOk result (λ p. ArePairsAt self.now.config self.now.store rule at p) }
        ensures history { HasHistory (log_of self.now.config.specs self.now.store) }
        ensures store { IsStore self.now.store }
        ensures grow { Grow reads.old reads.new }
    {
        self.draft.pairs(rule, at, reads)
    }

    /// Makes the edit, or refuses it, with the session as before. The first refusal in the order of
    /// the variants of `EditError` is answered; those before `TooManyBlanks` take no memory and
    /// never give way to memory that ran out. `Contradiction` names the row at which the log would
    /// contradict itself; a withdrawal and a blanking never do. `Applied` has the hours whose
    /// numbers and verdicts the edit can change. They begin at the last hour point before the hours
    /// that it touches from which the log can be completed from the same states as before, or at the
    /// window's start. They end at the first point after those hours up to which the log says the
    /// same as before, or at the window's end. A range touches each hour of which it has a tenth,
    /// held or not.
    pub fn apply(&mut self, edit: Edit<L>, reads: &mut Reads<L>) -> Result<Applied, EditError>
        ensures step { Steps self.old.config (step_of self.old.store (change_of edit))
            self.old.store self.new.store result }
        ensures never { IfErr result (MayRefuse (change_of edit)) }
        ensures moved { IfOk result (Moves self.old.config self.old.store self.new.store
            (change_of edit)) }
        ensures stays { IfOk result (KeepParts self.old.config self.old.store self.new.store) }
        ensures lines { IfOk result (KeepLines self.old.config self.old.store self.new.store) }
        ensures config { self.new.config ≡ self.old.config }
        ensures opens { OpensBy (change_of edit) reads.old reads.new result }
        ensures grow { Grow reads.old reads.new }
    {
        self.draft.apply(edit, false, reads)
    }
}
