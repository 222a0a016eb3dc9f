// Whether strands are those of a line, and keep its rule or break it.
ghost use Rattle.std.specs.Prelude.{◌≡◌, ◌↔◌, ◌⊎◌, IsTrue, All};
ghost use Rattle.channel_tables.specs.Spec.{IsSpec};
ghost use Rattle.signal_log.specs.Log.{log_of};
ghost use Rattle.rule_audit.specs.Rules.{rules_for};
ghost use Rattle.filling_pair.specs.Strands.{AreAllStrands, IsStrand};
ghost use Rattle.filling_pair.specs.Kept.{AreShown, IsLineOf, IsPlaced, KeepLine, KeepsLine, line_rows};
ghost use Rattle.sig_base.specs.Reads.{Grow};

use crate::channels::are_channels;
use crate::hours::rows_of_hour;
use crate::keeps::keeps_by;
use crate::stands::stand_of;
use crate::strands::{Strand, Strands};
use channel_tables::Spec;
use hour_store::HourStore;
use ring_config::Config;
use rule_audit::{AuditLine, Rule};
use sig_base::{Reads, Row};

// Whether these are strands, and if so whether one of them keeps the rule.
#[derive(Clone, Copy)]
struct Checked {
    are_strands: bool,
    is_kept: bool,
}

// One strand.
#[tactic(auto, using(crate::proofs::Growing::grow_on, crate::proofs::Growing::grow_same))]
fn check_one<L>(
    specs: &[Spec],
    store: &HourStore<L>,
    rows: &[Row],
    line: &AuditLine,
    rule: &Rule,
    strand: &Strand,
    reads: &mut Reads<L>,
) -> Checked
    requires specs { All IsSpec specs.now }
    requires line { IsPlaced store.now line.now }
    requires rows { rows.now ≡ line_rows store.now line.now }
    ensures strand { IsTrue result.are_strands ↔ IsStrand (log_of specs.now store.now) strand.now }
    ensures kept { IsTrue result.are_strands → IsTrue result.is_kept
        ↔ KeepsLine specs.now store.now rows.now line.now rule.now strand.now }
    ensures grow { Grow reads.old reads.new }
{
    let stood = stand_of(specs, store, line, strand, reads);
    if !stood.is_strand {
        return Checked {
            are_strands: false,
            is_kept: false,
        };
    }
    match stood.there {
        Some(here) => Checked {
            are_strands: true,
            is_kept: keeps_by(specs, rows, line.place, rule, strand.spec, here),
        },
        None => Checked {
            are_strands: true,
            is_kept: false,
        },
    }
}

// All of them.
#[tactic(auto, using(crate::proofs::Growing::grow_on, crate::proofs::Growing::grow_same))]
fn check_each<L>(
    specs: &[Spec],
    store: &HourStore<L>,
    rows: &[Row],
    line: &AuditLine,
    rule: &Rule,
    strands: &[Strand],
    reads: &mut Reads<L>,
) -> Checked
    requires specs { All IsSpec specs.now }
    requires line { IsPlaced store.now line.now }
    requires rows { rows.now ≡ line_rows store.now line.now }
    ensures strands { IsTrue result.are_strands
        ↔ AreAllStrands (log_of specs.now store.now) strands.now }
    ensures kept { IsTrue result.are_strands → IsTrue result.is_kept
        ↔ KeepLine specs.now store.now rows.now line.now rule.now strands.now }
    ensures grow { Grow reads.old reads.new }
{
    let mut is_kept = false;
    for strand in strands {
        let checked = check_one(specs, store, rows, line, rule, strand, reads);
        if !checked.are_strands {
            return checked;
        }
        is_kept |= checked.is_kept;
    }
    Checked {
        are_strands: true,
        is_kept,
    }
}

/// Whether these are strands of the line's rule, and with them it is kept at the line's place
/// exactly as `kept` says. It can't run out of memory. The line's hour is opened, and for each
/// strand with a good start and good fills each hour of the window.
#[tactic(auto, using(crate::proofs::Growing::grow_on, crate::proofs::Growing::grow_same))]
pub fn check_strands<L>(
    config: &Config,
    rules: &[Rule],
    store: &HourStore<L>,
    line: &AuditLine,
    strands: &Strands,
    kept: bool,
    reads: &mut Reads<L>,
) -> bool
    requires rules { rules.now ≡ rules_for config.now }
    requires line { IsLineOf store.now rules.now line.now }
    ensures grow { Grow reads.old reads.new }
    ensures answer { IsTrue result
        ↔ AreShown config.now.specs store.now rules.now line.now strands.now kept }
{
    let specs = config.specs();
    let rule = &rules[line.rule as usize - 1];
    let list = strands.list();
    if !are_channels(rule, list) {
        return false;
    }
    let rows = rows_of_hour(store, line.at / 36_000, reads);
    let checked = check_each(specs, store, rows, line, rule, list, reads);
    checked.are_strands && checked.is_kept == kept
}
