// The audit of an hour.
ghost use Rattle.std.specs.Prelude.{◌≡◌, IfOk};
ghost use Rattle.board.specs.Logs.{HourLog};
ghost use Rattle.rule_audit.specs.Rules.{rules_for};
ghost use Rattle.rule_audit.specs.Lines.{AreLines, IsAudited};

use crate::hour::AuditedHour;
use crate::index::all_skips;
use crate::lines::AuditLine;
use crate::owners::own_places;
use crate::rules::Rule;
use crate::walk::judge_hour;
use board::HourView;
use gap_map::Stretch;
use ring_config::Config;
use sig_base::{NoMemory, Row};
use std::alloc::Global;

/// All verdicts of an hour that aren't idle, tenth by tenth: at each known tenth first those of the
/// interval rules, by row and rule, then those of the clauses, by rule. `known_before` says whether
/// the tenth before the hour is known; it decides whether the hour begins a known stretch. No line
/// has a window.
///
/// The rules are those of the configuration, and the view is one of the hour with these rows and
/// stretches, with which some history agrees.
pub fn audit_rows(
    alloc: Global,
    config: &Config,
    rules: &[Rule],
    view: &HourView,
    rows: &[Row],
    stretches: &[Stretch],
    known_before: bool,
) -> Result<Vec<AuditLine>, NoMemory>
    requires rules { rules.now ≡ rules_for config.now }
    requires view { (log : HourLog) × IsAudited config.now view.now rows.now stretches.now log }
    ensures { IfOk result (λ v. (log : HourLog) → IsAudited config.now view.now rows.now
        stretches.now log → AreLines log rules.now known_before v.items) }
{
    let specs = config.specs();
    let timed = all_skips(alloc, specs, rules, false)?;
    let clauses = all_skips(alloc, specs, rules, true)?;
    let own = own_places(alloc, rules, &timed, &clauses, view, rows)?;
    let hour = AuditedHour {
        specs,
        rules,
        timed: &timed,
        clauses: &clauses,
        own: &own,
        view,
        rows,
        stretches,
    };
    judge_hour(alloc, &hour, known_before)
}
