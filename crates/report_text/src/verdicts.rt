// The answers that are verdicts: an audit, and all verdicts of one hour.
ghost use Rattle.std.specs.Prelude.{◌++◌, All};
ghost use Rattle.outside.specs.Sink.{Puts};
ghost use Rattle.report_text.specs.Heads.{verdicts_head};
ghost use Rattle.report_text.specs.Audit.{audit_start, lines_text, IsLineIn};

use crate::audit::{put_audit_counts, put_audit_line};
use crate::heads::{put_audit_head, put_verdicts_head};
use hour_work::Partial;
use outside::{PutFailed, Sink};
use ring_config::Config;
use rule_audit::{AuditLine, Rule};
use sig_base::Hour;

// Writes the lines in their order.
fn put_each<K: Sink>(config: &Config, lines: &[AuditLine], sink: &mut K) -> Result<(), PutFailed>
    requires { All (IsLineIn config.now.window) lines.now }
    ensures { Puts (K.taken sink.old) (K.taken sink.new) (lines_text config.now.window lines.now)
        result }
{
    for line in lines {
        put_audit_line(config, line, sink)?;
    }
    Ok(())
}

// Writes the head of an audit, and how many verdicts each rule has in the window.
fn put_start<K: Sink>(
    line: u32,
    config: &Config,
    rules: &[Rule],
    total: &Partial,
    sink: &mut K,
) -> Result<(), PutFailed>
    ensures { Puts (K.taken sink.old) (K.taken sink.new)
        (audit_start line config.now.specs rules.now total.now.rules) result }
{
    put_audit_head(line, sink)?;
    put_audit_counts(config, rules, total, sink)
}

/// Writes the number of a script line and an audit: how many verdicts each rule has in the window,
/// and then these lines, each a word with the rule's number, the tenth, and the window where it has
/// one. An idle verdict has no line.
pub fn put_audit<K: Sink>(
    line: u32,
    config: &Config,
    rules: &[Rule],
    total: &Partial,
    lines: &[AuditLine],
    sink: &mut K,
) -> Result<(), PutFailed>
    requires { All (IsLineIn config.now.window) lines.now }
    ensures { Puts (K.taken sink.old) (K.taken sink.new)
        (audit_start line config.now.specs rules.now total.now.rules
        ++ lines_text config.now.window lines.now) result }
{
    put_start(line, config, rules, total, sink)?;
    put_each(config, lines, sink)
}

/// Writes the number of a script line, and an hour with these verdicts of it.
pub fn put_verdicts<K: Sink>(
    line: u32,
    hour: Hour,
    config: &Config,
    lines: &[AuditLine],
    sink: &mut K,
) -> Result<(), PutFailed>
    requires { All (IsLineIn config.now.window) lines.now }
    ensures { Puts (K.taken sink.old) (K.taken sink.new)
        (verdicts_head line hour ++ lines_text config.now.window lines.now) result }
{
    put_verdicts_head(line, hour, sink)?;
    put_each(config, lines, sink)
}
