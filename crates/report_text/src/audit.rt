// The lines of an audit.
ghost use Rattle.std.specs.Prelude.{◌≡◌, ◌<◌, ◌*◌, ◌++◌, ◌∷◌, [], Some, None, slice_index_or};
ghost use Rattle.outside.specs.Sink.{Puts};
ghost use Rattle.report_text.specs.Audit.{audit_line_text, EndIn, IsLineIn, counts_tail, counts_text, due_text, is_none_counted, none_counted, rule_head, rule_line, verdict_text, window_text};

use crate::rules::put_rule_name;
use hour_work::{Partial, RuleCount};
use itoa::Buffer;
use outside::{PutFailed, Sink, put_parts};
use ring_config::Config;
use rule_audit::{AuditLine, Rule};
use sig_base::{Verdict, Window};

const NONE_COUNTED: RuleCount = RuleCount {
    kept: 0,
    broken: 0,
    undecided: 0,
};

fn is_none_counted(count: RuleCount) -> bool
    ensures { result ≡ is_none_counted count }
{
    count.kept == 0 && count.broken == 0 && count.undecided == 0
}

// The counts of the rule at this place, from 0.
fn count_at(counts: &[RuleCount], place: usize) -> RuleCount
    ensures { result ≡ slice_index_or counts.now place none_counted }
{
    match counts.get(place) {
        Some(count) => *count,
        None => NONE_COUNTED,
    }
}

fn put_head<K: Sink>(number: usize, sink: &mut K) -> Result<(), PutFailed>
    ensures { Puts (K.taken sink.old) (K.taken sink.new) (rule_head number) result }
{
    let mut buffer = Buffer::new();
    put_parts(sink, &[b"rule ", buffer.format(number).as_bytes(), b" "])
}

fn put_tail<K: Sink>(count: RuleCount, sink: &mut K) -> Result<(), PutFailed>
    ensures { Puts (K.taken sink.old) (K.taken sink.new) (counts_tail count) result }
{
    let mut kept = Buffer::new();
    let mut broken = Buffer::new();
    let mut undecided = Buffer::new();
    put_parts(
        sink,
        &[
            b" kept ",
            kept.format(count.kept).as_bytes(),
            b" broken ",
            broken.format(count.broken).as_bytes(),
            b" undecided ",
            undecided.format(count.undecided).as_bytes(),
            b"\n",
        ],
    )
}

// Writes the line of a rule, if it has verdicts.
fn put_rule_line<K: Sink>(
    config: &Config,
    number: usize,
    rule: &Rule,
    count: RuleCount,
    sink: &mut K,
) -> Result<(), PutFailed>
    ensures { Puts (K.taken sink.old) (K.taken sink.new)
        (rule_line config.now.specs number rule.now count) result }
{
    if is_none_counted(count) {
        return Ok(());
    }
    put_head(number, sink)?;
    put_rule_name(config, rule, sink)?;
    put_tail(count, sink)
}

/// Writes for each rule that has verdicts in an hour, or in the window, how many of them are kept,
/// broken and undecided.
pub fn put_audit_counts<K: Sink>(
    config: &Config,
    rules: &[Rule],
    part: &Partial,
    sink: &mut K,
) -> Result<(), PutFailed>
    ensures { Puts (K.taken sink.old) (K.taken sink.new)
        (counts_text config.now.specs rules.now part.now.rules) result }
{
    let counts = part.rules();
    for (i, rule) in rules.iter().enumerate() {
        put_rule_line(config, i + 1, rule, count_at(counts, i), sink)?;
    }
    Ok(())
}

// Writes the word of a verdict, its rule and when it is due.
fn put_due<K: Sink>(
    window: &Window,
    word: &[u8],
    line: &AuditLine,
    sink: &mut K,
) -> Result<(), PutFailed>
    requires { line.now.at < 36000 * window.now.hours }
    ensures { Puts (K.taken sink.old) (K.taken sink.new) (due_text window.now word.now line.now)
        result }
{
    let stamp = window.stamp(line.at);
    let mut number = Buffer::new();
    put_parts(
        sink,
        &[word, number.format(line.rule).as_bytes(), b" ", &stamp],
    )
}

// Ends the line of a verdict, with the window where there is one.
fn put_window<K: Sink>(
    window: &Window,
    ends: Option<(u32, u32)>,
    sink: &mut K,
) -> Result<(), PutFailed>
    requires { EndIn window.now ends }
    ensures { Puts (K.taken sink.old) (K.taken sink.new) (window_text window.now ends) result }
{
    match ends {
        None => put_parts(sink, &[b"\n"]),
        Some((from, to)) => {
            let from = window.stamp(from);
            let to = window.stamp(to);
            put_parts(sink, &[b" from ", &from, b" to ", &to, b"\n"])
        }
    }
}

fn put_verdict<K: Sink>(
    window: &Window,
    word: &[u8],
    line: &AuditLine,
    sink: &mut K,
) -> Result<(), PutFailed>
    requires { IsLineIn window.now line.now }
    ensures { Puts (K.taken sink.old) (K.taken sink.new) (verdict_text window.now word.now line.now)
        result }
{
    put_due(window, word, line, sink)?;
    put_window(window, line.window, sink)
}

/// Writes the line of one verdict: kept, broken or undecided, the rule's number, the tenth, and the
/// window where the line has one. An idle one has no line.
pub fn put_audit_line<K: Sink>(
    config: &Config,
    line: &AuditLine,
    sink: &mut K,
) -> Result<(), PutFailed>
    requires { IsLineIn config.now.window line.now }
    ensures { Puts (K.taken sink.old) (K.taken sink.new)
        (audit_line_text config.now.window line.now) result }
{
    let window = config.window();
    match line.verdict {
        Verdict::Idle => Ok(()),
        Verdict::Kept => put_verdict(window, b"kept ", line, sink),
        Verdict::Broken => put_verdict(window, b"broken ", line, sink),
        Verdict::Undecided => put_verdict(window, b"undecided ", line, sink),
    }
}
