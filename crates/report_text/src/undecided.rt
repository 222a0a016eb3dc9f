// The answer to what a rule leaves undecided at a tenth.
ghost use Rattle.std.specs.Prelude.{◌<◌, ◌*◌, All, flat_map};
ghost use Rattle.outside.specs.Sink.{Puts};
ghost use Rattle.report_text.specs.Pairs.{found_text, nothing_text, pair_text, IsPairIn};

use crate::pairs::put_pair;
use filling_pair::Pair;
use outside::{PutFailed, Sink};
use ring_config::Config;
use rule_audit::{AuditLine, Place};
use sig_base::Verdict;

/// Writes that nothing is undecided there.
pub fn put_nothing<K: Sink>(sink: &mut K) -> Result<(), PutFailed>
    ensures { Puts (K.taken sink.old) (K.taken sink.new) nothing_text result }
{
    sink.put(b"nothing undecided\n")
}

fn put_each<K: Sink>(
    config: &Config,
    line: &AuditLine,
    pairs: &[Pair],
    sink: &mut K,
) -> Result<(), PutFailed>
    requires at { line.now.at < 36000 * config.now.window.hours }
    requires pairs { All (IsPairIn config.now.window) pairs.now }
    ensures { Puts (K.taken sink.old) (K.taken sink.new)
        (flat_map (pair_text config.now line.now.rule line.now.at) pairs.now) result }
{
    for pair in pairs {
        put_pair(config, line, pair, sink)?;
    }
    Ok(())
}

/// Writes for each of these pairs the rule's number and the tenth, and then what keeps the rule there
/// and what breaks it; or that nothing is undecided, where there is none. The window has the tenth
/// and those of the fills.
pub fn put_pairs<K: Sink>(
    config: &Config,
    rule: u16,
    at: u32,
    pairs: &[Pair],
    sink: &mut K,
) -> Result<(), PutFailed>
    requires at { at < 36000 * config.now.window.hours }
    requires pairs { All (IsPairIn config.now.window) pairs.now }
    ensures { Puts (K.taken sink.old) (K.taken sink.new) (found_text config.now rule at pairs.now)
        result }
{
    if pairs.is_empty() {
        return put_nothing(sink);
    }
    let line = AuditLine {
        rule,
        at,
        place: Place::EndOfTenth,
        verdict: Verdict::Undecided,
        window: None,
    };
    put_each(config, &line, pairs, sink)
}
