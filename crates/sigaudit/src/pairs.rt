// What keeps and what breaks the lines that a rule leaves undecided.
ghost use Rattle.std.specs.Prelude.{◌≡◌, ◌*◌, ◌<◌, ◌≤◌, IfSome, Some, length};
ghost use Rattle.row_reader.specs.Stamp.{stamp_in};
ghost use Rattle.rule_audit.specs.Rules.{rules_for};
ghost use Rattle.sig_base.specs.Reads.{Grow};
ghost use Rattle.sigaudit.specs.Pairs.{AreFound, place_of, rule_within, tenth_within};
ghost use Rattle.sigaudit.specs.Run.{PutsOne};

use crate::status::Stopped;
use outside::Sink;
use report_text::{put_nothing, put_pairs};
use ring_config::Config;
use row_reader::read_stamp;
use rule_audit::Rule;
use session::Draft;
use sig_base::{Reads, Tenth};

// The number, if one of the rules has it.
fn rule_within(rules: &[Rule], number: u32) -> Option<u16>
    requires { length rules.now ≤ 1000 }
    ensures value { result ≡ rule_within (length rules.now) number }
    ensures first { IfSome result (λ n. 1 ≤ n) }
    ensures last { IfSome result (λ n. n ≤ length rules.now) }
{
    if number == 0 || number as usize > rules.len() {
        return None;
    }
    Some(number as u16)
}

// The tenth, if a window of so many hours has it.
fn tenth_within(hours: u32, at: Tenth) -> Option<u32>
    requires { hours ≤ 744 }
    ensures value { result ≡ tenth_within hours at }
    ensures within { IfSome result (λ t. t < 36000 * hours) }
{
    match u32::try_from(at) {
        Ok(at) if at < 36_000 * hours => Some(at),
        _ => None,
    }
}

// The rule of this number and the tenth that a stamp names, where both are there.
fn place_of(config: &Config, rules: &[Rule], rule: u32, at: &str) -> Option<(u16, u32)>
    requires { rules.now ≡ rules_for config.now }
    ensures value { result ≡ place_of config.now rule (stamp_in config.now.window at.now) }
    ensures first { IfSome result (λ p. 1 ≤ p.0) }
    ensures last { IfSome result (λ p. p.0 ≤ length rules.now) }
    ensures within { IfSome result (λ p. p.1 < 36000 * config.now.window.hours) }
{
    let hours = config.hours();
    let at = read_stamp(at.as_bytes(), config.window())?;
    match (rule_within(rules, rule), tenth_within(hours, at)) {
        (Some(rule), Some(at)) => Some((rule, at)),
        _ => None,
    }
}

// Writes the pairs of a rule and a tenth that are there. All of them are found before anything is
// written.
#[tactic(auto, using(crate::proofs::GrowFacts::grow_same))]
fn put_place<L, K: Sink>(
    rule: u16,
    at: u32,
    session: &Draft<L>,
    sink: &mut K,
    reads: &mut Reads<L>,
) -> Result<(), Stopped>
    requires first { 1 ≤ rule }
    requires last { rule ≤ length (rules_for session.now.config) }
    requires at { at < 36000 * session.now.config.window.hours }
    ensures text { PutsOne (AreFound session.now.config session.now.store (Some (rule, at)))
        (K.taken sink.old) (K.taken sink.new) result }
    ensures grow { Grow reads.old reads.new }
{
    let config = session.config();
    let pairs = session.pairs(rule, at, reads)?;
    put_pairs(config, rule, at, pairs.list(), sink)?;
    Ok(())
}

/// Writes for each line of the audit that says undecided, of the rule of this number at this stamp,
/// what keeps it and what breaks it, or the one line that there are none. A rule or a tenth that
/// isn't there has none.
#[tactic(auto, using(crate::proofs::GrowFacts::grow_same))]
pub fn put_undecided<L, K: Sink>(
    rule: u32,
    at: &str,
    session: &Draft<L>,
    sink: &mut K,
    reads: &mut Reads<L>,
) -> Result<(), Stopped>
    ensures text { PutsOne (AreFound session.now.config session.now.store
        (place_of session.now.config rule (stamp_in session.now.config.window at.now)))
        (K.taken sink.old) (K.taken sink.new) result }
    ensures grow { Grow reads.old reads.new }
{
    if let Some((rule, at)) = place_of(session.config(), session.rules(), rule, at) {
        return put_place(rule, at, session, sink, reads);
    }
    put_nothing(sink)?;
    Ok(())
}
