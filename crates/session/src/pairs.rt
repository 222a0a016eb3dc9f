// What keeps and what breaks the lines that a rule leaves undecided at a tenth.
ghost use Rattle.std.specs.Prelude.{◌≡◌, ℕ, All, filter, IfOk};
ghost use Rattle.rule_audit.specs.Rules.{rules_for};
ghost use Rattle.session.specs.HourLines.{IsLineIn};
ghost use Rattle.hour_work.specs.Counts.{is_undecided};
ghost use Rattle.session.specs.Pairs.{ArePairsOf, is_open_at};
ghost use Rattle.sig_base.specs.Reads.{Grow};

use filling_pair::{Pairs, find_pair};
use hour_store::HourStore;
use ring_config::Config;
use rule_audit::{AuditLine, Rule};
use sig_base::{NoMemory, Reads, Verdict};
use std::alloc::Global;

/// A rule by its number, and a tenth.
#[derive(Clone, Copy)]
pub struct Asked {
    pub rule: u16,
    pub at: u32,
}

fn is_undecided(verdict: Verdict) -> bool
    ensures { result ≡ is_undecided verdict }
{
    match verdict {
        Verdict::Undecided => true,
        Verdict::Idle | Verdict::Kept | Verdict::Broken => false,
    }
}

// Whether the line is of this rule, at this tenth, and says undecided.
fn is_open_at(line: &AuditLine, asked: Asked) -> bool
    ensures { result ≡ is_open_at asked.rule asked.at line.now }
{
    line.rule == asked.rule && line.at == asked.at && is_undecided(line.verdict)
}

/// A pair for each of the lines that says undecided there. The hours of the window are opened for
/// each.
#[tactic(auto, using(crate::proofs::GrowLaws::grow_same))]
pub fn pairs_of<L>(
    alloc: Global,
    config: &Config,
    rules: &[Rule],
    store: &HourStore<L>,
    lines: &[AuditLine],
    asked: Asked,
    reads: &mut Reads<L>,
) -> Result<Pairs, NoMemory>
    requires rules { rules.now ≡ rules_for config.now }
    requires lines { (hour : ℕ) × All (IsLineIn config.now store.now hour) lines.now }
    ensures pairs { IfOk result (λ p. ArePairsOf config.now store.now
        (filter (is_open_at asked.rule asked.at) lines.now) p) }
    ensures grow { Grow reads.old reads.new }
{
    let mut pairs = Pairs::new(alloc);
    for line in lines {
        if !is_open_at(line, asked) {
            continue;
        }
        let pair = find_pair(alloc, config, rules, store, line, reads)?;
        pairs.push(pair)?;
    }
    Ok(pairs)
}
