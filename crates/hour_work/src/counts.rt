// How often each rule is kept, broken and undecided.
ghost use Rattle.std.specs.Prelude.{◌≡◌, ◌↔◌, ◌+◌, ◌-◌, ◌≤◌, IsTrue, All, length, slice_index_or, slice_set, IfOk};
ghost use Rattle.hour_work.specs.declared.counts.RuleCount.{RuleCount};
ghost use Rattle.hour_work.specs.Numbers.{FitsCount};
ghost use Rattle.hour_work.specs.Counts.{HasKeptAlone, counted, counts_of};

use rule_audit::AuditLine;
use sig_base::{NoMemory, Verdict};
use std::alloc::Global;

/// How many obligations of a rule are kept, broken and undecided.
#[derive(Clone, Copy, Debug, PartialEq, Eq)]
pub struct RuleCount {
    pub kept: u64,
    pub broken: u64,
    pub undecided: u64,
}

impl RuleCount {
    /// Whether none is broken or undecided.
    pub fn has_kept_alone(&self) -> bool
        ensures { IsTrue result ↔ HasKeptAlone self.now }
    {
        self.broken == 0 && self.undecided == 0
    }
}

/// The counts of so many rules by the lines of an hour.
pub fn counts_of(
    alloc: Global,
    rules: usize,
    lines: &[AuditLine],
) -> Result<Vec<RuleCount>, NoMemory>
    requires numbers { All (λ l. (1 ≤ l.rule) × (l.rule ≤ rules)) lines.now }
    requires few { All (FitsCount 1) (counts_of rules lines.now) }
    ensures { IfOk result (λ v. v.items ≡ counts_of rules lines.now) }
{
    let none = RuleCount {
        kept: 0,
        broken: 0,
        undecided: 0,
    };
    let mut counts = vec![in alloc; none; rules]?;
    for line in lines {
        count_line(counts.as_mut_slice(), line);
    }
    Ok(counts)
}

// Counts one line more.
fn count_line(counts: &mut [RuleCount], line: &AuditLine)
    requires low { 1 ≤ line.now.rule }
    requires high { line.now.rule ≤ length counts.old }
    requires few { All (FitsCount 1) counts.old }
    ensures { (d : RuleCount) → counts.new ≡ slice_set counts.old (line.now.rule - 1)
        (counted (slice_index_or counts.old (line.now.rule - 1) d) line.now.verdict) }
{
    let place = line.rule as usize - 1;
    counts[place] = with_verdict(counts[place], line.verdict);
}

// The count with one verdict more.
fn with_verdict(count: RuleCount, verdict: Verdict) -> RuleCount
    requires { FitsCount 1 count }
    ensures { result ≡ counted count verdict }
{
    let RuleCount {
        kept,
        broken,
        undecided,
    } = count;
    match verdict {
        Verdict::Idle => count,
        Verdict::Kept => RuleCount {
            kept: kept + 1,
            broken,
            undecided,
        },
        Verdict::Broken => RuleCount {
            kept,
            broken: broken + 1,
            undecided,
        },
        Verdict::Undecided => RuleCount {
            kept,
            broken,
            undecided: undecided + 1,
        },
    }
}
