// What an audit answers.
ghost use Rattle.std.specs.Prelude.{◌≡◌, ◌++◌, OnOk};
ghost use Rattle.rule_audit.specs.declared.rules.Rule.{Rule};
ghost use Rattle.rule_audit.specs.Lines.{lines_of};
ghost use Rattle.rule_audit.specs.Obligations.{obligation};

use sig_base::{NoMemory, Verdict};

/// Where a rule is judged: before a row, by the row's place in the hour from 0, or at the end of a
/// tenth, after all its rows.
#[derive(Clone, Copy, Debug, PartialEq, Eq)]
pub enum Place {
    BeforeRow(u32),
    EndOfTenth,
}

/// One verdict: kept, broken or undecided, never idle.
#[derive(Clone, Copy, Debug, PartialEq, Eq)]
pub struct AuditLine {
    /// The rule's number, from 1.
    pub rule: u16,
    /// The tenth at which it is judged.
    pub at: u32,
    pub place: Place,
    pub verdict: Verdict,
    /// The first and the last tenth of the stretch of log that decides a broken verdict, where that
    /// was looked for.
    pub window: Option<(u32, u32)>,
}

/// Adds the line of a verdict, unless that is idle.
pub(crate) fn push_line(
    lines: &mut Vec<AuditLine>,
    rule: u16,
    at: u32,
    place: Place,
    verdict: Verdict,
) -> Result<(), NoMemory>
    ensures { OnOk result ((judged : Rule) → lines.new.items
        ≡ lines.old.items ++ lines_of (obligation rule judged at place) verdict) }
{
    match verdict {
        Verdict::Idle => Ok(()),
        Verdict::Kept | Verdict::Broken | Verdict::Undecided => {
            lines.push(AuditLine {
                rule,
                at,
                place,
                verdict,
                window: None,
            })?;
            Ok(())
        }
    }
}
