// What the pass over an hour looks at.
use crate::index::Skips;
use crate::rules::Rule;
use board::HourView;
use channel_tables::Spec;
use gap_map::Stretch;
use sig_base::Row;

/// An hour with its rules: the channels, the rules over them, the rows and the stretches of the
/// hour, and the view of it.
#[derive(Drop)]
pub(crate) struct AuditedHour<'a> {
    pub(crate) specs: &'a [Spec],
    pub(crate) rules: &'a [Rule],
    // For each channel its interval rules, and the clauses with a term of it.
    pub(crate) timed: &'a [Skips],
    pub(crate) clauses: &'a [Skips],
    pub(crate) view: &'a HourView,
    pub(crate) rows: &'a [Row],
    // For each row of a known tenth the place of its channel among the specs, or their number where
    // no rule is of it.
    pub(crate) own: &'a [u16],
    pub(crate) stretches: &'a [Stretch],
}
