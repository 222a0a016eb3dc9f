// What the numbers of an hour are made from.
use crate::chains::Chains;
use gap_map::Stretch;

/// The rows of an hour in chains, and its tenths.
#[derive(Drop)]
pub(crate) struct Sources<'a> {
    /// The rows that begin or end green of a phase, also those at unknown tenths.
    pub(crate) turns: Chains<'a>,
    /// The arrivals of all detectors.
    pub(crate) arrivals: Chains<'a>,
    /// Their fault rows.
    pub(crate) faults: Chains<'a>,
    pub(crate) stretches: &'a [Stretch],
    /// The hour's first tenth.
    pub(crate) first: u32,
    /// Whether it is the window's last hour.
    pub(crate) last: bool,
}
