// The tables of what the intersection has: phases, pedestrian signals, overlaps and preempts.
ghost use Rattle.std.specs.Prelude.{◌≡◌, List, Ok};
ghost use Rattle.ring_config.specs.Tables.{phase_rules, ped_rules, overlap_rules, preempt_rules};

use crate::error::{ConfigError, KeyName, TableName};
use crate::format::reading::Entry;
use crate::format::references::{required_parents, required_phase};
use crate::format::values::required_whole;
use crate::format::walk::TableRules;
use crate::items::OverlapItem;
use sig_base::PhaseItem;

/// The phases.
#[derive(Drop)]
pub(crate) struct PhaseTable;

impl TableRules for PhaseTable {
    type Item = PhaseItem;

    ghost rules = { λ _. phase_rules };

    fn table(&self) -> TableName {
        TableName::Phase
    }

    fn limit(&self) -> u32 {
        16
    }

    fn listed(&self) -> &'static [KeyName] {
        &[KeyName::Number, KeyName::Ring, KeyName::Side]
    }

    #[tactic(auto, unfolding(crate::specs::Tables::phase_values))]
    fn values(&self, entry: &Entry<'_>) -> Result<PhaseItem, ConfigError> {
        let number = required_whole(1, 16, KeyName::Number, entry)? as u8;
        let ring = required_whole(1, 4, KeyName::Ring, entry)? as u8;
        let side = required_whole(1, 4, KeyName::Side, entry)? as u8;
        Ok(PhaseItem { number, ring, side })
    }

    fn repeats(&self, earlier: &PhaseItem, phase: &PhaseItem) -> bool {
        earlier.number == phase.number
    }

    fn repeated(&self) -> KeyName {
        KeyName::Number
    }
}

/// The pedestrian signals, each beside a phase of its number.
#[derive(Drop)]
pub(crate) struct PedTable<'a> {
    pub(crate) phases: &'a [PhaseItem],
}

impl<'a> TableRules for PedTable<'a> {
    type Item = u8;

    ghost rules = { λ s. ped_rules s.phases.now };

    fn table(&self) -> TableName {
        TableName::Ped
    }

    fn limit(&self) -> u32 {
        16
    }

    fn listed(&self) -> &'static [KeyName] {
        &[KeyName::Number]
    }

    fn values(&self, entry: &Entry<'_>) -> Result<u8, ConfigError> {
        required_phase(self.phases, KeyName::Number, entry)
    }

    fn repeats(&self, earlier: &u8, ped: &u8) -> bool {
        earlier == ped
    }

    fn repeated(&self) -> KeyName {
        KeyName::Number
    }
}

/// The overlaps, each with the phases that it runs with.
#[derive(Drop)]
pub(crate) struct OverlapTable<'a> {
    pub(crate) phases: &'a [PhaseItem],
}

impl<'a> TableRules for OverlapTable<'a> {
    type Item = OverlapItem;

    ghost rules = { λ s. overlap_rules s.phases.now };

    fn table(&self) -> TableName {
        TableName::Overlap
    }

    fn limit(&self) -> u32 {
        16
    }

    fn listed(&self) -> &'static [KeyName] {
        &[KeyName::Number, KeyName::Parents]
    }

    #[tactic(auto, unfolding(crate::specs::Tables::overlap_values))]
    fn values(&self, entry: &Entry<'_>) -> Result<OverlapItem, ConfigError> {
        let number = required_whole(1, 16, KeyName::Number, entry)? as u8;
        let parents = required_parents(self.phases, KeyName::Parents, entry)?;
        Ok(OverlapItem { number, parents })
    }

    fn repeats(&self, earlier: &OverlapItem, overlap: &OverlapItem) -> bool {
        earlier.number == overlap.number
    }

    fn repeated(&self) -> KeyName {
        KeyName::Number
    }
}

/// The preempts.
#[derive(Drop)]
pub(crate) struct PreemptTable;

impl TableRules for PreemptTable {
    type Item = u8;

    ghost rules = { λ _. preempt_rules };

    fn table(&self) -> TableName {
        TableName::Preempt
    }

    fn limit(&self) -> u32 {
        16
    }

    fn listed(&self) -> &'static [KeyName] {
        &[KeyName::Number]
    }

    fn values(&self, entry: &Entry<'_>) -> Result<u8, ConfigError> {
        match required_whole(1, 16, KeyName::Number, entry) {
            Ok(number) => Ok(number as u8),
            Err(error) => Err(error),
        }
    }

    fn repeats(&self, earlier: &u8, preempt: &u8) -> bool {
        earlier == preempt
    }

    fn repeated(&self) -> KeyName {
        KeyName::Number
    }
}
