// The tables of pairs of phases: those in conflict, and those that are allowed.
ghost use Rattle.std.specs.Prelude.{◌≡◌, List, Ok};
ghost use Rattle.ring_config.specs.Tables.{pair_rules};

use crate::error::{ConfigError, KeyName, TableName};
use crate::format::reading::Entry;
use crate::format::references::{is_same_pair, required_partner, required_phase};
use crate::format::walk::TableRules;
use crate::items::Pair;
use sig_base::PhaseItem;

/// The pairs of one of the two tables, of which none is barred.
#[derive(Drop)]
pub(crate) struct PairTable<'a> {
    pub(crate) table: TableName,
    pub(crate) phases: &'a [PhaseItem],
    pub(crate) barred: &'a [Pair],
}

impl<'a> TableRules for PairTable<'a> {
    type Item = Pair;

    ghost rules = { λ s. pair_rules s.table s.phases.now s.barred.now };

    fn table(&self) -> TableName {
        self.table
    }

    fn limit(&self) -> u32 {
        120
    }

    fn listed(&self) -> &'static [KeyName] {
        &[KeyName::A, KeyName::B]
    }

    #[tactic(auto, unfolding(crate::specs::Tables::pair_values))]
    fn values(&self, entry: &Entry<'_>) -> Result<Pair, ConfigError> {
        let a = required_phase(self.phases, KeyName::A, entry)?;
        let b = required_partner(self.phases, self.barred, a, KeyName::B, entry)?;
        Ok(Pair { a, b })
    }

    fn repeats(&self, earlier: &Pair, pair: &Pair) -> bool {
        is_same_pair(earlier, pair)
    }

    fn repeated(&self) -> KeyName {
        KeyName::A
    }
}
