// The one walk that serves all tables.
ghost use Rattle.std.specs.Prelude.{◌≡◌, List, Ok, map};
ghost use Rattle.std.specs.List.{list_any};
ghost use Rattle.toml.specs.View.{table_view};
ghost use Rattle.ring_config.specs.Reading.{Gives};
ghost use Rattle.ring_config.specs.Seen.{entry_seen};
ghost use Rattle.ring_config.specs.Walk.{Rules, read_entry, entries_of};

use crate::error::{ConfigError, KeyAt, KeyName, TableName};
use crate::format::reading::{Entry, only, place};
use std::alloc::Global;
use toml::Table;

/// What the format says of a table.
pub(crate) trait TableRules {
    type Item;

    ghost rules: { Self → Rules Self.Item };

    fn table(&self) -> TableName
        ensures { result ≡ (rules self.now).table };

    /// The most entries that the table may have.
    fn limit(&self) -> u32
        ensures { result ≡ (rules self.now).limit };

    /// The keys of an entry, in order.
    fn listed(&self) -> &'static [KeyName]
        ensures { result.now ≡ (rules self.now).listed };

    /// An entry with good values, or the first of its keys that is missing or bad.
    fn values(&self, entry: &Entry<'_>) -> Result<Self::Item, ConfigError>
        ensures { Gives (λ x. x) result ((rules self.now).values (entry_seen entry.now)) };

    /// Whether an entry repeats an earlier one.
    fn repeats(&self, earlier: &Self::Item, item: &Self::Item) -> bool
        ensures { result ≡ (rules self.now).repeats earlier.now item.now };

    /// The key that a repetition is reported at.
    fn repeated(&self) -> KeyName
        ensures { result ≡ (rules self.now).repeated };
}

fn is_repeat<R: TableRules>(rules: &R, earlier: &[R::Item], item: &R::Item) -> bool
    ensures { result ≡ list_any (λ y. (R.rules rules.now).repeats y item.now) earlier.now }
{
    earlier.iter().any(|other| rules.repeats(other, item))
}

#[tactic(auto, unfolding(crate::specs::Walk::read_entry))]
fn read_entry<R: TableRules>(
    rules: &R,
    earlier: &[R::Item],
    entry: &Entry<'_>,
) -> Result<R::Item, ConfigError>
where
    R::Item: Drop,
    ensures { Gives (λ x. x) result (read_entry (R.rules rules.now) earlier.now
        (entry_seen entry.now)) }
{
    only(rules.listed(), entry)?;
    let item = rules.values(entry)?;
    if is_repeat(rules, earlier, &item) {
        return Err(ConfigError::Repeated(place(rules.repeated(), entry)));
    }
    Ok(item)
}

/// The entries of a table, or the first refusal.
#[tactic(auto, unfolding(crate::specs::Walk::entries_of))]
pub(crate) fn read_entries<R: TableRules>(
    alloc: Global,
    rules: &R,
    tables: &[&Table],
) -> Result<Vec<R::Item>, ConfigError>
where
    R::Item: Drop,
    ensures { Gives (λ v. v.items) result (entries_of (R.rules rules.now)
        (map (λ t. table_view t.now) tables.now)) }
{
    let table = rules.table();
    let limit = rules.limit();
    if tables.len() > limit as usize {
        return Err(ConfigError::TooMany(KeyAt {
            table,
            entry: limit,
            key: KeyName::Other,
        }));
    }
    let mut items = Vec::new(alloc);
    let mut index: u32 = 0;
    for members in tables {
        let entry = Entry {
            table,
            index,
            members,
        };
        let item = read_entry(rules, items.as_slice(), &entry)?;
        items.push(item)?;
        index += 1;
    }
    Ok(items)
}
