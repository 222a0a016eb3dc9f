// An entry of a table of the file, and what stands at its keys.
ghost use Rattle.std.specs.Prelude.{◌≡◌, List, Ok, Option, map, option_map, string_bytes};
ghost use Rattle.std.specs.List.{list_any, list_all};
ghost use Rattle.std.specs.Str.{bytes_eq};
ghost use Rattle.std.specs.BTreeMap.{keys as map_keys};
ghost use Rattle.toml.specs.View.{view};
ghost use Rattle.ring_config.specs.Reading.{Gives, good, is_among, only, place, present, value_at};
ghost use Rattle.ring_config.specs.Seen.{entry_seen};

use crate::error::{ConfigError, KeyAt, KeyName, TableName};
use toml::{Table, Value};

/// An entry of a table of the file.
#[derive(Clone, Copy)]
pub(crate) struct Entry<'a> {
    pub(crate) table: TableName,
    /// Its place among the table's entries, from 0.
    pub(crate) index: u32,
    pub(crate) members: &'a Table,
}

pub(crate) fn place(key: KeyName, entry: &Entry<'_>) -> KeyAt
    ensures { result ≡ place key (entry_seen entry.now) }
{
    KeyAt {
        table: entry.table,
        entry: entry.index,
        key,
    }
}

fn is_among(listed: &[KeyName], text: &str) -> bool
    ensures { result ≡ is_among listed.now text.now }
{
    listed.iter().any(|key| key.text() == text)
}

fn all_among(listed: &[KeyName], members: &Table) -> bool
    ensures { result ≡ list_all (λ key. is_among listed.now (string_bytes key))
        (map_keys members.now) }
{
    members.keys().all(|key| is_among(listed, key.as_str()))
}

/// Refuses a key that isn't listed.
pub(crate) fn only(listed: &[KeyName], entry: &Entry<'_>) -> Result<(), ConfigError>
    ensures { Gives (λ x. x) result (only listed.now (entry_seen entry.now)) }
{
    if all_among(listed, entry.members) {
        Ok(())
    } else {
        Err(ConfigError::Unknown(place(KeyName::Other, entry)))
    }
}

/// The value at a key, where the entry has the key.
pub(crate) fn value_at<'a>(key: KeyName, entry: &Entry<'a>) -> Option<&'a Value>
    ensures { option_map (λ v. view v.now) result ≡ value_at key (entry_seen entry.now) }
{
    entry.members.get(key.text())
}

/// The value at a key that every entry has.
#[tactic(auto, unfolding(crate::specs::Reading::present))]
pub(crate) fn present<'a>(key: KeyName, entry: &Entry<'a>) -> Result<&'a Value, ConfigError>
    ensures { Gives (λ v. view v.now) result (present key (entry_seen entry.now)) }
{
    match value_at(key, entry) {
        Some(value) => Ok(value),
        None => Err(ConfigError::Missing(place(key, entry))),
    }
}

/// What a value stands for, or a refusal where that is nothing.
pub(crate) fn good<T>(at: KeyAt, value: Option<T>) -> Result<T, ConfigError>
    ensures { Gives (λ x. x) result (good at value) }
{
    match value {
        Some(value) => Ok(value),
        None => Err(ConfigError::BadValue(at)),
    }
}
