// Reading a configuration from its bytes.
ghost use Rattle.std.specs.Prelude.{◌≡◌, Ok, Err, None};
ghost use Rattle.toml.specs.View.{table_view};
ghost use Rattle.ring_config.specs.Reading.{Gives};
ghost use Rattle.ring_config.specs.Settings.{config_of, document_of, staged_at};

use crate::config::Config;
use crate::error::{ConfigError, TableName};
use crate::format::parts::read_parts;
use crate::format::reading::Entry;
use std::alloc::Global;
use toml::Table;

#[tactic(auto, unfolding(crate::specs::Settings::config_at))]
fn config_from(alloc: Global, table: &Table) -> Result<Config, ConfigError>
    ensures { Gives (λ c. c) result (staged_at (table_view table.now)) }
{
    let document = Entry {
        table: TableName::Top,
        index: 0,
        members: table,
    };
    let parts = read_parts(alloc, &document)?;
    Ok(Config::settled(alloc, parts)?)
}

// The configuration that the bytes describe, or the first refusal.
#[tactic(auto, unfolding(crate::specs::Settings::config_of, crate::specs::Settings::document_of))]
fn read_document(alloc: Global, bytes: &[u8]) -> Result<Config, ConfigError>
    ensures { Gives (λ c. c) result (config_of bytes.now) }
{
    let text = match std::str::from_utf8(bytes) {
        Ok(text) => text,
        Err(_) => return Err(ConfigError::NotToml),
    };
    match toml::table_from_str(alloc, text) {
        Ok(table) => config_from(alloc, &table),
        Err(error) => {
            if error.is_memory() {
                Err(ConfigError::Memory)
            } else {
                Err(ConfigError::NotToml)
            }
        }
    }
}

/// Reads a configuration: the one that the bytes describe, or the first thing that is wrong with
/// them in the order of `docs/FORMATS.md`. `NotToml` comes where the bytes aren't UTF-8 or the text
/// isn't TOML, `Memory` at any place where memory runs out.
pub fn read_config(alloc: Global, bytes: &[u8]) -> Result<Config, ConfigError>
    ensures reads { Gives (λ c. c) result (config_of bytes.now) }
    ensures not_toml { result ≡ Err ConfigError.NotToml → document_of bytes.now ≡ None }
{
    read_document(alloc, bytes)
}
