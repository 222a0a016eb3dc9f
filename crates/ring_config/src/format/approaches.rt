// The table of approaches.
ghost use Rattle.std.specs.Prelude.{◌≡◌, ℤ, List, Ok, Option, option_and_then, option_map};
ghost use Rattle.std.specs.Str.{bytes_eq};
ghost use Rattle.toml.specs.Data.{as_integer};
ghost use Rattle.toml.specs.View.{view};
ghost use Rattle.ring_config.specs.Reading.{Gives, defaulted, required, value_at};
ghost use Rattle.ring_config.specs.Values.{name};
ghost use Rattle.ring_config.specs.Seen.{entry_seen};
ghost use Rattle.ring_config.specs.Tables.{approach_rules, high_at, is_over, numerator, travel_with};

use crate::error::{ConfigError, KeyName, TableName};
use crate::format::reading::{Entry, good, place, present, value_at};
use crate::format::references::required_phase;
use crate::format::values::{name, optional_detector, required_whole, whole};
use crate::format::walk::TableRules;
use crate::items::{Approach, Name};
use sig_base::{Frac, PhaseItem};
use toml::Value;

#[tactic(auto, unfolding(crate::specs::Reading::required))]
fn required_name(key: KeyName, entry: &Entry<'_>) -> Result<Name, ConfigError>
    ensures { Gives (λ n. n) result (required name key (entry_seen entry.now)) }
{
    let value = present(key, entry)?;
    good(place(key, entry), name(value))
}

fn integer_at(key: KeyName, entry: &Entry<'_>) -> Option<i64>
    ensures { result ≡ option_and_then as_integer (value_at key (entry_seen entry.now)) }
{
    match value_at(key, entry) {
        Some(value) => value.as_integer(),
        None => None,
    }
}

fn is_over(number: u32, other: Option<i64>) -> bool
    ensures { result ≡ is_over number other }
{
    match other {
        Some(other) => other < number as i64,
        None => false,
    }
}

// The first number of a share: not over the second, where that is a number.
fn numerator(value: &Value, entry: &Entry<'_>) -> Option<u32>
    ensures { result ≡ numerator (entry_seen entry.now) (view value.now) }
{
    match whole(1, 1000, value) {
        Some(number) => {
            if is_over(number, integer_at(KeyName::HighDen, entry)) {
                None
            } else {
                Some(number)
            }
        }
        None => None,
    }
}

// A share as both of its numbers, or 4/5 where neither is there.
#[tactic(auto, unfolding(crate::specs::Tables::high_at))]
fn high(entry: &Entry<'_>) -> Result<Frac, ConfigError>
    ensures { Gives (λ share. share) result (high_at (entry_seen entry.now)) }
{
    let num = value_at(KeyName::HighNum, entry);
    let den = value_at(KeyName::HighDen, entry);
    match (num, den) {
        (None, None) => Ok(Frac { num: 4, den: 5 }),
        (None, Some(_)) => Err(ConfigError::Missing(place(KeyName::HighNum, entry))),
        (Some(num), _) => {
            let num = good(place(KeyName::HighNum, entry), numerator(num, entry))?;
            let den = required_whole(1, 1000, KeyName::HighDen, entry)?;
            Ok(Frac {
                num: num as u64,
                den: den as u64,
            })
        }
    }
}

fn travel_with(advance: Option<u8>, value: &Value) -> Option<u32>
    ensures { result ≡ travel_with advance (view value.now) }
{
    let _detector = advance?;
    whole(0, 300, value)
}

// The travel time to the stop bar, or 0 where it isn't there; it is bad without a detector ahead.
#[tactic(auto, unfolding(crate::specs::Reading::defaulted))]
fn travel(advance: Option<u8>, entry: &Entry<'_>) -> Result<u32, ConfigError>
    ensures { Gives (λ n. n) result (defaulted 0 (travel_with advance) KeyName.Travel
        (entry_seen entry.now)) }
{
    match value_at(KeyName::Travel, entry) {
        None => Ok(0),
        Some(value) => good(place(KeyName::Travel, entry), travel_with(advance, value)),
    }
}

/// The approaches.
#[derive(Drop)]
pub(crate) struct ApproachTable<'a> {
    pub(crate) phases: &'a [PhaseItem],
}

impl<'a> TableRules for ApproachTable<'a> {
    type Item = Approach;

    ghost rules = { λ s. approach_rules s.phases.now };

    fn table(&self) -> TableName {
        TableName::Approach
    }

    fn limit(&self) -> u32 {
        64
    }

    fn listed(&self) -> &'static [KeyName] {
        &[
            KeyName::Name,
            KeyName::Phase,
            KeyName::Advance,
            KeyName::StopBar,
            KeyName::Travel,
            KeyName::HighNum,
            KeyName::HighDen,
        ]
    }

    #[tactic(auto, unfolding(crate::specs::Tables::approach_values))]
    fn values(&self, entry: &Entry<'_>) -> Result<Approach, ConfigError> {
        let name = required_name(KeyName::Name, entry)?;
        let phase = required_phase(self.phases, KeyName::Phase, entry)?;
        let advance = optional_detector(KeyName::Advance, entry)?;
        let stop_bar = optional_detector(KeyName::StopBar, entry)?;
        let travel = travel(advance, entry)?;
        let high = high(entry)?;
        Ok(Approach {
            name,
            phase,
            advance,
            stop_bar,
            travel,
            high,
        })
    }

    fn repeats(&self, earlier: &Approach, approach: &Approach) -> bool {
        earlier.name.bytes() == approach.name.bytes()
    }

    fn repeated(&self) -> KeyName {
        KeyName::Name
    }
}
