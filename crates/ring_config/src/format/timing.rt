// The tables of floors and of interval rules.
ghost use Rattle.std.specs.Prelude.{◌≡◌, ◌≤◌, List, Ok, length};
ghost use Rattle.toml.specs.View.{view};
ghost use Rattle.ring_config.specs.Reading.{Gives, good, place};
ghost use Rattle.ring_config.specs.Values.{whole};
ghost use Rattle.ring_config.specs.Seen.{entry_seen};
ghost use Rattle.ring_config.specs.Tables.{bound_at, floor_rules, interval_rules};

use crate::error::{ConfigError, KeyName, TableName};
use crate::format::reading::{Entry, good, place, value_at};
use crate::format::references::{required_channel, required_colour};
use crate::format::values::{required_whole, whole};
use crate::format::walk::TableRules;
use crate::items::{FloorItem, IntervalItem};
use event_codes::Channel;
use reach::AgeBound;
use toml::Value;

/// The floors of the colours of channels.
#[derive(Drop)]
pub(crate) struct FloorTable<'a> {
    pub(crate) channels: &'a [Channel],
    ghost few: { length channels.now ≤ 80 },
}

impl<'a> TableRules for FloorTable<'a> {
    type Item = FloorItem;

    ghost rules = { λ s. floor_rules s.channels.now };

    fn table(&self) -> TableName {
        TableName::Floor
    }

    fn limit(&self) -> u32 {
        512
    }

    fn listed(&self) -> &'static [KeyName] {
        &[KeyName::Channel, KeyName::Colour, KeyName::Tenths]
    }

    #[tactic(auto, unfolding(crate::specs::Tables::floor_values))]
    fn values(&self, entry: &Entry<'_>) -> Result<FloorItem, ConfigError> {
        let channel = required_channel(self.channels, KeyName::Channel, entry)?;
        let colour = required_colour(channel.kind, KeyName::Colour, entry)?;
        let tenths = required_whole(0, 36_000, KeyName::Tenths, entry)?;
        Ok(FloorItem {
            spec: channel.spec,
            colour,
            tenths,
        })
    }

    fn repeats(&self, earlier: &FloorItem, floor: &FloorItem) -> bool {
        earlier.spec == floor.spec && earlier.colour == floor.colour
    }

    fn repeated(&self) -> KeyName {
        KeyName::Channel
    }
}

// A bound of 1 to 36,000 tenths of a second.
fn bound_in(key: KeyName, value: &Value, entry: &Entry<'_>) -> Result<u32, ConfigError>
    ensures { Gives (λ n. n) result (good (place key (entry_seen entry.now))
        (whole 1 36000 (view value.now))) }
{
    good(place(key, entry), whole(1, 36_000, value))
}

// Exactly one of the two bounds.
#[tactic(auto, unfolding(crate::specs::Tables::bound_at))]
fn bound(entry: &Entry<'_>) -> Result<AgeBound, ConfigError>
    ensures { Gives (λ b. b) result (bound_at (entry_seen entry.now)) }
{
    let least = value_at(KeyName::AtLeast, entry);
    let most = value_at(KeyName::AtMost, entry);
    match (least, most) {
        (None, None) => Err(ConfigError::Missing(place(KeyName::AtLeast, entry))),
        (None, Some(most)) => Ok(AgeBound::AtMost(bound_in(KeyName::AtMost, most, entry)?)),
        (Some(least), None) => Ok(AgeBound::AtLeast(bound_in(KeyName::AtLeast, least, entry)?)),
        (Some(least), Some(_)) => {
            bound_in(KeyName::AtLeast, least, entry)?;
            Err(ConfigError::BadValue(place(KeyName::AtMost, entry)))
        }
    }
}

/// The interval rules, of which two may be the same.
#[derive(Drop)]
pub(crate) struct IntervalTable<'a> {
    pub(crate) channels: &'a [Channel],
    ghost few: { length channels.now ≤ 80 },
}

impl<'a> TableRules for IntervalTable<'a> {
    type Item = IntervalItem;

    ghost rules = { λ s. interval_rules s.channels.now };

    fn table(&self) -> TableName {
        TableName::Interval
    }

    fn limit(&self) -> u32 {
        256
    }

    fn listed(&self) -> &'static [KeyName] {
        &[
            KeyName::Channel,
            KeyName::Colour,
            KeyName::AtLeast,
            KeyName::AtMost,
        ]
    }

    #[tactic(auto, unfolding(crate::specs::Tables::interval_values))]
    fn values(&self, entry: &Entry<'_>) -> Result<IntervalItem, ConfigError> {
        let channel = required_channel(self.channels, KeyName::Channel, entry)?;
        let colour = required_colour(channel.kind, KeyName::Colour, entry)?;
        let bound = bound(entry)?;
        Ok(IntervalItem {
            spec: channel.spec,
            colour,
            bound,
        })
    }

    fn repeats(&self, _: &IntervalItem, _: &IntervalItem) -> bool {
        false
    }

    fn repeated(&self) -> KeyName {
        KeyName::Other
    }
}
