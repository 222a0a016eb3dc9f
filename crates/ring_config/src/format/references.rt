// Values that refer to what other entries configure: phases, channels and their colours.
ghost use Rattle.std.specs.Prelude.{◌≡◌, ◌&&◌, nat_le, ◌≤◌, ◌||◌, ◌==◌, ◌++◌, ◌^◌, ◌-◌, ℕ, List, Ok, IfSome, IfOk, [], bit_or, length, option_map};
ghost use Rattle.std.specs.List.{list_any};
ghost use Rattle.std.specs.Str.{bytes_eq};
ghost use Rattle.toml.specs.View.{view, items_view};
ghost use Rattle.ring_config.specs.Reading.{Gives, required};
ghost use Rattle.ring_config.specs.Values.{configured, is_pair, has_pair, partner, next_phase, phases_from, few_parents, mask_of, parents, passing, kind_word, is_word_and, is_named, named_from, channel, colour, colour_of};
ghost use Rattle.ring_config.specs.Parents.{IsMaskOf, Adds};
ghost use Rattle.ring_config.specs.Seen.{entry_seen};

use crate::error::{ConfigError, KeyName};
use crate::format::reading::{Entry, good, place, present};
use crate::format::values::whole;
use crate::items::{Named, Pair, has_pair, is_pair};
use channel_tables::colour_named;
use colour_machine::Mask;
use event_codes::{Channel, Kind};
use itoa::Buffer;
use sig_base::{PhaseItem, has_phase};
use toml::Value;

/// The number of a configured phase.
#[tactic(auto, unfolding(crate::specs::Values::configured))]
fn configured(phases: &[PhaseItem], value: &Value) -> Option<u8>
    ensures value { result ≡ configured phases.now (view value.now) }
    ensures low { IfSome result (λ n. 1 ≤ n) }
    ensures high { IfSome result (λ n. n ≤ 16) }
{
    match whole(1, 16, value) {
        Some(number) => {
            if has_phase(phases, number as u8) {
                Some(number as u8)
            } else {
                None
            }
        }
        None => None,
    }
}

/// The number of a configured phase at a key that every entry has.
#[tactic(auto, unfolding(crate::specs::Reading::required))]
pub(crate) fn required_phase(
    phases: &[PhaseItem],
    key: KeyName,
    entry: &Entry<'_>,
) -> Result<u8, ConfigError>
    ensures { Gives (λ n. n) result (required (configured phases.now) key (entry_seen entry.now)) }
{
    let value = present(key, entry)?;
    good(place(key, entry), configured(phases, value))
}

/// Whether a pair repeats another, in either order.
pub(crate) fn is_same_pair(earlier: &Pair, pair: &Pair) -> bool
    ensures { result ≡ is_pair earlier.now pair.now.a pair.now.b }
{
    is_pair(earlier, pair.a, pair.b)
}

fn is_barred(barred: &[Pair], a: u8, b: u8) -> bool
    ensures { result ≡ (b == a || has_pair barred.now a b) }
{
    b == a || has_pair(barred, a, b)
}

/// Another configured phase than `a`, with which `a` is no barred pair.
#[tactic(auto, unfolding(crate::specs::Values::partner))]
fn partner(phases: &[PhaseItem], barred: &[Pair], a: u8, value: &Value) -> Option<u8>
    ensures { result ≡ partner phases.now barred.now a (view value.now) }
{
    match configured(phases, value) {
        Some(b) => {
            if is_barred(barred, a, b) {
                None
            } else {
                Some(b)
            }
        }
        None => None,
    }
}

/// The partner of `a` at the second key of a pair.
#[tactic(auto, unfolding(crate::specs::Reading::required))]
pub(crate) fn required_partner(
    phases: &[PhaseItem],
    barred: &[Pair],
    a: u8,
    key: KeyName,
    entry: &Entry<'_>,
) -> Result<u8, ConfigError>
    ensures { Gives (λ n. n) result (required (partner phases.now barred.now a) key
        (entry_seen entry.now)) }
{
    let value = present(key, entry)?;
    good(place(key, entry), partner(phases, barred, a, value))
}

// The set with one phase more.
fn with_phase(phases: Mask, number: u8) -> Mask
    requires low { 1 ≤ number }
    requires high { number ≤ 16 }
    ensures { result ≡ bit_or phases (2 ^ (number - 1)) }
{
    phases.with(number - 1)
}

// The set of no phase.
fn no_phases() -> Mask
    ensures { result ≡ 0 }
{
    Mask::none()
}

// The parents with one more, where the value is a configured phase that isn't among them.
fn with_parent(phases: &[PhaseItem], parents: Mask, value: &Value) -> Option<Mask>
    ensures { (found : List ℕ) → IsMaskOf found parents
        → Adds found (next_phase phases.now found (view value.now)) result }
{
    match configured(phases, value) {
        Some(number) => {
            if parents.has(number - 1) {
                None
            } else {
                Some(with_phase(parents, number))
            }
        }
        None => None,
    }
}

// Whether there are 1 to 8.
fn are_few(count: usize) -> bool
    ensures { result ≡ (nat_le 1 count && nat_le count 8) }
{
    count >= 1 && count <= 8
}

fn parents_in(phases: &[PhaseItem], items: &[Value]) -> Option<Mask>
    ensures { result ≡ option_map mask_of (passing few_parents
        (phases_from phases.now [] (items_view items.now))) }
{
    let mut parents = no_phases();
    for item in items {
        match with_parent(phases, parents, item) {
            Some(more) => parents = more,
            None => return None,
        }
    }
    if are_few(items.len()) {
        Some(parents)
    } else {
        None
    }
}

/// The set of 1 to 8 distinct configured phases.
#[tactic(auto, unfolding(crate::specs::Values::parents))]
fn parents(phases: &[PhaseItem], value: &Value) -> Option<Mask>
    ensures { result ≡ parents phases.now (view value.now) }
{
    match value.as_array() {
        Some(items) => parents_in(phases, items.as_slice()),
        None => None,
    }
}

/// The parents of an overlap, at a key that every overlap has.
#[tactic(auto, unfolding(crate::specs::Reading::required))]
pub(crate) fn required_parents(
    phases: &[PhaseItem],
    key: KeyName,
    entry: &Entry<'_>,
) -> Result<Mask, ConfigError>
    ensures { Gives (λ n. n) result (required (parents phases.now) key (entry_seen entry.now)) }
{
    let value = present(key, entry)?;
    good(place(key, entry), parents(phases, value))
}

fn word_of(kind: Kind) -> Option<&'static str>
    ensures { option_map (λ word. word.now) result ≡ kind_word kind }
{
    match kind {
        Kind::Phase => Some("phase "),
        Kind::Ped => Some("ped "),
        Kind::Overlap => Some("overlap "),
        Kind::PreemptService => Some("preempt "),
        _ => None,
    }
}

// Whether the text is the prefix and then the rest.
fn is_joined(text: &[u8], front: &[u8], back: &[u8]) -> bool
    ensures { result ≡ bytes_eq text.now (front.now ++ back.now) }
{
    match text.strip_prefix(front) {
        Some(rest) => rest == back,
        None => false,
    }
}

// Whether the text names the channel.
fn is_named(text: &str, channel: &Channel) -> bool
    ensures { result ≡ is_named text.now channel.now }
{
    let mut digits = Buffer::new();
    match word_of(channel.kind) {
        Some(word) => is_joined(
            text.as_bytes(),
            word.as_bytes(),
            digits.format(channel.number).as_bytes(),
        ),
        None => false,
    }
}

fn named(channels: &[Channel], text: &str) -> Option<Named>
    requires { length channels.now ≤ 80 }
    ensures { result ≡ named_from 0 channels.now text.now }
{
    for (spec, channel) in channels.iter().enumerate() {
        if is_named(text, channel) {
            return Some(Named {
                spec: spec as u16,
                kind: channel.kind,
            });
        }
    }
    None
}

/// The channel of a text.
#[tactic(auto, unfolding(crate::specs::Values::channel))]
fn channel(channels: &[Channel], value: &Value) -> Option<Named>
    requires { length channels.now ≤ 80 }
    ensures { result ≡ channel channels.now (view value.now) }
{
    match value.as_str() {
        Some(text) => named(channels, text),
        None => None,
    }
}

/// The channel of the text at a key that every entry has.
#[tactic(auto, unfolding(crate::specs::Reading::required))]
pub(crate) fn required_channel(
    channels: &[Channel],
    key: KeyName,
    entry: &Entry<'_>,
) -> Result<Named, ConfigError>
    requires { length channels.now ≤ 80 }
    ensures { Gives (λ n. n) result (required (channel channels.now) key (entry_seen entry.now)) }
{
    let value = present(key, entry)?;
    good(place(key, entry), channel(channels, value))
}

// The colour of this name of a kind of channel.
fn colour_of(kind: Kind, text: &str) -> Option<u8>
    ensures { result ≡ colour_of kind text.now }
{
    colour_named(kind, text)
}

/// The colour that the value names.
#[tactic(auto, unfolding(crate::specs::Values::colour))]
fn colour(kind: Kind, value: &Value) -> Option<u8>
    ensures { result ≡ colour kind (view value.now) }
{
    match value.as_str() {
        Some(text) => colour_of(kind, text),
        None => None,
    }
}

/// The colour of the text at a key that every entry has.
#[tactic(auto, unfolding(crate::specs::Reading::required))]
pub(crate) fn required_colour(
    kind: Kind,
    key: KeyName,
    entry: &Entry<'_>,
) -> Result<u8, ConfigError>
    ensures { Gives (λ n. n) result (required (colour kind) key (entry_seen entry.now)) }
{
    let value = present(key, entry)?;
    good(place(key, entry), colour(kind, value))
}
