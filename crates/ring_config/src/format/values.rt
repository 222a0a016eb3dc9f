// What a value stands for, key by key.
ghost use Rattle.std.specs.Prelude.{◌≡◌, ◌≤◌, ◌<◌, IfSome, IfOk, Ok, option_map};
ghost use Rattle.std.specs.List.{list_all};
ghost use Rattle.sig_base.specs.Window.{IsDay};
ghost use Rattle.toml.specs.View.{view};
ghost use Rattle.ring_config.specs.Reading.{Gives, required, optional};
ghost use Rattle.ring_config.specs.Values.{whole, yes_or_no, is_name_byte, is_short_text, signal, name, start, window, window_from};
ghost use Rattle.ring_config.specs.Seen.{entry_seen};

use crate::error::{ConfigError, KeyName};
use crate::format::reading::{Entry, good, place, present, value_at};
use crate::items::Name;
use row_reader::{is_signal, read_hour_stamp};
use sig_base::Window;
use toml::Value;

/// A whole number from `low` to `high`.
#[tactic(auto, unfolding(crate::specs::Values::whole))]
pub(crate) fn whole(low: u32, high: u32, value: &Value) -> Option<u32>
    ensures value { result ≡ whole low high (view value.now) }
    ensures low { IfSome result (λ n. low ≤ n) }
    ensures high { IfSome result (λ n. n ≤ high) }
{
    match value.as_integer() {
        Some(number) => {
            if number >= low as i64 && number <= high as i64 {
                Some(number as u32)
            } else {
                None
            }
        }
        None => None,
    }
}

/// A whole number from `low` to `high` at a key that every entry has.
#[tactic(auto, unfolding(crate::specs::Reading::required))]
pub(crate) fn required_whole(
    low: u32,
    high: u32,
    key: KeyName,
    entry: &Entry<'_>,
) -> Result<u32, ConfigError>
    ensures reads { Gives (λ n. n) result (required (whole low high) key (entry_seen entry.now)) }
    ensures high { IfOk result (λ n. n ≤ high) }
{
    let value = present(key, entry)?;
    match whole(low, high, value) {
        Some(number) => Ok(number),
        None => Err(ConfigError::BadValue(place(key, entry))),
    }
}

/// A number from 1 to 128 at a key that an entry may do without.
#[tactic(auto, unfolding(crate::specs::Reading::defaulted))]
pub(crate) fn optional_detector(key: KeyName, entry: &Entry<'_>) -> Result<Option<u8>, ConfigError>
    ensures { Gives (λ n. n) result (optional (whole 1 128) key (entry_seen entry.now)) }
{
    match value_at(key, entry) {
        None => Ok(None),
        Some(value) => match whole(1, 128, value) {
            Some(number) => Ok(Some(number as u8)),
            None => Err(ConfigError::BadValue(place(key, entry))),
        },
    }
}

#[tactic(auto, unfolding(crate::specs::Values::yes_or_no))]
pub(crate) fn yes_or_no(value: &Value) -> Option<bool>
    ensures { result ≡ yes_or_no (view value.now) }
{
    value.as_bool()
}

/// The text of a signal.
#[tactic(auto, unfolding(crate::specs::Values::signal))]
pub(crate) fn signal(value: &Value) -> Option<&str>
    ensures { option_map (λ s. s.now) result ≡ signal (view value.now) }
{
    match value.as_str() {
        Some(text) => { if is_signal(text) { Some(text) } else { None } }
        None => None,
    }
}

fn is_name_byte(byte: u8) -> bool
    ensures { result ≡ is_name_byte byte }
{
    matches!(byte, b'0'..=b'9' | b'A'..=b'Z' | b'a'..=b'z' | b'_' | b'-')
}

fn are_name_bytes(text: &[u8]) -> bool
    ensures { result ≡ list_all is_name_byte text.now }
{
    text.iter().all(|byte| is_name_byte(*byte))
}

#[tactic(auto, using(std::proofs::lemmas::Bool::Decides::nat_tests))]
fn is_name(text: &str) -> bool
    ensures { result ≡ is_short_text is_name_byte text.now }
{
    text.len() >= 1 && text.len() <= 32 && are_name_bytes(text.as_bytes())
}

/// The name of an approach.
#[tactic(auto, unfolding(crate::specs::Values::name))]
pub(crate) fn name(value: &Value) -> Option<Name>
    ensures { result ≡ name (view value.now) }
{
    match value.as_str() {
        Some(text) => {
            if is_name(text) {
                Some(Name::new(text.as_bytes()))
            } else {
                None
            }
        }
        None => None,
    }
}

/// The day and the hour at which the window starts.
#[tactic(auto, unfolding(crate::specs::Values::start))]
pub(crate) fn start(value: &Value) -> Option<(i64, u8)>
    ensures value { result ≡ start (view value.now) }
    ensures day { IfSome result (λ s. IsDay s.0) }
    ensures hour { IfSome result (λ s. s.1 < 24) }
{
    match value.as_str() {
        Some(text) => read_hour_stamp(text.as_bytes()),
        None => None,
    }
}

/// The window that a number of hours makes.
#[tactic(auto, unfolding(crate::specs::Values::window))]
pub(crate) fn window(first: (i64, u8), value: &Value) -> Option<Window>
    requires day { IsDay first.0 }
    requires hour { first.1 < 24 }
    ensures { result ≡ window first (view value.now) }
{
    match whole(1, 744, value) {
        Some(hours) => window_from(first, hours),
        None => None,
    }
}

fn window_from(first: (i64, u8), hours: u32) -> Option<Window>
    requires day { IsDay first.0 }
    requires hour { first.1 < 24 }
    requires some { 1 ≤ hours }
    requires few { hours ≤ 744 }
    ensures { result ≡ window_from first hours }
{
    Window::new(first.0, first.1, hours)
}
