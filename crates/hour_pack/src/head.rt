// What stands in front of the count: the mark, the signal and the hour.
ghost use Rattle.std.specs.Prelude.{◌≡◌, ◌*◌, ◌<◌, ◌++◌, true, OnOk};
ghost use Rattle.row_reader.specs.Signal.{is_signal};
ghost use Rattle.hour_pack.specs.Grammar.{head_bytes, hour_part};
ghost use Rattle.hour_pack.specs.Reading.{Gives, after_head, after_mark, after_part};

use crate::PackError;
use sig_base::{Hour, NoMemory, Window};

// The mark of a packed hour.
const MARK: [u8; 4] = [0x00, 0x53, 0x47, 0x50];

fn after_mark(bytes: &[u8]) -> Result<&[u8], PackError>
    ensures { Gives (λ rest. rest.now) result (after_mark bytes.now) }
{
    if bytes.starts_with(&MARK) {
        Ok(&bytes[4..])
    } else {
        Err(PackError::NotPacked)
    }
}

// The bytes behind this part. They are short where they end within it, and else wrong where one of
// them differs.
fn after_part<'a>(wrong: PackError, part: &[u8], bytes: &'a [u8]) -> Result<&'a [u8], PackError>
    ensures { Gives (λ rest. rest.now) result (after_part wrong part.now bytes.now) }
{
    if bytes.starts_with(part) {
        Ok(&bytes[part.len()..])
    } else if part.starts_with(bytes) {
        Err(PackError::Short)
    } else {
        Err(wrong)
    }
}

// The bytes `YYYY-MM-DDTHH` of this hour's first tenth.
#[tactic(auto, unfolding(crate::specs::Grammar::hour_part))]
fn hour_part(window: &Window, hour: Hour) -> [u8; 13]
    requires hour { hour < 744 }
    requires in_window { hour < window.now.hours }
    ensures { result ≡ hour_part window.now hour }
{
    let [a, b, c, d, e, f, g, h, i, j, k, l, m, ..] = window.stamp(36_000 * hour);
    [a, b, c, d, e, f, g, h, i, j, k, l, m]
}

/// The bytes behind the hour.
#[tactic(auto, unfolding(crate::specs::Reading::after_head))]
pub(crate) fn after_head<'a>(
    bytes: &'a [u8],
    signal: &str,
    hour: Hour,
    window: &Window,
) -> Result<&'a [u8], PackError>
    requires signal { is_signal signal.now ≡ true }
    requires hour { hour < 744 }
    requires in_window { hour < window.now.hours }
    ensures { Gives (λ rest. rest.now) result (after_head signal.now window.now hour bytes.now) }
{
    let body = after_mark(bytes)?;
    let body = after_part(PackError::WrongSignal, &[signal.len() as u8], body)?;
    let body = after_part(PackError::WrongSignal, signal.as_bytes(), body)?;
    after_part(PackError::WrongHour, &hour_part(window, hour), body)
}

/// Writes what stands in front of the count at the end.
pub(crate) fn put_head(
    out: &mut Vec<u8>,
    signal: &str,
    window: &Window,
    hour: Hour,
) -> Result<(), NoMemory>
    requires signal { is_signal signal.now ≡ true }
    requires hour { hour < 744 }
    requires in_window { hour < window.now.hours }
    ensures { OnOk result (out.new.items ≡ out.old.items ++ head_bytes signal.now window.now hour) }
{
    out.extend_from_slice(&MARK)?;
    out.push(signal.len() as u8)?;
    out.extend_from_slice(signal.as_bytes())?;
    out.extend_from_slice(&hour_part(window, hour))?;
    Ok(())
}
