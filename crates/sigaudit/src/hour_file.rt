// What the file of an hour says.
ghost use Rattle.std.specs.Prelude.{◌≡◌, ◌<◌, [], true, Ok, IfOk, IfErr, nat_eq};
ghost use Rattle.std.specs.List.{starts_with};
ghost use Rattle.row_reader.specs.Signal.{is_signal};
ghost use Rattle.row_reader.specs.Repeats.{HasNoRepeat};
ghost use Rattle.row_reader.specs.Rows.{rows_of};
ghost use Rattle.hour_pack.specs.Grammar.{mark};
ghost use Rattle.hour_pack.specs.Reading.{reading};
ghost use Rattle.sigaudit.specs.HourFile.{hour_said, of_packed, of_records, IsUnread};

use hour_pack::{PackError, unpack};
use row_reader::{RowError, read_rows};
use sig_base::{Hour, HourRows, Window};
use std::alloc::Global;

/// Why the file of an hour gives no rows.
#[derive(Clone, Copy)]
pub enum Unread {
    /// A record is bad, or there are too many.
    Records(RowError),
    /// A packed hour has a fault.
    Packed(PackError),
    /// Memory ran out.
    Memory,
}

// The first four bytes of a packed hour.
const MARK: [u8; 4] = [0x00, 0x53, 0x47, 0x50];

fn is_packed(bytes: &[u8]) -> bool
    ensures { result ≡ starts_with nat_eq bytes.now mark }
{
    bytes.starts_with(&MARK)
}

fn records_of<L>(
    alloc: Global,
    bytes: &[u8],
    signal: &str,
    hour: Hour,
    window: &Window,
) -> Result<HourRows<L>, Unread>
    requires { hour < 744 }
    ensures ok { IfOk result (λ h. of_records (rows_of (record {
      signal = signal.now;
      hour = hour;
      window = window.now;
    }) bytes.now) ≡ Ok h) }
    ensures no_repeat { IfOk result (λ h. HasNoRepeat [] h.rows) }
    ensures err { IfErr result (IsUnread (of_records
        (rows_of (record { signal = signal.now; hour = hour; window = window.now }) bytes.now))) }
{
    match read_rows::<L>(alloc, bytes, signal, hour, window) {
        Ok(rows) => Ok(rows),
        Err(RowError::Memory) => Err(Unread::Memory),
        Err(error) => Err(Unread::Records(error)),
    }
}

fn packed_of<L>(
    alloc: Global,
    bytes: &[u8],
    signal: &str,
    hour: Hour,
    window: &Window,
) -> Result<HourRows<L>, Unread>
    requires signal { is_signal signal.now ≡ true }
    requires hour { hour < window.now.hours }
    ensures ok { IfOk result (λ h.
        of_packed hour (reading signal.now window.now hour bytes.now) ≡ Ok h) }
    ensures no_repeat { IfOk result (λ h. HasNoRepeat [] h.rows) }
    ensures err { IfErr result
        (IsUnread (of_packed hour (reading signal.now window.now hour bytes.now))) }
{
    match unpack::<L>(alloc, bytes, signal, hour, window) {
        Ok(rows) => Ok(rows),
        Err(PackError::Memory) => Err(Unread::Memory),
        Err(error) => Err(Unread::Packed(error)),
    }
}

/// The rows of this signal and this hour of the window that the bytes of a file say: those of a
/// packed hour where they begin with its mark, else those of the records of a log.
#[tactic(auto, unfolding(crate::specs::HourFile::hour_said))]
pub fn read_hour<L>(
    alloc: Global,
    bytes: &[u8],
    signal: &str,
    hour: Hour,
    window: &Window,
) -> Result<HourRows<L>, Unread>
    requires signal { is_signal signal.now ≡ true }
    requires hour { hour < window.now.hours }
    ensures ok { IfOk result (λ h. hour_said
        (record { signal = signal.now; hour = hour; window = window.now }) bytes.now ≡ Ok h) }
    ensures no_repeat { IfOk result (λ h. HasNoRepeat [] h.rows) }
    ensures err { IfErr result (IsUnread (hour_said
        (record { signal = signal.now; hour = hour; window = window.now }) bytes.now)) }
{
    // A window has at most 744 hours.
    let hours = window.hours();
    prove!(hour < hours);
    if is_packed(bytes) {
        packed_of(alloc, bytes, signal, hour, window)
    } else {
        records_of(alloc, bytes, signal, hour, window)
    }
}
