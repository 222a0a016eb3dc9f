// Which letter of its machine a row is.
ghost use Rattle.std.specs.Prelude.{◌≡◌, ◌<◌, ◌↔◌, IsSome, IfSome, length};
ghost use Rattle.event_codes.specs.declared.channels.Channel.{Channel};
ghost use Rattle.event_codes.specs.Channels.{channel_in_table};
ghost use Rattle.channel_tables.specs.Letters.{letter_in_table, sign_of};
ghost use Rattle.channel_tables.specs.Table.{place_of};
ghost use Rattle.channel_tables.specs.Tables.{table_of};
ghost use Rattle.channel_tables.specs.CoordinationTable.{coordination_table};
ghost use Rattle.channel_tables.specs.OverlapTable.{overlap_table};
ghost use Rattle.channel_tables.specs.PedTable.{ped_table};
ghost use Rattle.channel_tables.specs.PhaseTable.{phase_table};
ghost use Rattle.channel_tables.specs.PreemptTable.{preempt_table};
ghost use Rattle.channel_tables.specs.DetectorTable.{detector_table};
ghost use Rattle.channel_tables.specs.SwitchTables.{ped_detector_table, preempt_input_table};

use event_codes::{Kind, channel_of};

/// The letter that a row of this code and parameter is in the machine of its channel; `None` exactly
/// where it has no channel. The letter is the place of the code in the table of the channel's kind;
/// of code 150 it is the parameter.
pub fn letter_of(code: u8, param: u16) -> Option<u8>
    ensures letter { result ≡ letter_in_table code param }
    ensures there { IsSome result ↔ IsSome (channel_in_table code param) }
    ensures within { (channel : Channel) → channel_in_table code param ≡ Some channel
        → IfSome result (λ l. l < length (table_of channel.kind).signs) }
{
    match channel_of(code, param) {
        Some(channel) => letter_of_kind(channel.kind, code, param),
        None => None,
    }
}

/// The letter of a row of a channel of this kind.
pub fn letter_of_kind(kind: Kind, code: u8, param: u16) -> Option<u8>
    ensures { result ≡ place_of (sign_of kind code param) (table_of kind).signs }
{
    match kind {
        Kind::Phase => phase_letter(code),
        Kind::Ped => ped_letter(code),
        Kind::Overlap => overlap_letter(code),
        Kind::Detector => detector_letter(code),
        Kind::PedDetector => ped_detector_letter(code),
        Kind::PreemptInput => preempt_input_letter(code),
        Kind::PreemptService => preempt_letter(code),
        Kind::Coordination => coordination_letter(param),
    }
}

// The letter of a phase's row.
fn phase_letter(code: u8) -> Option<u8>
    ensures { result ≡ place_of code phase_table.signs }
{
    match code {
        0 => Some(0),
        1 => Some(1),
        7 => Some(2),
        8 => Some(3),
        9 => Some(4),
        10 => Some(5),
        11 => Some(6),
        12 => Some(7),
        _ => None,
    }
}

// The letter of a pedestrian signal's row.
fn ped_letter(code: u8) -> Option<u8>
    ensures { result ≡ place_of code ped_table.signs }
{
    match code {
        21 => Some(0),
        22 => Some(1),
        23 => Some(2),
        24 => Some(3),
        _ => None,
    }
}

// The letter of an overlap's row.
fn overlap_letter(code: u8) -> Option<u8>
    ensures { result ≡ place_of code overlap_table.signs }
{
    match code {
        61 => Some(0),
        62 => Some(1),
        63 => Some(2),
        64 => Some(3),
        65 => Some(4),
        66 => Some(5),
        _ => None,
    }
}

// The letter of a detector's row.
fn detector_letter(code: u8) -> Option<u8>
    ensures { result ≡ place_of code detector_table.signs }
{
    match code {
        81 => Some(0),
        82 => Some(1),
        83 => Some(2),
        84 => Some(3),
        85 => Some(4),
        86 => Some(5),
        87 => Some(6),
        88 => Some(7),
        _ => None,
    }
}

// The letter of a pedestrian detector's row.
fn ped_detector_letter(code: u8) -> Option<u8>
    ensures { result ≡ place_of code ped_detector_table.signs }
{
    match code {
        89 => Some(0),
        90 => Some(1),
        _ => None,
    }
}

// The letter of a preempt input's row.
fn preempt_input_letter(code: u8) -> Option<u8>
    ensures { result ≡ place_of code preempt_input_table.signs }
{
    match code {
        104 => Some(0),
        102 => Some(1),
        _ => None,
    }
}

// The letter of a row of a preempt's service.
fn preempt_letter(code: u8) -> Option<u8>
    ensures { result ≡ place_of code preempt_table.signs }
{
    match code {
        105 => Some(0),
        106 => Some(1),
        107 => Some(2),
        111 => Some(3),
        _ => None,
    }
}

// The letter of the coordination's row, by its parameter.
fn coordination_letter(param: u16) -> Option<u8>
    ensures { result ≡ place_of param coordination_table.signs }
{
    match param {
        0 => Some(0),
        1 => Some(1),
        2 => Some(2),
        3 => Some(3),
        4 => Some(4),
        5 => Some(5),
        6 => Some(6),
        _ => None,
    }
}
