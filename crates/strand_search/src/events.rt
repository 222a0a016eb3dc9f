// Letters of a channel, as rows.
ghost use Rattle.std.specs.Prelude.{◌≡◌, ◌<◌, Some, length, slice_index, OnOk};
ghost use Rattle.channel_tables.specs.Letters.{IsNumber};
ghost use Rattle.channel_tables.specs.Spec.{rules_of};
ghost use Rattle.channel_tables.specs.Tables.{table_of};
ghost use Rattle.channel_tables.specs.OverlapTable.{overlap_table};
ghost use Rattle.channel_tables.specs.PedTable.{ped_table};
ghost use Rattle.channel_tables.specs.PhaseTable.{phase_table};
ghost use Rattle.channel_tables.specs.PreemptTable.{preempt_table};
ghost use Rattle.channel_tables.specs.DetectorTable.{detector_table};
ghost use Rattle.channel_tables.specs.SwitchTables.{ped_detector_table, preempt_input_table};
ghost use Rattle.board.specs.Channels.{letter_in, track};
ghost use Rattle.strand_search.specs.Events.{AddsLetters, AreLettersOf};

use channel_tables::Spec;
use event_codes::Kind;
use gap_ways::Fill;
use sig_base::{NoMemory, Row};

// The code of a phase's letter.
fn phase_code(letter: u8) -> u8
    requires { letter < 8 }
    ensures { result ≡ slice_index phase_table.signs letter }
{
    match letter {
        0 => 0,
        1 => 1,
        2 => 7,
        3 => 8,
        4 => 9,
        5 => 10,
        6 => 11,
        _ => 12,
    }
}

// The code of a pedestrian signal's letter.
fn ped_code(letter: u8) -> u8
    requires { letter < 4 }
    ensures { result ≡ slice_index ped_table.signs letter }
{
    21 + letter
}

// The code of an overlap's letter.
fn overlap_code(letter: u8) -> u8
    requires { letter < 6 }
    ensures { result ≡ slice_index overlap_table.signs letter }
{
    61 + letter
}

// The code of a detector's letter.
fn detector_code(letter: u8) -> u8
    requires { letter < 8 }
    ensures { result ≡ slice_index detector_table.signs letter }
{
    81 + letter
}

// The code of a pedestrian detector's letter.
fn ped_detector_code(letter: u8) -> u8
    requires { letter < 2 }
    ensures { result ≡ slice_index ped_detector_table.signs letter }
{
    89 + letter
}

// The code of a preempt input's letter.
fn preempt_input_code(letter: u8) -> u8
    requires { letter < 2 }
    ensures { result ≡ slice_index preempt_input_table.signs letter }
{
    if letter == 0 { 104 } else { 102 }
}

// The code of a letter of a preempt's service.
fn preempt_code(letter: u8) -> u8
    requires { letter < 4 }
    ensures { result ≡ slice_index preempt_table.signs letter }
{
    if letter < 3 { 105 + letter } else { 111 }
}

// The letter's sign in the table of the kind: its code, or for the coordination its parameter.
fn sign_at(kind: Kind, letter: u8) -> u8
    requires { letter < length (table_of kind).signs }
    ensures { result ≡ slice_index (table_of kind).signs letter }
{
    match kind {
        Kind::Phase => phase_code(letter),
        Kind::Ped => ped_code(letter),
        Kind::Overlap => overlap_code(letter),
        Kind::Detector => detector_code(letter),
        Kind::PedDetector => ped_detector_code(letter),
        Kind::PreemptInput => preempt_input_code(letter),
        Kind::PreemptService => preempt_code(letter),
        Kind::Coordination => letter,
    }
}

// The row at the tenth that is this letter of the channel.
fn row_of(spec: &Spec, at: u32, letter: u8) -> Row
    requires number { IsNumber spec.now.channel.kind spec.now.channel.number }
    requires letter { letter < (rules_of spec.now).letters }
    ensures at { result.at ≡ at }
    ensures letter { letter_in spec.now result.code result.param ≡ Some letter }
{
    let kind = spec.channel.kind;
    let sign = sign_at(kind, letter);
    match kind {
        Kind::Coordination => Row {
            at,
            code: 150,
            param: u16::from(sign),
        },
        _ => Row {
            at,
            code: sign,
            param: u16::from(spec.channel.number),
        },
    }
}

/// Adds the letters, as rows.
pub(crate) fn add_letters(
    spec: &Spec,
    letters: &[Fill],
    rows: &mut Vec<Row>,
) -> Result<(), NoMemory>
    requires number { IsNumber spec.now.channel.kind spec.now.channel.number }
    requires letters { AreLettersOf (rules_of spec.now) letters.now }
    ensures { OnOk result (AddsLetters (track spec.now) letters.now rows.old.items rows.new.items) }
{
    for letter in letters {
        rows.push(row_of(spec, letter.at as u32, letter.letter))?;
    }
    Ok(())
}
