// The names of the colours.
ghost use Rattle.std.specs.Prelude.{◌≡◌, ℕ, MatchOption, IfSome, IsTrue, ◌↔◌, slice_get};
ghost use Rattle.channel_tables.specs.Tables.{table_of, HasName};
ghost use Rattle.channel_tables.specs.CoordinationTable.{coordination_table};
ghost use Rattle.channel_tables.specs.OverlapTable.{overlap_table};
ghost use Rattle.channel_tables.specs.PedTable.{ped_table};
ghost use Rattle.channel_tables.specs.PhaseTable.{phase_table};
ghost use Rattle.channel_tables.specs.PreemptTable.{preempt_table};
ghost use Rattle.channel_tables.specs.SwitchTables.{ped_detector_table};
ghost use Rattle.channel_tables.specs.DetectorTable.{detector_table};

use event_codes::Kind;

/// The colour of this name of a channel of this kind, counted from 0; `None` where no colour has the
/// name. Capital and small letters differ.
pub fn colour_named(kind: Kind, name: &str) -> Option<u8>
    ensures named { IfSome result (λ colour. HasName kind colour name.now) }
    ensures every { (colour : ℕ) → HasName kind colour name.now → result ≡ Some colour }
{
    // No kind of channel has more than eight colours.
    for colour in 0..8 {
        if is_name(kind, colour, name) {
            return Some(colour);
        }
    }
    None
}

// Whether the colour has this name.
fn is_name(kind: Kind, colour: u8, name: &str) -> bool
    ensures { IsTrue result ↔ HasName kind colour name.now }
{
    match colour_name(kind, colour) {
        Some(known) => known == name,
        None => false,
    }
}

/// The name of a colour, counted from 0, of a channel of this kind; `None` where there is no such
/// colour.
pub fn colour_name(kind: Kind, colour: u8) -> Option<&'static str>
    ensures { MatchOption result (slice_get (table_of kind).names colour
        ≡ None) (λ name. HasName kind colour name.now) }
{
    match kind {
        Kind::Phase => phase_name(colour),
        Kind::Ped => ped_name(colour),
        Kind::Overlap => overlap_name(colour),
        Kind::Detector => detector_name(colour),
        Kind::PedDetector | Kind::PreemptInput => switch_name(colour),
        Kind::PreemptService => preempt_name(colour),
        Kind::Coordination => coordination_name(colour),
    }
}

// The name of a phase's colour.
fn phase_name(colour: u8) -> Option<&'static str>
    ensures { MatchOption result (slice_get phase_table.names colour
        ≡ None) (λ name. slice_get phase_table.names colour ≡ Some name.now) }
{
    match colour {
        0 => Some("Red"),
        1 => Some("On"),
        2 => Some("Green"),
        3 => Some("Term"),
        4 => Some("Yellow"),
        5 => Some("YellowDone"),
        6 => Some("Clear"),
        7 => Some("ClearDone"),
        _ => None,
    }
}

// The name of a pedestrian signal's colour.
fn ped_name(colour: u8) -> Option<&'static str>
    ensures { MatchOption result (slice_get ped_table.names colour
        ≡ None) (λ name. slice_get ped_table.names colour ≡ Some name.now) }
{
    match colour {
        0 => Some("DontWalk"),
        1 => Some("Walk"),
        2 => Some("Clearance"),
        3 => Some("Dark"),
        _ => None,
    }
}

// The name of an overlap's colour.
fn overlap_name(colour: u8) -> Option<&'static str>
    ensures { MatchOption result (slice_get overlap_table.names colour
        ≡ None) (λ name. slice_get overlap_table.names colour ≡ Some name.now) }
{
    match colour {
        0 => Some("Off"),
        1 => Some("Green"),
        2 => Some("Trailing"),
        3 => Some("Yellow"),
        4 => Some("Clear"),
        5 => Some("Dark"),
        _ => None,
    }
}

// The name of a detector's colour.
fn detector_name(colour: u8) -> Option<&'static str>
    ensures { MatchOption result (slice_get detector_table.names colour
        ≡ None) (λ name. slice_get detector_table.names colour ≡ Some name.now) }
{
    match colour {
        0 => Some("Off"),
        1 => Some("On"),
        2 => Some("Fault"),
        _ => None,
    }
}

// The name of a switch's colour.
fn switch_name(colour: u8) -> Option<&'static str>
    ensures { MatchOption result (slice_get ped_detector_table.names colour
        ≡ None) (λ name. slice_get ped_detector_table.names colour ≡ Some name.now) }
{
    match colour {
        0 => Some("Off"),
        1 => Some("On"),
        _ => None,
    }
}

// The name of a colour of a preempt's service.
fn preempt_name(colour: u8) -> Option<&'static str>
    ensures { MatchOption result (slice_get preempt_table.names colour
        ≡ None) (λ name. slice_get preempt_table.names colour ≡ Some name.now) }
{
    match colour {
        0 => Some("Rest"),
        1 => Some("Entry"),
        2 => Some("Track"),
        3 => Some("Dwell"),
        _ => None,
    }
}

// The name of the coordination's colour.
fn coordination_name(colour: u8) -> Option<&'static str>
    ensures { MatchOption result (slice_get coordination_table.names colour
        ≡ None) (λ name. slice_get coordination_table.names colour ≡ Some name.now) }
{
    match colour {
        0 => Some("0"),
        1 => Some("1"),
        2 => Some("2"),
        3 => Some("3"),
        4 => Some("4"),
        5 => Some("5"),
        6 => Some("6"),
        _ => None,
    }
}
