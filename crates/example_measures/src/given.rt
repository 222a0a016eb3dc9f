ghost use Rattle.std.specs.Prelude.{◌≡◌};
ghost use Rattle.channel_tables.specs.Spec.{IsSpec};

use channel_tables::Spec;
use detector_state::{Switched, switched};
use event_codes::{Channel, Kind};
use gap_map::Stretch;
use reach::Past;
use ring_config::{Config, read_config};
use sig_base::{NoMemory, Row};
use std::alloc::Global;
use std::test::Fail;

// One phase, whose green is to last 15 seconds.
pub const PHASE: &str = r#"signal = "7"
start = "2024-03-04T06"
hours = 1
[[phase]]
number = 2
ring = 1
side = 1
[[interval]]
channel = "phase 2"
colour = "Green"
at_least = 150
"#;

// The stretches of an hour that is known whole.
pub const WHOLE: [Stretch; 1] = [Stretch {
    from: 0,
    to: 36_000,
    known: true,
}];

/// The configuration that a text gives.
pub fn configured(alloc: Global, text: &str) -> Result<Config, Fail> {
    let config: Config = read_config(alloc, text.as_bytes())?;
    Ok(config)
}

/// A channel without floors.
pub fn free(kind: Kind, number: u8) -> Spec
    ensures fit { IsSpec result }
    ensures channel { result.channel ≡ record { kind = kind; number = number } }
{
    Spec {
        channel: Channel { kind, number },
        floors: [0; 16],
    }
}

/// A row of phase 2 or of pedestrian signal 2.
pub fn row(at: u32, code: u8) -> Row
    ensures { result ≡ record { at = at; code = code; param = 2 } }
{
    Row { at, code, param: 2 }
}

/// What is told of detector 5 in an hour before which nothing is known of it.
pub fn told(alloc: Global, rows: &[Row], stretches: &[Stretch]) -> Result<Switched, NoMemory> {
    let detector = Channel {
        kind: Kind::Detector,
        number: 5,
    };
    let before = Past::start(alloc, 3)?;
    switched(alloc, detector, &before, rows, stretches)
}

/// A row of detector 5.
pub fn at_detector(at: u32, code: u8) -> Row
    ensures { result ≡ record { at = at; code = code; param = 5 } }
{
    Row { at, code, param: 5 }
}
