// A number of its own for each channel.
ghost use Rattle.std.specs.Prelude.{◌≡◌, ◌<◌};
ghost use Rattle.event_codes.specs.Cells.{cell_of, kind_number};

use crate::channels::{Channel, Kind};

impl Channel {
    /// The channel's place in a table of all channels, which has 2,048 places; no other channel has
    /// it.
    pub fn cell(self) -> usize
        ensures cell { result ≡ cell_of self }
        ensures within { result < 2048 }
    {
        self.number as usize * 8 + kind_number(self.kind)
    }
}

// The number of a kind.
fn kind_number(kind: Kind) -> usize
    ensures number { result ≡ kind_number kind }
    ensures within { result < 8 }
{
    match kind {
        Kind::Phase => 0,
        Kind::Ped => 1,
        Kind::Overlap => 2,
        Kind::Detector => 3,
        Kind::PedDetector => 4,
        Kind::PreemptInput => 5,
        Kind::PreemptService => 6,
        Kind::Coordination => 7,
    }
}
