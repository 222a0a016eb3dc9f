// Which device a row speaks of.
ghost use Rattle.std.specs.Prelude.{◌≡◌, ◌<◌};
ghost use Rattle.event_codes.specs.Channels.{channel_in_table, group_in_table, number_of, numbered_channel, same_group};

/// A kind of device, or of input, whose state a log follows.
#[derive(Clone, Copy, Debug, PartialEq, Eq, Hash)]
pub enum Kind {
    Phase,
    Ped,
    Overlap,
    Detector,
    PedDetector,
    PreemptInput,
    PreemptService,
    Coordination,
}

/// One device or input: its kind and its number, which is 1 to 16, 1 to 128 for a detector and 0
/// for the coordination.
#[derive(Clone, Copy, Debug, PartialEq, Eq, Hash)]
pub struct Channel {
    pub kind: Kind,
    pub number: u8,
}

/// The rows among which a row can be logged twice: those of one channel, or those of one code and
/// parameter where there is no channel.
#[derive(Clone, Copy, Debug, PartialEq, Eq, Hash)]
pub enum Group {
    Of(Channel),
    Alone { code: u8, param: u16 },
}

impl Group {
    /// Whether both are one group.
    #[tactic(auto, unfolding(crate::specs::Channels::same_group))]
    pub fn same(self, other: Group) -> bool
        ensures { result ≡ same_group self other }
    {
        self == other
    }
}

// The channel of this kind that the parameter numbers, from 1 to `most`.
fn numbered(kind: Kind, param: u16, most: u16) -> Option<Channel>
    requires few { most < 256 }
    requires own_number { number_of kind param ≡ param }
    ensures { result ≡ numbered_channel kind 1 most param }
{
    if param < 1 || param > most {
        return None;
    }
    Some(Channel {
        kind,
        number: param as u8,
    })
}

/// The channel of a row, by its code and parameter; `None` where the code has no channel or the
/// parameter is out of its range. The table is that of `docs/FORMATS.md`.
pub fn channel_of(code: u8, param: u16) -> Option<Channel>
    ensures { result ≡ channel_in_table code param }
{
    match code {
        // Most rows are those of detectors.
        81..=88 => numbered(Kind::Detector, param, 128),
        0 | 1 | 7 | 8 | 9 | 10 | 11 | 12 => numbered(Kind::Phase, param, 16),
        21 | 22 | 23 | 24 => numbered(Kind::Ped, param, 16),
        61 | 62 | 63 | 64 | 65 | 66 => numbered(Kind::Overlap, param, 16),
        89 | 90 => numbered(Kind::PedDetector, param, 16),
        102 | 104 => numbered(Kind::PreemptInput, param, 16),
        105 | 106 | 107 | 111 => numbered(Kind::PreemptService, param, 16),
        150 if param <= 6 => Some(Channel {
            kind: Kind::Coordination,
            number: 0,
        }),
        _ => None,
    }
}

/// The group of a row, by its code and parameter.
pub fn group_of(code: u8, param: u16) -> Group
    ensures { result ≡ group_in_table code param }
{
    match channel_of(code, param) {
        Some(channel) => Group::Of(channel),
        None => Group::Alone { code, param },
    }
}
