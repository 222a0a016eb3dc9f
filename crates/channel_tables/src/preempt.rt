// A preempt's service.
ghost use Rattle.std.specs.Prelude.{◌≡◌};
ghost use Rattle.channel_tables.specs.Table.{AreFloors};

use colour_machine::Machine;

// The colours.
const REST: u8 = 0;

const ENTRY: u8 = 1;

const TRACK: u8 = 2;

const DWELL: u8 = 3;

// The letters.
const ENTRY_STARTED: u8 = 0;

const BEGIN_TRACK: u8 = 1;

const BEGIN_DWELL: u8 = 2;

const BEGIN_EXIT: u8 = 3;

/// The machine of a preempt's service. Colours: rest 0, entry 1, track clearance 2, dwell 3. Letters: the codes
/// 105, 106, 107, 111 in this order.
#[derive(Clone, Copy, Debug)]
pub struct PreemptMachine {
    /// For each colour the least age, in tenths of a second, at which it may be left.
    pub floors: [u32; 16],
    ghost low: { AreFloors floors },
}

impl PreemptMachine {
    /// The machine with these floors.
    pub fn new(floors: [u32; 16]) -> PreemptMachine
        requires { AreFloors floors }
        ensures { result.floors ≡ floors }
    {
        PreemptMachine { floors }
    }
}

impl Machine for PreemptMachine {
    ghost use Rattle.channel_tables.specs.Table.{table_rules};
    ghost use Rattle.channel_tables.specs.TableLaws.{preempt_laws};
    ghost use Rattle.channel_tables.specs.PreemptTable.{preempt_table};

    ghost rules = { λ m. table_rules preempt_table m.floors };

    ghost laws = { λ m. preempt_laws m.floors m.low };

    fn colours(&self) -> u8 {
        4
    }

    fn letters(&self) -> u8 {
        4
    }

    fn step(&self, colour: u8, letter: u8) -> Option<u8> {
        match (letter, colour) {
            (ENTRY_STARTED, _) => Some(ENTRY),
            (BEGIN_TRACK, ENTRY | TRACK) => Some(TRACK),
            (BEGIN_DWELL, ENTRY | TRACK | DWELL) => Some(DWELL),
            (BEGIN_EXIT, _) => Some(REST),
            _ => None,
        }
    }

    fn floor(&self, colour: u8) -> u32 {
        self.floors[colour as usize]
    }
}
