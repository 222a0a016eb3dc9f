// An overlap.
ghost use Rattle.std.specs.Prelude.{◌≡◌};
ghost use Rattle.channel_tables.specs.Table.{AreFloors};

use colour_machine::Machine;

// The colours.
const OFF: u8 = 0;

const GREEN: u8 = 1;

const TRAILING: u8 = 2;

const YELLOW: u8 = 3;

const CLEAR: u8 = 4;

const DARK: u8 = 5;

// The letters.
const BEGIN_GREEN: u8 = 0;

const BEGIN_TRAILING: u8 = 1;

const BEGIN_YELLOW: u8 = 2;

const BEGIN_CLEARANCE: u8 = 3;

const GO_OFF: u8 = 4;

const GO_DARK: u8 = 5;

/// The machine of an overlap. Colours: off 0, green 1, trailing green 2, yellow 3, red clearance 4, dark
/// 5. Letters: the codes 61 to 66 in this order.
#[derive(Clone, Copy, Debug)]
pub struct OverlapMachine {
    /// For each colour the least age, in tenths of a second, at which it may be left.
    pub floors: [u32; 16],
    ghost low: { AreFloors floors },
}

impl OverlapMachine {
    /// The machine with these floors.
    pub fn new(floors: [u32; 16]) -> OverlapMachine
        requires { AreFloors floors }
        ensures { result.floors ≡ floors }
    {
        OverlapMachine { floors }
    }
}

impl Machine for OverlapMachine {
    ghost use Rattle.channel_tables.specs.Table.{table_rules};
    ghost use Rattle.channel_tables.specs.TableLaws.{overlap_laws};
    ghost use Rattle.channel_tables.specs.OverlapTable.{overlap_table};

    ghost rules = { λ m. table_rules overlap_table m.floors };

    ghost laws = { λ m. overlap_laws m.floors m.low };

    fn colours(&self) -> u8 {
        6
    }

    fn letters(&self) -> u8 {
        6
    }

    fn step(&self, colour: u8, letter: u8) -> Option<u8> {
        match (letter, colour) {
            (BEGIN_GREEN, OFF | GREEN | TRAILING | CLEAR | DARK) => Some(GREEN),
            (BEGIN_TRAILING, GREEN) => Some(TRAILING),
            (BEGIN_YELLOW, GREEN | TRAILING) => Some(YELLOW),
            (BEGIN_CLEARANCE, YELLOW) => Some(CLEAR),
            (GO_OFF, _) => Some(OFF),
            (GO_DARK, _) => Some(DARK),
            _ => None,
        }
    }

    fn floor(&self, colour: u8) -> u32 {
        self.floors[colour as usize]
    }
}
