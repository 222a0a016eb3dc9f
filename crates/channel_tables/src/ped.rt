// A pedestrian signal.
ghost use Rattle.std.specs.Prelude.{◌≡◌};
ghost use Rattle.channel_tables.specs.Table.{AreFloors};

use colour_machine::Machine;

// The colours.
const DONT_WALK: u8 = 0;

const WALK: u8 = 1;

const CLEARANCE: u8 = 2;

const DARK: u8 = 3;

// The letters.
const BEGIN_WALK: u8 = 0;

const BEGIN_CLEARANCE: u8 = 1;

const BEGIN_DONT_WALK: u8 = 2;

const GO_DARK: u8 = 3;

/// The machine of a pedestrian signal. Colours: don't walk 0, walk 1, clearance 2, dark 3. Letters: the
/// codes 21, 22, 23, 24 in this order.
#[derive(Clone, Copy, Debug)]
pub struct PedMachine {
    /// For each colour the least age, in tenths of a second, at which it may be left.
    pub floors: [u32; 16],
    ghost low: { AreFloors floors },
}

impl PedMachine {
    /// The machine with these floors.
    pub fn new(floors: [u32; 16]) -> PedMachine
        requires { AreFloors floors }
        ensures { result.floors ≡ floors }
    {
        PedMachine { floors }
    }
}

impl Machine for PedMachine {
    ghost use Rattle.channel_tables.specs.Table.{table_rules};
    ghost use Rattle.channel_tables.specs.TableLaws.{ped_laws};
    ghost use Rattle.channel_tables.specs.PedTable.{ped_table};

    ghost rules = { λ m. table_rules ped_table m.floors };

    ghost laws = { λ m. ped_laws m.floors m.low };

    fn colours(&self) -> u8 {
        4
    }

    fn letters(&self) -> u8 {
        4
    }

    fn step(&self, colour: u8, letter: u8) -> Option<u8> {
        match (letter, colour) {
            (BEGIN_WALK, _) => Some(WALK),
            (BEGIN_CLEARANCE, WALK) => Some(CLEARANCE),
            (BEGIN_DONT_WALK, _) => Some(DONT_WALK),
            (GO_DARK, _) => Some(DARK),
            _ => None,
        }
    }

    fn floor(&self, colour: u8) -> u32 {
        self.floors[colour as usize]
    }
}
