// A phase.
ghost use Rattle.std.specs.Prelude.{◌≡◌};
ghost use Rattle.channel_tables.specs.Table.{AreFloors};

use colour_machine::Machine;

// The colours.
const RED: u8 = 0;

const ON: u8 = 1;

const GREEN: u8 = 2;

const TERM: u8 = 3;

const YELLOW: u8 = 4;

const YELLOW_DONE: u8 = 5;

const CLEAR: u8 = 6;

const CLEAR_DONE: u8 = 7;

// The letters.
const PHASE_ON: u8 = 0;

const BEGIN_GREEN: u8 = 1;

const GREEN_TERMINATION: u8 = 2;

const BEGIN_YELLOW: u8 = 3;

const END_YELLOW: u8 = 4;

const BEGIN_CLEARANCE: u8 = 5;

const END_CLEARANCE: u8 = 6;

const INACTIVE: u8 = 7;

/// The machine of a phase. Colours: red 0, on 1, green 2, terminated 3, yellow 4, yellow done 5,
/// red clearance 6, clearance done 7. Letters: the codes 0, 1, 7, 8, 9, 10, 11, 12 in this order.
#[derive(Clone, Copy, Debug)]
pub struct PhaseMachine {
    /// For each colour the least age, in tenths of a second, at which it may be left.
    pub floors: [u32; 16],
    ghost low: { AreFloors floors },
}

impl PhaseMachine {
    /// The machine with these floors.
    pub fn new(floors: [u32; 16]) -> PhaseMachine
        requires { AreFloors floors }
        ensures { result.floors ≡ floors }
    {
        PhaseMachine { floors }
    }
}

impl Machine for PhaseMachine {
    ghost use Rattle.channel_tables.specs.Table.{table_rules};
    ghost use Rattle.channel_tables.specs.TableLaws.{phase_laws};
    ghost use Rattle.channel_tables.specs.PhaseTable.{phase_table};

    ghost rules = { λ m. table_rules phase_table m.floors };

    ghost laws = { λ m. phase_laws m.floors m.low };

    fn colours(&self) -> u8 {
        8
    }

    fn letters(&self) -> u8 {
        8
    }

    fn step(&self, colour: u8, letter: u8) -> Option<u8> {
        match (letter, colour) {
            (PHASE_ON, RED | YELLOW_DONE | CLEAR_DONE) => Some(ON),
            (PHASE_ON, GREEN) => Some(GREEN),
            (BEGIN_GREEN, RED | ON | TERM | YELLOW_DONE | CLEAR_DONE) => Some(GREEN),
            (GREEN_TERMINATION, GREEN) => Some(TERM),
            (GREEN_TERMINATION, YELLOW) => Some(YELLOW),
            (BEGIN_YELLOW, GREEN | TERM) => Some(YELLOW),
            (END_YELLOW, YELLOW) => Some(YELLOW_DONE),
            (END_YELLOW, CLEAR) => Some(CLEAR),
            (BEGIN_CLEARANCE, YELLOW | YELLOW_DONE) => Some(CLEAR),
            (END_CLEARANCE, CLEAR) => Some(CLEAR_DONE),
            (END_CLEARANCE, RED) => Some(RED),
            (INACTIVE, RED | TERM | YELLOW_DONE | CLEAR | CLEAR_DONE) => Some(RED),
            _ => None,
        }
    }

    fn floor(&self, colour: u8) -> u32 {
        self.floors[colour as usize]
    }
}
