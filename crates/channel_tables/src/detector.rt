// What is off, on or has a fault.
ghost use Rattle.std.specs.Prelude.{◌≡◌};

use colour_machine::Machine;

// The colours.
const OFF: u8 = 0;

const ON: u8 = 1;

const FAULT: u8 = 2;

// The letters before those of faults.
const TURN_OFF: u8 = 0;

const TURN_ON: u8 = 1;

const RESTORE: u8 = 2;

/// The machine of a detector, which has no floors. Colours: off 0, on 1, fault 2. Letters: the codes
/// 81 (off), 82 (on), 83 (restored) and 84 to 88 (faults), in this order. A row off or on ends a
/// fault, since it shows that the detector reports again.
#[derive(Clone, Copy, Debug)]
pub struct DetectorMachine {}

impl Machine for DetectorMachine {
    ghost use Rattle.std.specs.Prelude.{[]};
    ghost use Rattle.channel_tables.specs.Table.{table_rules};
    ghost use Rattle.channel_tables.specs.TableLaws.{detector_laws};
    ghost use Rattle.channel_tables.specs.DetectorTable.{detector_table};

    ghost rules = { λ m. table_rules detector_table [] };

    ghost laws = { λ m. detector_laws };

    fn colours(&self) -> u8 {
        3
    }

    fn letters(&self) -> u8 {
        8
    }

    fn step(&self, colour: u8, letter: u8) -> Option<u8> {
        match (letter, colour) {
            (TURN_OFF, _) => Some(OFF),
            (TURN_ON, _) => Some(ON),
            (RESTORE, ON) => Some(ON),
            (RESTORE, _) => Some(OFF),
            _ => Some(FAULT),
        }
    }

    fn floor(&self, _colour: u8) -> u32 {
        0
    }
}
