// What is only off or on.
ghost use Rattle.std.specs.Prelude.{◌≡◌};

use colour_machine::Machine;

/// The machine of a pedestrian detector or a preempt input, which has no floors.
/// Colours: off 0, on 1. Letters: off 0 (codes 89, 104), on 1 (codes 90, 102).
#[derive(Clone, Copy, Debug)]
pub struct SwitchMachine {}

impl Machine for SwitchMachine {
    ghost use Rattle.std.specs.Prelude.{[]};
    ghost use Rattle.channel_tables.specs.Table.{table_rules};
    ghost use Rattle.channel_tables.specs.TableLaws.{switch_laws};
    ghost use Rattle.channel_tables.specs.SwitchTables.{ped_detector_table};

    ghost rules = { λ m. table_rules ped_detector_table [] };

    ghost laws = { λ m. switch_laws };

    fn colours(&self) -> u8 {
        2
    }

    fn letters(&self) -> u8 {
        2
    }

    fn step(&self, _colour: u8, letter: u8) -> Option<u8> {
        Some(letter)
    }

    fn floor(&self, _colour: u8) -> u32 {
        0
    }
}
