// The coordination.
ghost use Rattle.std.specs.Prelude.{◌≡◌};

use colour_machine::Machine;

/// The machine of the coordination, which has no floors. Colours: free 0, in step 1, transition add
/// 2, transition subtract 3, transition dwell 4, local zero 5, begin pickup 6. The letter is the
/// parameter of code 150, the colour that the coordination goes to.
#[derive(Clone, Copy, Debug)]
pub struct CoordMachine {}

impl Machine for CoordMachine {
    ghost use Rattle.std.specs.Prelude.{[]};
    ghost use Rattle.channel_tables.specs.Table.{table_rules};
    ghost use Rattle.channel_tables.specs.TableLaws.{coordination_laws};
    ghost use Rattle.channel_tables.specs.CoordinationTable.{coordination_table};

    ghost rules = { λ m. table_rules coordination_table [] };

    ghost laws = { λ m. coordination_laws };

    fn colours(&self) -> u8 {
        7
    }

    fn letters(&self) -> u8 {
        7
    }

    fn step(&self, _colour: u8, letter: u8) -> Option<u8> {
        Some(letter)
    }

    fn floor(&self, _colour: u8) -> u32 {
        0
    }
}
