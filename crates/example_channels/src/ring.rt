ghost use Rattle.example_channels.specs.Ring.{ring, ring_laws};

use colour_machine::Machine;

/// Three colours in a ring: each is entered from the one before it, by the letter of its number,
/// five tenths or more after that one was entered.
pub struct Ring;

impl Machine for Ring {
    ghost rules = { λ m. ring };

    ghost laws = { λ m. ring_laws };

    fn colours(&self) -> u8 {
        3
    }

    fn letters(&self) -> u8 {
        3
    }

    fn step(&self, colour: u8, letter: u8) -> Option<u8> {
        let next = if colour < 2 { colour + 1 } else { 0 };
        if letter == next { Some(letter) } else { None }
    }

    fn floor(&self, _colour: u8) -> u32 {
        5
    }
}

pub const RED: u8 = 0;

pub const GREEN: u8 = 1;

pub const YELLOW: u8 = 2;
