// Sets of colours.
ghost use Rattle.std.specs.Prelude.{◌≡◌, ℕ, ◌<◌, ◌⊎◌, ◌↔◌, IsTrue};
ghost use Rattle.colour_machine.specs.Mask.{Has};

use std::marker::Model;

/// A set of colours from 0 to 15.
#[derive(Clone, Copy, Debug, PartialEq, Eq)]
pub struct Mask {
    bits: u16,
}

impl Model for Mask {
    ghost Value = { ℕ };

    ghost view = { λ m. m.bits };

    ghost inverse = { λ n. record { bits = n } };
}

impl Mask {
    /// The set of no colours.
    pub fn none() -> Mask
        ensures { (c : ℕ) → Has result c → ⊥ }
    {
        Mask { bits: 0 }
    }

    /// The set of all sixteen colours.
    pub fn all() -> Mask
        ensures { (c : ℕ) → Has result c ↔ (c < 16) }
    {
        Mask { bits: u16::MAX }
    }

    /// The set with one colour more.
    pub fn with(self, colour: u8) -> Mask
        requires { colour < 16 }
        ensures { (c : ℕ) → Has result c ↔ (Has self c ⊎ (c ≡ colour)) }
    {
        Mask {
            bits: self.bits | 1 << colour,
        }
    }

    /// Whether the colour is in the set.
    pub fn has(self, colour: u8) -> bool
        requires { colour < 16 }
        ensures { IsTrue result ↔ Has self colour }
    {
        self.bits & 1 << colour != 0
    }
}
