// What a machine of colours is.
ghost use Rattle.std.specs.Prelude.{◌≡◌, ◌<◌};
ghost use Rattle.colour_machine.specs.Rules.{Rules, IsMachine};

/// A machine of 1 to 16 colours, numbered from 0, and at most 32 letters, numbered from 0.
pub trait Machine {
    /// What the machine is.
    ghost rules: { Self → Rules };

    /// How many colours there are.
    fn colours(&self) -> u8
        ensures { result ≡ (rules self.now).colours };

    /// How many letters there are.
    fn letters(&self) -> u8
        ensures { result ≡ (rules self.now).letters };

    /// The colour that the letter leads to, or None where it isn't legal in the colour.
    fn step(&self, colour: u8, letter: u8) -> Option<u8>
        requires colour { colour < (rules self.now).colours }
        requires letter { letter < (rules self.now).letters }
        ensures { result ≡ (rules self.now).next colour letter };

    /// The least age, in tenths of a second, at which the colour may be left: at most an hour.
    fn floor(&self, colour: u8) -> u32
        requires { colour < (rules self.now).colours }
        ensures { result ≡ (rules self.now).floor colour };

    /// Every machine keeps the laws.
    ghost laws: { (m : Self) → IsMachine (rules m) };
}
