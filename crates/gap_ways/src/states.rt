// A state, and a letter of a gap.

use sig_base::Tenth;

/// A letter at a tenth of a gap.
#[derive(Clone, Copy, Debug, PartialEq, Eq)]
pub struct Fill {
    pub at: Tenth,
    pub letter: u8,
}

/// A state: a colour, and the tenth at which it was entered.
#[derive(Clone, Copy, Debug, PartialEq, Eq)]
pub struct Entered {
    pub colour: u8,
    pub entry: Tenth,
}
