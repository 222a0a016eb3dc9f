// What the state of a channel is to be at a place.
use colour_machine::Mask;
use reach::AgeBound;

/// What the state of a channel at a place is to be.
#[derive(Clone, Copy, Debug, PartialEq, Eq)]
pub enum Keep {
    /// Not of the colour, or of an age that meets the bound.
    Interval(u8, AgeBound),
    /// Of one of the colours.
    Colours(Mask),
}
