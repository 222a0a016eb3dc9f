// What an interval rule asks of lost rows.
use reach::AgeBound;

/// What is asked of the rows that were lost before a line: each that leaves the colour leaves it at
/// an age that meets the bound. With a bound that any age meets nothing is asked.
#[derive(Clone, Copy, Debug, PartialEq, Eq)]
pub struct Asked {
    pub colour: u8,
    pub bound: AgeBound,
}
