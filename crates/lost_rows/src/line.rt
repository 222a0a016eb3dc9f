// A line of one channel, and how many lost rows would explain it.
ghost use Rattle.std.specs.Prelude.{◌≡◌};
ghost use Rattle.lost_rows.specs.Decisions.{asked_by};

use crate::asked::Asked;
use colour_machine::Mask;
use reach::AgeBound;

/// What keeps a line's rule in a state of its channel.
#[derive(Clone, Copy, Debug, PartialEq, Eq)]
pub enum LineRule {
    /// Of an interval: every other colour, and its own at an age that meets the bound. The rows that
    /// were lost before the line keep it too.
    Interval(Asked),
    /// Of a clause's term: one of these colours. Nothing is asked of lost rows.
    Term(Mask),
}

/// A rule, and the tenths over which its channel is walked: from the first up to but without the
/// second.
#[derive(Clone, Copy, Debug, PartialEq, Eq)]
pub struct RuleWalk {
    pub rule: LineRule,
    pub from: u32,
    pub to: u32,
}

/// Where a line of a channel stands: after so many of its moves, at this tenth, which is that of the
/// row before which it stands or the one at whose end it does.
#[derive(Clone, Copy, Debug, PartialEq, Eq)]
pub struct LinePlace {
    pub moves: usize,
    pub at: u32,
}

/// How many rows would have to be lost.
#[derive(Clone, Copy, Debug, PartialEq, Eq)]
pub enum Lost {
    /// So many, and none fewer: at most three.
    Needs(u8),
    /// More than three, or no number at all.
    Sturdy,
}

impl LineRule {
    /// What the rule asks of rows that were lost before the line.
    pub fn asked(&self) -> Asked
        ensures { result ≡ asked_by self.now }
    {
        match *self {
            LineRule::Interval(asked) => asked,
            LineRule::Term(_) => Asked {
                colour: 0,
                bound: AgeBound::Any,
            },
        }
    }
}
