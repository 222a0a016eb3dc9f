// What happens to one channel.
ghost use Rattle.channel_path.specs.Runs.{RunsAreMoves};

/// What happens to one channel.
#[derive(Clone, Copy, Debug, PartialEq, Eq)]
pub enum Move {
    /// At this tenth this letter of the channel's machine, by the row with this place in the hour.
    Letter { at: u32, letter: u8, row: u32 },
    /// Any legal letters at the tenths from the first up to but without the second.
    Gap { from: u32, to: u32 },
}

/// Gaps between two letters lead to what the holes of a run lead to. It does nothing.
pub fn runs_are_moves()
    ensures { RunsAreMoves }
{}
