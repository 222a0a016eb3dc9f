// The tenths of an hour at whose end something holds, range by range.
ghost use Rattle.std.specs.Prelude.{◌≡◌, ◌<◌, ◌≤◌, ◌+◌, true, length};
ghost use Rattle.board.specs.Logs.{first_tenth};
ghost use Rattle.detector_state.specs.States.{IsAsked, IsCount, MeetsAt};
ghost use Rattle.detector_state.specs.Ranges.{Counts, IsQuietIn, begin_of as begins, end_of as ends};

use crate::state_asked::{Asked, holds};
use board::HourView;
use channel_path::Move;

// The tenth before which the move changes nothing.
fn begin_of(one: Move) -> u32
    ensures { result ≡ begins one }
{
    match one {
        Move::Letter {
            at,
            letter: _letter,
            row: _row,
        } => at,
        Move::Gap { from, to: _to } => from,
    }
}

// The tenth from which on the next moves count.
fn end_of(one: Move) -> u32
    ensures { result ≡ ends one }
{
    match one {
        Move::Letter {
            at,
            letter: _letter,
            row: _row,
        } => at,
        Move::Gap { from: _from, to } => to,
    }
}

// The tenths of a range without a change at whose end what is asked holds: all or none.
fn range(view: &HourView, spec: u16, asked: Asked, at: u32, to: u32) -> u32
    requires spec { spec < length view.now.specs }
    requires asked { IsAsked asked }
    ensures { first_tenth view.now.hour ≤ at → at ≤ to → to ≤ first_tenth view.now.hour + 36000
        → IsQuietIn view.now spec at to → Counts (MeetsAt view.now spec asked) at to result }
{
    if at >= to {
        return 0;
    }
    if holds(view, spec, at, asked) {
        return to - at;
    }
    0
}

/// Of the hour that begins with this tenth the known tenths at whose end what is asked holds.
pub fn tenths_of(view: &HourView, spec: u16, asked: Asked, from: u32) -> u32
    requires spec { spec < length view.now.specs }
    requires asked { IsAsked asked }
    ensures { from ≡ first_tenth view.now.hour → IsCount (MeetsAt view.now spec asked) from 36000
        result }
{
    let mut count: u32 = 0;
    let mut at = from;
    let moves = view.moves(spec);
    for one in moves {
        count = count.saturating_add(range(view, spec, asked, at, begin_of(*one)));
        at = end_of(*one);
    }
    count.saturating_add(range(view, spec, asked, at, from.saturating_add(36_000)))
}
