// Channels that have what the one before them has.
ghost use Rattle.std.specs.Prelude.{◌≡◌, ◌<◌, ◌≤◌, IsTrue, length};
ghost use Rattle.board.specs.Repeats.{Repeats};

use crate::courses::Course;
use channel_path::Move;
use channel_tables::{Spec, same_machine};

/// Whether the channel with this place has the machine and the moves of the one before it. Of more
/// than one move it never says so.
pub fn repeats(specs: &[Spec], list: &[Course], place: usize) -> bool
    requires within { place < length specs.now }
    requires same { length list.now ≡ length specs.now }
    ensures later { IsTrue result → 1 ≤ place }
    ensures repeats { IsTrue result → Repeats specs.now list.now place }
{
    if place == 0 {
        return false;
    }
    let last = place - 1;
    same_moves(list[last].moves(), list[place].moves()) && same_machine(&specs[last], &specs[place])
}

// Whether both are no moves, or the same gap: a letter belongs to one channel alone.
fn same_moves(a: &[Move], b: &[Move]) -> bool
    ensures { IsTrue result → a.now ≡ b.now }
{
    if a.is_empty() && b.is_empty() {
        return true;
    }
    a.len() == 1 && b.len() == 1 && same_gap(a[0], b[0])
}

// Whether both are the same gap.
fn same_gap(a: Move, b: Move) -> bool
    ensures { IsTrue result → a ≡ b }
{
    match (a, b) {
        (
            Move::Gap { from, to },
            Move::Gap {
                from: other_from,
                to: other_to,
            },
        ) => from == other_from && to == other_to,
        _ => false,
    }
}
