// The states of a channel before the last moves of an hour, from two answers about those after it:
// the moves are walked back with both side by side until the two meet.
ghost use Rattle.std.specs.Prelude.{◌≡◌, IsTrue, IfSome, length};
ghost use Rattle.channel_tables.specs.Spec.{IsSpec, rules_of};
ghost use Rattle.channel_path.specs.Walks.{InOrder};
ghost use Rattle.board.specs.Places.{IsEndOf};
ghost use Rattle.board.specs.Hours.{AreAlike};

use channel_path::{Move, walk_ahead};
use channel_tables::{Spec, machine_of};
use gap_map::Stretch;
use reach::Ahead;

// So many tenths at the end of an hour are walked back with both.
const NEAR: u32 = 1_800;

/// The end of the last stretch, or all of it where it is shorter, if that stretch is known.
pub(crate) fn known_end(stretches: &[Stretch]) -> Option<Stretch>
    ensures { IfSome result (λ s. IsEndOf stretches.now s) }
{
    let last = stretches.last()?;
    if !last.known {
        return None;
    }
    Some(Stretch {
        from: last.from.max(last.to.saturating_sub(NEAR)),
        to: last.to,
        known: true,
    })
}

/// Whether on the way back over these moves both come to admit the same states.
pub(crate) fn meets(spec: &Spec, after: &Ahead, was_after: &Ahead, moves: &[Move]) -> bool
    requires fits { IsSpec spec.now }
    requires order { InOrder (rules_of spec.now) 0 moves.now }
    requires colours { length after.now ≡ (rules_of spec.now).colours }
    requires was_colours { length was_after.now ≡ (rules_of spec.now).colours }
    ensures { IsTrue result → AreAlike (rules_of spec.now) after.now was_after.now moves.now }
{
    let machine = machine_of(spec);
    let mut now = after.copy();
    let mut was = was_after.copy();
    let mut place = moves.len();
    while place > 0 && !now.same(&was) {
        walk_ahead(&machine, &mut now, &moves[place - 1..place]);
        walk_ahead(&machine, &mut was, &moves[place - 1..place]);
        place -= 1;
    }
    now.same(&was)
}
