ghost use Rattle.std.specs.Prelude.{◌≡◌};

use crate::ring::{GREEN, RED, Ring, YELLOW};
use channel_path::{Move, Path, walk_past};
use colour_machine::Mask;
use reach::{AgeBound, Ahead, Past, Seen, Test, possible};
use std::test::Fail;

fn entered(at: u32, colour: u8) -> Move
    ensures { result ≡ Move.Letter at colour 0 }
{
    Move::Letter {
        at,
        letter: colour,
        row: 0,
    }
}

fn red() -> Mask {
    Mask::none().with(RED)
}

fn green() -> Mask {
    Mask::none().with(GREEN)
}

fn yellow() -> Mask {
    Mask::none().with(YELLOW)
}

fn seen(some_true: bool, some_false: bool) -> Seen {
    Seen {
        some_true,
        some_false,
    }
}

// Green at 0 and three gaps: Yellow may be entered at each of their tenths, and Red at those of the
// last gap. Green can't be entered at 24, since Red wasn't before 20.
#[test]
fn walks_over_three_gaps(rt: HostRuntime) -> Result<(), Fail> {
    let moves = [
        entered(0, GREEN),
        Move::Gap { from: 10, to: 12 },
        Move::Gap { from: 14, to: 15 },
        Move::Gap { from: 20, to: 22 },
        entered(24, GREEN),
    ];
    let mut past = Past::start(rt.alloc(), 3)?;
    assert_eq!(rt; walk_past(rt.alloc(), &Ring, &mut past, &moves)?, Some(4));
    let mut past = Past::start(rt.alloc(), 3)?;
    assert_eq!(rt; walk_past(rt.alloc(), &Ring, &mut past, &moves[..4])?, None);
    let all = Ahead::end(3, 25);
    for (colours, bound, met) in [
        (green(), AgeBound::AtLeast(24), seen(true, true)),
        (green(), AgeBound::AtMost(23), seen(false, true)),
        (yellow(), AgeBound::AtLeast(14), seen(true, true)),
        (yellow(), AgeBound::AtLeast(15), seen(false, true)),
        (yellow(), AgeBound::AtMost(2), seen(false, true)),
        (yellow(), AgeBound::AtMost(3), seen(true, true)),
        (red(), AgeBound::AtLeast(4), seen(true, true)),
        (red(), AgeBound::AtLeast(5), seen(false, true)),
    ] {
        let test = Test {
            colours,
            bound,
            at: 24,
        };
        assert_eq!(rt; possible(&past, &all, &test), met);
    }
    Ok(())
}

// The same gaps, and Green again at 30: so Red was entered at 20 or 21, Yellow in one of the first
// two gaps, and Green at 0 didn't last beyond them.
#[test]
fn sees_the_places_of_three_gaps(rt: HostRuntime) -> Result<(), Fail> {
    let moves = Vec::from_slice(
        rt.alloc(),
        &[
            entered(0, GREEN),
            Move::Gap { from: 10, to: 12 },
            Move::Gap { from: 14, to: 15 },
            Move::Gap { from: 20, to: 22 },
            entered(30, GREEN),
        ],
    )?;
    let before = Past::start(rt.alloc(), 3)?;
    let path = Path::new(rt.alloc(), &Ring, &before, moves, &Ahead::end(3, 31))?;
    assert_eq!(rt; path.moves().len(), 5);
    for (place, colours, bound, at, met) in [
        (1, green(), AgeBound::AtLeast(5), 5u32, seen(true, false)),
        (2, green(), AgeBound::AtLeast(13), 13, seen(true, true)),
        (2, yellow(), AgeBound::AtLeast(3), 13, seen(true, true)),
        (2, yellow(), AgeBound::AtLeast(4), 13, seen(false, true)),
        (3, yellow(), AgeBound::Any, 17, seen(true, false)),
        (3, yellow(), AgeBound::AtMost(3), 17, seen(true, true)),
        (3, yellow(), AgeBound::AtMost(2), 17, seen(false, true)),
        (4, red(), AgeBound::AtLeast(8), 29, seen(true, false)),
        (4, red(), AgeBound::AtLeast(9), 29, seen(true, true)),
        (4, red(), AgeBound::AtLeast(10), 29, seen(false, true)),
        (5, green(), AgeBound::AtMost(0), 30, seen(true, false)),
    ] {
        assert!(rt; place <= path.moves().len());
        let at = i64::from(at);
        let test = Test { colours, bound, at };
        assert_eq!(rt; path.seen(place, &test), met);
    }
    Ok(())
}
