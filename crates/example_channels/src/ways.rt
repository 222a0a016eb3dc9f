ghost use Rattle.std.specs.Prelude.{◌≡◌, pos};
ghost use Rattle.channel_path.specs.declared.moves.Move.TheVariants.{Letter};

use crate::ring::{GREEN, RED, Ring, YELLOW};
use channel_path::Move;
use channel_ways::{Passage, passage_source};
use colour_machine::Mask;
use gap_ways::{Entered, Fill};
use reach::{AgeBound, Ahead, Past, Test};
use std::test::Fail;

// Yellow, for at most so many tenths at 17.
fn yellow_for(most: u32) -> Test
    ensures { result.at ≡ pos 17 }
{
    Test {
        colours: Mask::none().with(YELLOW),
        bound: AgeBound::AtMost(most),
        at: 17,
    }
}

fn is_red(state: Option<Entered>) -> bool {
    match state {
        Some(state) => state.colour == RED,
        None => false,
    }
}

// Green is entered at the tenth, by the row.
fn green_at(at: u32, row: u32) -> Move
    ensures { result ≡ Letter at 1 row }
{
    Move::Letter {
        at,
        letter: GREEN,
        row,
    }
}

// Green is entered at 0 and at 30. So Yellow began in one of the first two gaps, at 14 at the
// latest, and Red at 20 or 21.
#[test]
fn fills_the_gaps_around_a_place(rt: HostRuntime) -> Result<(), Fail> {
    let alloc = rt.alloc();
    let left = [
        green_at(0, 0),
        Move::Gap { from: 10, to: 12 },
        Move::Gap { from: 14, to: 15 },
    ];
    let right = [Move::Gap { from: 20, to: 22 }, green_at(30, 1)];
    let before = Past::start(alloc, 3)?;
    let after = Ahead::end(3, 31);
    let passage = Passage {
        before: &before,
        left: left.as_slice(),
        right: right.as_slice(),
        after: &after,
    };
    let mut fills = Vec::new(alloc);
    let none = passage_source(alloc, &Ring, &passage, &yellow_for(2), true, &mut fills)?;
    assert_eq!(rt; none, None);
    let source = passage_source(alloc, &Ring, &passage, &yellow_for(3), true, &mut fills)?;
    assert!(rt; is_red(source));
    let [red, yellow] = fills.as_slice() else {
        return Err(Fail::from("fills"));
    };
    assert!(rt; red.letter == RED && (red.at == 20 || red.at == 21));
    assert_eq!(rt;
        *yellow,
        Fill {
            at: 14,
            letter: YELLOW
        }
    );
    Ok(())
}
