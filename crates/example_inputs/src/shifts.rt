ghost use Rattle.std.specs.Prelude.{All};
ghost use Rattle.offset_search.specs.Shifted.{IsInCycle};

use offset_search::{Arrival, shift_counts};
use std::alloc::Global;

// How many meet green by shift, and the best shift.
fn finds(alloc: Global, arrivals: &[Arrival], counts: &[u64], best: Option<(u32, u64)>) -> bool
    requires { All IsInCycle arrivals.now }
{
    let Ok(shifts) = shift_counts(alloc, arrivals) else {
        return false;
    };
    shifts.counts() == counts && shifts.best() == best
}

// The tenths at which each vehicle comes, shift by shift:
//     long    55   3  13  23  33  43  53     green from 10 to 30
//     middle   4  14  24   9  19   4  14     green from 0 to 12
//     short    6   2   5   1   4   0   3     green from 2 to 5
#[test]
fn counts_and_best(rt: HostRuntime) {
    let long = Arrival {
        length: 62,
        green: 10,
        yellow: 30,
        offset: 55,
    };
    let middle = Arrival {
        length: 25,
        green: 0,
        yellow: 12,
        offset: 4,
    };
    let short = Arrival {
        length: 7,
        green: 2,
        yellow: 5,
        offset: 6,
    };
    let even = Arrival {
        length: 40,
        green: 10,
        yellow: 30,
        offset: 0,
    };
    let red = Arrival {
        length: 20,
        green: 5,
        yellow: 5,
        offset: 5,
    };
    let alloc = rt.alloc();
    assert!(rt; finds(alloc, &[], &[], None));
    assert!(rt;
        finds(
            alloc,
            &[long, middle, short],
            &[1, 1, 1, 2, 1, 1, 1],
            Some((3, 2)),
        )
    );
    assert!(rt; finds(alloc, &[even], &[0, 1, 1, 0], Some((1, 1))));
    assert!(rt; finds(alloc, &[red], &[0, 0], Some((0, 0))));
}
