// Detector 5 in an hour before which nothing is known of it.
use crate::given::{WHOLE, at_detector, told};
use detector_state::{Switched, greatest_on, least_on, sure_fault};
use gap_map::Stretch;
use std::test::Fail;

// It comes on at tenth 100.
#[test]
fn a_detector_that_comes_on(rt: HostRuntime) -> Result<(), Fail> {
    let told = told(rt.alloc(), &[at_detector(100, 82)], &WHOLE)?;
    let found = (least_on(&told, 0, 200), greatest_on(&told, 0, 200));
    assert_eq!(rt; found, (100, 200));
    Ok(())
}

const CUT: [Stretch; 3] = [
    Stretch {
        from: 0,
        to: 400,
        known: true,
    },
    Stretch {
        from: 400,
        to: 1_000,
        known: false,
    },
    Stretch {
        from: 1_000,
        to: 36_000,
        known: true,
    },
];

// Whether it is sure to have a fault before its row, at it, before it is restored and after.
fn faults(told: &Switched) -> [bool; 4] {
    [
        sure_fault(told, 0, 100),
        sure_fault(told, 0, 101),
        sure_fault(told, 199, 200),
        sure_fault(told, 200, 36_000),
    ]
}

// It has a fault from tenth 100 on, is restored at 200 and on at 300; a row 83 after unknown tenths
// leaves it off or on.
#[test]
fn a_detector_with_a_fault(rt: HostRuntime) -> Result<(), Fail> {
    let rows = [
        at_detector(100, 85),
        at_detector(200, 83),
        at_detector(300, 82),
        at_detector(1_000, 83),
    ];
    let told = told(rt.alloc(), &rows, &CUT)?;
    assert_eq!(rt; faults(&told), [false, true, true, false]);
    let found = (
        greatest_on(&told, 100, 300),
        least_on(&told, 200, 2_000),
        greatest_on(&told, 300, 2_000),
    );
    assert_eq!(rt; found, (0, 100, 1_700));
    Ok(())
}
