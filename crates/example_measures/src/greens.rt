// Detector 5, on from tenth 35,990 up to 36,010, and greens of phase 2 about the point between two
// hours.
use crate::given::{WHOLE, at_detector, told};
use detector_state::OnTenths;
use gap_map::Stretch;
use service_cut::{Service, Termination};
use std::test::Fail;
use stop_bar::{OpenGreen, Windows, open_after, windows_hour};

// Its green and its red window are over in the first hour, before the detector is known.
const EARLY: Service = Service {
    phase: 2,
    b: 100,
    g: 200,
    y: 200,
    r: 235,
    end: Termination::Unlogged,
};

// Its red window ends in the second hour.
const WAITING: Service = Service {
    phase: 2,
    b: 35_900,
    g: 35_950,
    y: 35_950,
    r: 35_980,
    end: Termination::Unlogged,
};

// Its green ends in the second hour.
const LATE: Service = Service {
    phase: 2,
    b: 35_985,
    g: 36_005,
    y: 36_005,
    r: 36_040,
    end: Termination::Unlogged,
};

// The stretches of the second hour, known whole.
const SECOND: [Stretch; 1] = [Stretch {
    from: 36_000,
    to: 72_000,
    known: true,
}];

fn on(least: u32, greatest: u32) -> OnTenths {
    OnTenths {
        least,
        greatest,
        fault: false,
    }
}

#[test]
fn the_hour_before_a_point(rt: HostRuntime) -> Result<(), Fail> {
    let told = told(rt.alloc(), &[at_detector(35_990, 82)], &WHOLE)?;
    let services = [EARLY, WAITING];
    let over = windows_hour(rt.alloc(), None, &[], &services, &told, 0)?;
    let early = [Windows {
        service: EARLY,
        green: on(0, 100),
        red: on(0, 50),
    }];
    let waiting = [Windows {
        service: WAITING,
        green: on(0, 50),
        red: on(10, 20),
    }];
    let found = (over.ended.as_slice(), over.pending.as_slice());
    assert_eq!(rt; found, (early.as_slice(), waiting.as_slice()));
    Ok(())
}

#[test]
fn a_green_at_the_point(rt: HostRuntime) -> Result<(), Fail> {
    let told = told(rt.alloc(), &[at_detector(35_990, 82)], &WHOLE)?;
    let green = OpenGreen {
        b: 35_985,
        to: 36_000,
        tenths: on(10, 15),
    };
    assert_eq!(rt; open_after(&told, 0, None, 35_985, 36_000), green);
    Ok(())
}

#[test]
fn the_hour_after_it(rt: HostRuntime) -> Result<(), Fail> {
    let rows = [at_detector(36_000, 82), at_detector(36_010, 81)];
    let told = told(rt.alloc(), &rows, &SECOND)?;
    let begun = Some(OpenGreen {
        b: 35_985,
        to: 36_000,
        tenths: on(10, 15),
    });
    let pending = [Windows {
        service: WAITING,
        green: on(0, 50),
        red: on(10, 20),
    }];
    let over = windows_hour(rt.alloc(), begun, &pending, &[LATE], &told, 1)?;
    let ended = [
        Windows {
            service: WAITING,
            green: on(0, 50),
            red: on(20, 30),
        },
        Windows {
            service: LATE,
            green: on(15, 20),
            red: on(0, 0),
        },
    ];
    let found = (over.ended.as_slice(), over.pending.len());
    assert_eq!(rt; found, (ended.as_slice(), 0));
    Ok(())
}
