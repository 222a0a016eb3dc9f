// A green of phase 2 with its yellow, and detector 5 at its stop bar.
use crate::given::{WHOLE, at_detector, row, told};
use ring_config::{Config, read_config};
use service_cut::{CutCarry, Cuts, Service, Termination, cut_hour};
use sig_base::{Frac, NoMemory, PhaseItem, Row};
use split_measures::{
    PhaseSum, SplitCarry, SplitSum, SplitSums, SplitVerdict, split_verdict, splits_hour,
    verdict_sum,
};
use std::alloc::Global;
use std::test::Fail;
use stop_bar::windows_hour;

const TEXT: &[u8] =
    b"signal = \"7\"\nstart = \"2024-03-04T06\"\nhours = 2\n[[phase]]\nnumber = 4\nring = 1\nside = 2\n[[phase]]\nnumber = 2\nring = 1\nside = 1\n";

// A green from tenth 1,000 up to 1,200.
fn cut(alloc: Global, phases: &[PhaseItem]) -> Result<Cuts, NoMemory> {
    let rows = [row(1_000, 1), row(1_200, 8), row(1_235, 9)];
    let mut carry = CutCarry::start(alloc, phases)?;
    cut_hour(alloc, phases, &mut carry, &rows, &WHOLE)
}

// The numbers of its hour.
fn summed(alloc: Global, config: &Config) -> Result<SplitSums, NoMemory> {
    let cuts = cut(alloc, config.phases())?;
    let mut carry = SplitCarry::start(alloc, config)?;
    splits_hour(alloc, config, &mut carry, &cuts, &[], 0)
}

// Phase 4, which has no service.
const NONE: PhaseSum = PhaseSum {
    services: 0,
    least: None,
    greatest: None,
    sum: 0,
    gap_out: 0,
    max_out: 0,
    force_off: 0,
    unlogged: 0,
    cycles: 0,
    cycle_sum: 0,
};

// Phase 2.
const ONE: PhaseSum = PhaseSum {
    services: 1,
    least: Some(235),
    greatest: Some(235),
    sum: 235,
    unlogged: 1,
    ..NONE
};

fn summed_hour(alloc: Global) -> Result<SplitSums, Fail> {
    let config = read_config(alloc, TEXT)?;
    let sums = summed(alloc, &config)?;
    Ok(sums)
}

#[test]
fn phases_by_number(rt: HostRuntime) -> Result<(), Fail> {
    let sums = summed_hour(rt.alloc())?;
    assert_eq!(rt; sums.phases(), [ONE, NONE].as_slice());
    Ok(())
}

// Four fifths of a green of 200 tenths are 160, of the red window 40.
#[test]
fn verdicts_by_four_numbers(rt: HostRuntime) {
    let high = Frac { num: 4, den: 5 };
    for (least, greatest, verdict) in [
        (160, 200, SplitVerdict::Fail),
        (159, 200, SplitVerdict::Undecided),
        (159, 159, SplitVerdict::Pass),
    ] {
        assert_eq!(rt; split_verdict(200, least, greatest, 40, 40, &high), verdict);
    }
}

const EMPTY: SplitSum = SplitSum {
    fail: 0,
    pass: 0,
    undecided: 0,
    left_open: 0,
    fault: 0,
};

// The verdict of a green from tenth 1,000 up to 1,200 with its end of yellow at 1,235, at a detector
// of which nothing is known before the rows.
fn verdict_of_rows(alloc: Global, rows: &[Row]) -> Result<SplitSum, NoMemory> {
    let told = told(alloc, rows, &WHOLE)?;
    let services = [Service {
        phase: 2,
        b: 1_000,
        g: 1_200,
        y: 1_200,
        r: 1_235,
        end: Termination::Unlogged,
    }];
    let over = windows_hour(alloc, None, &[], &services, &told, 0)?;
    Ok(verdict_sum(over.ended.as_slice(), &Frac { num: 4, den: 5 }))
}

// The fault goes on into the green.
#[test]
fn a_fault_in_the_green(rt: HostRuntime) -> Result<(), Fail> {
    let rows = [
        at_detector(900, 81),
        at_detector(950, 85),
        at_detector(1_040, 82),
        at_detector(1_275, 81),
    ];
    let wanted = SplitSum { fault: 1, ..EMPTY };
    assert_eq!(rt; verdict_of_rows(rt.alloc(), &rows)?, wanted);
    Ok(())
}

// The fault ends before the green, of which the detector is on 160 tenths, and 40 of the red window.
#[test]
fn a_fault_that_ends_before_the_green(rt: HostRuntime) -> Result<(), Fail> {
    let rows = [
        at_detector(900, 81),
        at_detector(950, 85),
        at_detector(960, 83),
        at_detector(1_040, 82),
        at_detector(1_275, 81),
    ];
    let wanted = SplitSum { fail: 1, ..EMPTY };
    assert_eq!(rt; verdict_of_rows(rt.alloc(), &rows)?, wanted);
    Ok(())
}
