// Small hours of one phase.
ghost use Rattle.std.specs.Prelude.{◌<◌};

use crate::given::row;
use gap_map::Stretch;
use service_cut::{CutCarry, Cuts, Cycle, Service, Termination, cut_hour};
use sig_base::{NoMemory, PhaseItem, Row};
use std::alloc::Global;
use std::test::Fail;

const PHASES: [PhaseItem; 1] = [PhaseItem {
    number: 2,
    ring: 1,
    side: 1,
}];

// A held hour without a gap.
fn known(alloc: Global, carry: &mut CutCarry, hour: u32, rows: &[Row]) -> Result<Cuts, NoMemory>
    requires { hour < 744 }
{
    let from = 36_000 * hour;
    let stretches = [Stretch {
        from,
        to: from + 36_000,
        known: true,
    }];
    cut_hour(alloc, &PHASES, carry, rows, &stretches)
}

// The green begins in hour 0.
fn begun(alloc: Global, carry: &mut CutCarry) -> Result<(usize, usize), NoMemory> {
    let cuts = known(alloc, carry, 0, &[row(35_900, 1)])?;
    Ok((cuts.services().len(), cuts.open_services().len()))
}

// The yellow ends in hour 1.
fn ended(alloc: Global, carry: &mut CutCarry) -> Result<Cuts, NoMemory> {
    known(alloc, carry, 1, &[row(36_100, 8), row(36_135, 9)])
}

fn service(b: u32, g: u32, r: u32, end: Termination) -> Service {
    Service {
        phase: 2,
        b,
        g,
        y: g,
        r,
        end,
    }
}

#[test]
fn a_service_across_a_point(rt: HostRuntime) -> Result<(), Fail> {
    let mut carry = CutCarry::start(rt.alloc(), &PHASES)?;
    assert_eq!(rt; begun(rt.alloc(), &mut carry)?, (0, 1));
    let cuts = ended(rt.alloc(), &mut carry)?;
    let whole = [service(35_900, 36_100, 36_135, Termination::Unlogged)];
    let open = (cuts.open_services().len(), cuts.open_cycles().len());
    assert_eq!(rt; (cuts.services(), open), (whole.as_slice(), (0, 1)));
    Ok(())
}

// Whether a copy is the same, before the hour after it and then.
fn alike(alloc: Global, carry: &mut CutCarry) -> Result<(bool, bool), NoMemory> {
    let copy = carry.copy()?;
    let before = copy.same(carry);
    ended(alloc, carry)?;
    Ok((before, copy.same(carry)))
}

#[test]
fn what_crosses_the_point(rt: HostRuntime) -> Result<(), Fail> {
    let mut carry = CutCarry::start(rt.alloc(), &PHASES)?;
    assert_eq!(rt; alike(rt.alloc(), &mut carry)?, (true, false));
    Ok(())
}

// The first hour with these rows.
fn first(alloc: Global, rows: &[Row]) -> Result<Cuts, NoMemory> {
    let mut carry = CutCarry::start(alloc, &PHASES)?;
    known(alloc, &mut carry, 0, rows)
}

// Rows of one tenth, in their order.
#[test]
fn rows_of_one_tenth(rt: HostRuntime) -> Result<(), Fail> {
    let rows = [
        row(10, 8),
        row(20, 9),
        row(20, 1),
        row(20, 8),
        row(20, 9),
        row(20, 10),
    ];
    let cycle = [Cycle {
        phase: 2,
        from: 20,
        to: 20,
        green: 0,
        yellow: 0,
    }];
    assert_eq!(rt; first(rt.alloc(), &rows)?.cycles(), cycle.as_slice());
    Ok(())
}

// A row that says why the green ended stands after the service, within its tenth.
#[test]
fn the_termination_comes_last(rt: HostRuntime) -> Result<(), Fail> {
    let rows = [row(10, 1), row(10, 8), row(10, 9), row(10, 5), row(11, 6)];
    let whole = [service(10, 10, 10, Termination::MaxOut)];
    assert_eq!(rt; first(rt.alloc(), &rows)?.services(), whole.as_slice());
    Ok(())
}

// The green begins twice before it ends in yellow; the second begin counts.
#[test]
fn the_last_begin_of_green(rt: HostRuntime) -> Result<(), Fail> {
    let rows = [
        row(10, 1),
        row(20, 7),
        row(30, 1),
        row(40, 4),
        row(50, 8),
        row(60, 9),
    ];
    let whole = [service(30, 50, 60, Termination::GapOut)];
    assert_eq!(rt; first(rt.alloc(), &rows)?.services(), whole.as_slice());
    Ok(())
}
