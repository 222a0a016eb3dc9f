// Phase 2 and detector 5 about the end of an hour: the detector is on from tenth 35,850 on, and
// nothing is known of it before.
use crate::given::{WHOLE, at_detector, row, told};
use detector_state::OnTenths;
use service_cut::{CutCarry, Cuts, cut_hour};
use sig_base::{NoMemory, PhaseItem, Row};
use std::alloc::Global;
use std::test::Fail;
use stop_bar::{AtBar, OverBar, bar_hour};

const PHASES: [PhaseItem; 1] = [PhaseItem {
    number: 2,
    ring: 1,
    side: 1,
}];

fn on(least: u32, greatest: u32) -> OnTenths {
    OnTenths {
        least,
        greatest,
        fault: false,
    }
}

// One green is over with its red window, one is on at the hour's end.
fn two_greens() -> [Row; 6] {
    [
        row(35_800, 1),
        at_detector(35_850, 82),
        row(35_900, 7),
        row(35_900, 8),
        row(35_940, 9),
        row(35_995, 1),
    ]
}

fn cut(alloc: Global, rows: &[Row]) -> Result<Cuts, NoMemory> {
    let mut carry = CutCarry::start(alloc, &PHASES)?;
    cut_hour(alloc, &PHASES, &mut carry, rows, &WHOLE)
}

fn over(alloc: Global) -> Result<OverBar, NoMemory> {
    let rows = two_greens();
    let told = told(alloc, &rows, &WHOLE)?;
    let cuts = cut(alloc, &rows)?;
    bar_hour(alloc, 2, &AtBar::start(alloc), &cuts, &told, 0)
}

#[test]
fn an_hour_of_two_greens(rt: HostRuntime) -> Result<(), Fail> {
    let over = over(rt.alloc())?;
    let [ended] = over.ended.as_slice() else {
        return Err(Fail::from("one green"));
    };
    let found = (ended.green, ended.red, over.after.pending().len());
    assert_eq!(rt; found, (on(50, 100), on(50, 50), 0));
    Ok(())
}

// Whether it is the same as its copy, and as a start.
fn alike(after: &AtBar, start: &AtBar) -> Result<(bool, bool), NoMemory> {
    Ok((after.same(&after.copy()?), after.same(start)))
}

#[test]
fn what_crosses_the_point(rt: HostRuntime) -> Result<(), Fail> {
    let over = over(rt.alloc())?;
    let start = AtBar::start(rt.alloc());
    assert_eq!(rt; alike(&over.after, &start)?, (true, false));
    Ok(())
}
