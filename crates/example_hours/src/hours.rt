// The examples.
ghost use Rattle.hour_work.specs.Points.{IsCarryAt};
ghost use Rattle.example_hours.specs.Window.{IsWindowOfTwo};

use crate::given::{
    AGAINST, CONFIG, LATE_NEWS, Log, Mark, NO_NEWS, SERVICES, is_window_of_two, store_of,
};
use crate::points::{carried, future_at_end, future_between, reaches_end};
use crate::wanted::{Wanted, are_wanted};
use arrival_measures::{ArrivalSum, Point};
use hour_store::HourStore;
use hour_work::{Between, Carry, ForwardError, RuleCount};
use ring_config::{Config, read_config};
use rule_audit::{AuditLine, Place};
use service_cut::Cycle;
use sig_base::{Reads, Row, Verdict};
use split_measures::PhaseSum;
use std::alloc::Global;
use std::test::Fail;

// Whether the first hour is as wanted.
fn first_hour(
    alloc: Global,
    config: &Config,
    store: &HourStore<Mark>,
    wanted: &Wanted<'_>,
) -> Result<[bool; 5], Fail>
    requires { IsWindowOfTwo config.now store.now }
{
    let mut reads = Reads::new(Mark);
    let before = Carry::start(alloc, config)?;
    let middle = carried(alloc, config, store, 0, &before, &mut reads)?;
    reaches_end(alloc, config, store, &middle, &mut reads)?;
    let after = future_between(alloc, config, store, &mut reads)?;
    let between = Between {
        before: &before,
        after: &after,
    };
    are_wanted(alloc, config, store, 0, &between, wanted)
}

// Whether the second hour is as wanted, from what is kept at the point before it.
fn hour_after(
    alloc: Global,
    config: &Config,
    store: &HourStore<Mark>,
    before: &Carry,
    wanted: &Wanted<'_>,
    reads: &mut Reads<Mark>,
) -> Result<[bool; 5], Fail>
    requires window { IsWindowOfTwo config.now store.now }
    requires before { IsCarryAt config.now store.now 1 before.now }
{
    reaches_end(alloc, config, store, before, reads)?;
    let after = future_at_end(alloc, config, store)?;
    let between = Between {
        before,
        after: &after,
    };
    are_wanted(alloc, config, store, 1, &between, wanted)
}

// The same from the window's start on.
fn second_hour(
    alloc: Global,
    config: &Config,
    store: &HourStore<Mark>,
    wanted: &Wanted<'_>,
) -> Result<[bool; 5], Fail>
    requires { IsWindowOfTwo config.now store.now }
{
    let mut reads = Reads::new(Mark);
    let start = Carry::start(alloc, config)?;
    let before = carried(alloc, config, store, 0, &start, &mut reads)?;
    hour_after(alloc, config, store, &before, wanted, &mut reads)
}

#[derive(Clone, Copy)]
enum Which {
    First,
    Second,
}

// Whether the numbers, the lines, the window, the cycles and the points of one of the hours of a log
// are as wanted.
fn right(alloc: Global, log: Log, which: Which, wanted: &Wanted<'_>) -> Result<[bool; 5], Fail> {
    let config = read_config(alloc, CONFIG.as_bytes())?;
    let store = store_of(alloc, log)?;
    if !is_window_of_two(&config, &store) {
        return Err(Fail::from("hours"));
    }
    match which {
        Which::First => first_hour(alloc, &config, &store, wanted),
        Which::Second => second_hour(alloc, &config, &store, wanted),
    }
}

const ALL: [bool; 5] = [true; 5];

const NO_COUNT: RuleCount = RuleCount {
    kept: 0,
    broken: 0,
    undecided: 0,
};

const NO_SERVICE: PhaseSum = PhaseSum {
    services: 0,
    least: None,
    greatest: None,
    sum: 0,
    gap_out: 0,
    max_out: 0,
    force_off: 0,
    unlogged: 0,
    cycles: 0,
    cycle_sum: 0,
};

const NO_ARRIVAL: ArrivalSum = ArrivalSum {
    arrivals: 0,
    green: 0,
    not_green: 0,
    undecided: 0,
    unseen: 0,
    fault: 0,
    cycle_arrivals: 0,
    cycle_green: 0,
    green_tenths: 0,
    cycle_tenths: 0,
    actuations: 0,
    red: 0,
    not_red: 0,
    red_undecided: 0,
    red_fault: 0,
};

// The line of a rule before a row.
fn line(rule: u16, at: u32, row: u32, verdict: Verdict) -> AuditLine {
    AuditLine {
        rule,
        at,
        place: Place::BeforeRow(row),
        verdict,
        window: None,
    }
}

// The counts of a rule that is undecided nowhere.
fn count(kept: u64, broken: u64) -> RuleCount {
    RuleCount {
        kept,
        broken,
        ..NO_COUNT
    }
}

// A cycle of the one phase; green and yellow begin so long after its begin.
fn cycle(from: u32, to: u32, green: u32, yellow: u32) -> Cycle {
    Cycle {
        phase: 2,
        from,
        to,
        green,
        yellow,
    }
}

// An arrival of the one approach.
fn point(offset: u32) -> Point {
    Point {
        approach: 0,
        offset,
    }
}

// 14 rows are held, the one in the ten blanked tenths too. The yellows end at 335, 735 and 1129 after
// 35, 35 and 29 tenths; each is judged before the row that ends it, and the last one is a tenth too
// short. The services are 335 - 100, 735 - 480 and 1129 - 905 tenths long, the second gapped out. The
// cycles go from one end of yellow to the next; their greens begin at 480 and 905, their yellows at
// 700 and 1100.
//
// The vehicles come to the stop bar two seconds after the rows at 560, 800 and 35,990, the last one in
// the second hour. The one at 580 meets the green from 480 up to 700, the one at 820 comes after the
// yellow's end at 735. Green in the cycles are these 220 tenths and the 195 from 905 up to 1100.
//
// Up to its own tenth, 1129, the log says that the last yellow began at 1100, and so it does from 1100
// on; with 1129 alone known the yellow may be as old as one likes.
#[test]
fn services_of_the_first_hour(rt: HostRuntime) -> Result<(), Fail> {
    let wanted = Wanted {
        held: [1, 14, 35_990],
        rules: &[count(2, 1), count(3, 0)],
        phases: &[PhaseSum {
            services: 3,
            least: Some(224),
            greatest: Some(255),
            sum: 714,
            gap_out: 1,
            unlogged: 2,
            cycles: 2,
            cycle_sum: 794,
            ..NO_SERVICE
        }],
        approaches: &[ArrivalSum {
            arrivals: 2,
            green: 1,
            not_green: 1,
            cycle_arrivals: 2,
            cycle_green: 1,
            green_tenths: 415,
            cycle_tenths: 794,
            ..NO_ARRIVAL
        }],
        lines: &[
            line(1, 335, 3, Verdict::Kept),
            line(2, 335, 3, Verdict::Kept),
            line(1, 735, 8, Verdict::Kept),
            line(2, 735, 8, Verdict::Kept),
            line(1, 1129, 12, Verdict::Broken),
            line(2, 1129, 12, Verdict::Kept),
        ],
        window: Some((1100, 1129)),
        cycles: &[cycle(335, 735, 145, 365), cycle(735, 1129, 170, 365)],
        points: &[point(580), point(820), point(36_010)],
    };
    assert_eq!(rt; right(rt.alloc(), SERVICES, Which::First, &wanted)?, ALL);
    Ok(())
}

// What goes over the point between the hours: the cycle since 1129, and the vehicle that comes at
// 36,010, when the yellow is over and no green has begun. The cycle is 36,335 - 1129 tenths long and
// green from 36,100 up to 36,300. No row of this hour is of the detector, and no line is broken.
#[test]
fn services_of_the_second_hour(rt: HostRuntime) -> Result<(), Fail> {
    let kept = count(1, 0);
    let wanted = Wanted {
        held: [1, 3, 36_000],
        rules: &[kept, kept],
        phases: &[PhaseSum {
            services: 1,
            least: Some(235),
            greatest: Some(235),
            sum: 235,
            unlogged: 1,
            cycles: 1,
            cycle_sum: 35_206,
            ..NO_SERVICE
        }],
        approaches: &[ArrivalSum {
            arrivals: 1,
            not_green: 1,
            cycle_arrivals: 1,
            green_tenths: 200,
            cycle_tenths: 35_206,
            ..NO_ARRIVAL
        }],
        lines: &[
            line(1, 36_335, 2, Verdict::Kept),
            line(2, 36_335, 2, Verdict::Kept),
        ],
        window: None,
        cycles: &[cycle(1129, 36_335, 34_971, 35_171)],
        points: &[],
    };
    assert_eq!(rt; right(rt.alloc(), SERVICES, Which::Second, &wanted)?, ALL);
    Ok(())
}

// The first hour of a log with one row in it, at which the first rule is kept.
fn one_row<'a>(
    rules: &'a [RuleCount],
    lines: &'a [AuditLine],
    window: Option<(u32, u32)>,
) -> Wanted<'a> {
    Wanted {
        held: [1, 1, 35_990],
        rules,
        phases: &[NO_SERVICE],
        approaches: &[NO_ARRIVAL],
        lines,
        window,
        cycles: &[],
        points: &[],
    }
}

// The yellow that the row at 100 ends began before the window, or in the blanked tenths: at 19 at
// the latest, so that it lasted 81 tenths or more. Up to 100 the row may as well be of a red clearance;
// up to the green at 36,010 it can't. From 100 on the yellow may have begun at 99: all from tenth 0 on
// is needed.
#[test]
fn the_second_hour_tells_of_the_first(rt: HostRuntime) -> Result<(), Fail> {
    let rules = [count(1, 0), count(0, 1)];
    let lines = [
        line(1, 100, 0, Verdict::Kept),
        line(2, 100, 0, Verdict::Broken),
    ];
    let wanted = one_row(&rules, &lines, Some((0, 36_010)));
    assert_eq!(rt; right(rt.alloc(), LATE_NEWS, Which::First, &wanted)?, ALL);
    Ok(())
}

// Without the second hour the row may be of a red clearance, in which there is nothing to break.
#[test]
fn without_the_second_hour_it_is_open(rt: HostRuntime) -> Result<(), Fail> {
    let rules = [
        count(1, 0),
        RuleCount {
            undecided: 1,
            ..NO_COUNT
        },
    ];
    let lines = [
        line(1, 100, 0, Verdict::Kept),
        line(2, 100, 0, Verdict::Undecided),
    ];
    let wanted = one_row(&rules, &lines, None);
    assert_eq!(rt; right(rt.alloc(), NO_NEWS, Which::First, &wanted)?, ALL);
    Ok(())
}

// Of an hour that isn't held there is nothing to say.
#[test]
fn an_hour_that_is_not_held(rt: HostRuntime) -> Result<(), Fail> {
    let wanted = Wanted {
        held: [0, 0, 0],
        rules: &[NO_COUNT, NO_COUNT],
        phases: &[NO_SERVICE],
        approaches: &[NO_ARRIVAL],
        lines: &[],
        window: None,
        cycles: &[],
        points: &[],
    };
    assert_eq!(rt; right(rt.alloc(), NO_NEWS, Which::Second, &wanted)?, ALL);
    Ok(())
}

// Over both hours.
fn over_both(alloc: Global, config: &Config, store: &HourStore<Mark>) -> Result<(), ForwardError>
    requires { IsWindowOfTwo config.now store.now }
{
    let mut reads = Reads::new(Mark);
    let start = Carry::start(alloc, config)?;
    let middle = carried(alloc, config, store, 0, &start, &mut reads)?;
    reaches_end(alloc, config, store, &middle, &mut reads)
}

// What comes of going over both hours of a log.
fn gone_over(alloc: Global, log: Log) -> Result<Result<(), ForwardError>, Fail> {
    let config = read_config(alloc, CONFIG.as_bytes())?;
    let store = store_of(alloc, log)?;
    if !is_window_of_two(&config, &store) {
        return Err(Fail::from("hours"));
    }
    Ok(over_both(alloc, &config, &store))
}

// The first hour says that the phase is red at the point between them.
#[test]
fn the_second_hour_contradicts_the_first(rt: HostRuntime) -> Result<(), Fail> {
    let yellow = Row {
        at: 36_200,
        code: 8,
        param: 2,
    };
    let contradiction = Err(ForwardError::Contradiction(yellow));
    assert_eq!(rt; gone_over(rt.alloc(), AGAINST)?, contradiction);
    Ok(())
}
