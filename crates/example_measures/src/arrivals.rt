// The numbers of a small hour of one approach.
ghost use Rattle.std.specs.Prelude.{◌≡◌, length, IfOk};
ghost use Rattle.gap_map.specs.Stretches.{FollowOn};
ghost use Rattle.sig_base.specs.HourRows.{AreRowsOf};

use crate::given::{WHOLE, free};
use arrival_measures::{ArrivalCarry, ArrivalSum, ArrivalSums, arrivals_hour};
use board::{Aheads, HourView, Pasts};
use event_codes::Kind;
use gap_map::Stretch;
use ring_config::{Config, read_config};
use service_cut::{CutCarry, Cuts, cut_hour};
use sig_base::Row;
use std::alloc::Global;
use std::test::Fail;

const BOTH: &[u8] =
    b"signal = \"7\"\nstart = \"2024-03-04T06\"\nhours = 1\n[[phase]]\nnumber = 2\nring = 1\nside = 1\n[[approach]]\nname = \"NB\"\nphase = 2\nadvance = 5\nstop_bar = 5\n";

const FAR: &[u8] =
    b"signal = \"7\"\nstart = \"2024-03-04T06\"\nhours = 1\n[[phase]]\nnumber = 2\nring = 1\nside = 1\n[[approach]]\nname = \"NB\"\nphase = 2\nadvance = 5\ntravel = 300\n";

const NONE: ArrivalSum = ArrivalSum {
    arrivals: 0,
    green: 0,
    not_green: 0,
    undecided: 0,
    unseen: 0,
    fault: 0,
    cycle_arrivals: 0,
    cycle_green: 0,
    green_tenths: 0,
    cycle_tenths: 0,
    actuations: 0,
    red: 0,
    not_red: 0,
    red_undecided: 0,
    red_fault: 0,
};

fn row(at: u32, code: u8, param: u16) -> Row
    ensures { result ≡ record { at = at; code = code; param = param } }
{
    Row { at, code, param }
}

// A cycle of phase 2 from 130 to 330, green from 200 to 300. A vehicle comes in the green and one
// after the cycle.
fn cycle() -> [Row; 7]
    ensures { AreRowsOf 0 result }
{
    [
        row(100, 8, 2),
        row(130, 9, 2),
        row(200, 1, 2),
        row(210, 82, 5),
        row(300, 8, 2),
        row(330, 9, 2),
        row(340, 82, 5),
    ]
}

// The detector has a fault when it goes on.
fn faulty() -> [Row; 7]
    ensures { AreRowsOf 0 result }
{
    [
        row(900, 81, 5),
        row(950, 85, 5),
        row(1000, 1, 2),
        row(1040, 82, 5),
        row(1200, 8, 2),
        row(1235, 9, 2),
        row(1275, 81, 5),
    ]
}

// It is restored before.
fn restored() -> [Row; 8]
    ensures { AreRowsOf 0 result }
{
    [
        row(900, 81, 5),
        row(950, 85, 5),
        row(960, 83, 5),
        row(1000, 1, 2),
        row(1040, 82, 5),
        row(1200, 8, 2),
        row(1235, 9, 2),
        row(1275, 81, 5),
    ]
}

// A vehicle that comes to the stop bar after the window.
fn late() -> [Row; 1]
    ensures { AreRowsOf 0 result }
{
    [row(35_800, 82, 5)]
}

// A view of the hour with the two channels of the configuration.
fn seen(alloc: Global, rows: &[Row], stretches: &[Stretch]) -> Result<HourView, Fail>
    requires rows { AreRowsOf 0 rows.now }
    requires stretches { FollowOn 0 36000 stretches.now }
    ensures { IfOk result (λ v. length v.specs ≡ 2) }
{
    let specs = [free(Kind::Phase, 2), free(Kind::Detector, 5)];
    let before = Pasts::start(alloc, &specs)?;
    let after = Aheads::end(alloc, &specs, 36_000)?;
    let view = HourView::new(alloc, &specs, &before, rows, stretches, &after)?;
    Ok(view)
}

// The cycles that end in the hour.
fn cut(alloc: Global, config: &Config, rows: &[Row]) -> Result<Cuts, Fail> {
    let mut carry = CutCarry::start(alloc, config.phases())?;
    let cuts = cut_hour(alloc, config.phases(), &mut carry, rows, &WHOLE)?;
    Ok(cuts)
}

// The numbers of the hour.
fn summed(alloc: Global, config: &Config, rows: &[Row]) -> Result<ArrivalSums, Fail>
    requires specs { length config.now.specs ≡ 2 }
    requires rows { AreRowsOf 0 rows.now }
{
    let view = seen(alloc, rows, &WHOLE)?;
    let cuts = cut(alloc, config, rows)?;
    let mut carry = ArrivalCarry::start(alloc, config)?;
    let sums = arrivals_hour(alloc, config, &mut carry, &cuts, &view, rows, &WHOLE)?;
    Ok(sums)
}

// The numbers of the one approach.
fn approach_sum(alloc: Global, config: &Config, rows: &[Row]) -> Result<ArrivalSum, Fail>
    requires specs { length config.now.specs ≡ 2 }
    requires rows { AreRowsOf 0 rows.now }
{
    let mut total = ArrivalSums::new(alloc);
    total.add(&summed(alloc, config, rows)?)?;
    let sum = total.approaches().first().ok_or("approach")?;
    Ok(*sum)
}

// The same by the text of a configuration.
fn numbers(alloc: Global, text: &[u8], rows: &[Row]) -> Result<ArrivalSum, Fail>
    requires { AreRowsOf 0 rows.now }
{
    let config: Config = read_config(alloc, text)?;
    if config.specs().len() != 2 {
        return Err(Fail::from("channels"));
    }
    approach_sum(alloc, &config, rows)
}

// Judged rows are counted whether or not they are in a cycle; the cycle counts its own.
#[test]
fn counts_an_hour(rt: HostRuntime) -> Result<(), Fail> {
    let wanted = ArrivalSum {
        arrivals: 2,
        green: 1,
        not_green: 1,
        cycle_arrivals: 1,
        cycle_green: 1,
        green_tenths: 100,
        cycle_tenths: 200,
        actuations: 2,
        red: 1,
        not_red: 1,
        ..NONE
    };
    assert_eq!(rt; numbers(rt.alloc(), BOTH, &cycle())?, wanted);
    Ok(())
}

// A row of a detector in a fault is none of them.
#[test]
fn counts_faults(rt: HostRuntime) -> Result<(), Fail> {
    let wanted = ArrivalSum {
        fault: 1,
        red_fault: 1,
        ..NONE
    };
    assert_eq!(rt; numbers(rt.alloc(), BOTH, &faulty())?, wanted);
    Ok(())
}

#[test]
fn counts_after_a_fault(rt: HostRuntime) -> Result<(), Fail> {
    let wanted = ArrivalSum {
        arrivals: 1,
        green: 1,
        actuations: 1,
        not_red: 1,
        ..NONE
    };
    assert_eq!(rt; numbers(rt.alloc(), BOTH, &restored())?, wanted);
    Ok(())
}

// An arrival tenth past the window is unseen, in the last hour.
#[test]
fn counts_what_comes_after_the_window(rt: HostRuntime) -> Result<(), Fail> {
    let wanted = ArrivalSum {
        arrivals: 1,
        unseen: 1,
        ..NONE
    };
    assert_eq!(rt; numbers(rt.alloc(), FAR, &late())?, wanted);
    Ok(())
}
