// The numbers of small hours of one pedestrian signal and one preempt.
ghost use Rattle.std.specs.Prelude.{◌≡◌, length, IfOk};
ghost use Rattle.gap_map.specs.Stretches.{FollowOn};
ghost use Rattle.sig_base.specs.HourRows.{AreRowsOf};

use crate::given::{WHOLE, free, row};
use board::{Aheads, HourView, Pasts};
use event_codes::Kind;
use gap_map::Stretch;
use other_measures::{OtherCarry, OtherSums, PedSum, others_hour, others_unseen};
use ring_config::{Config, read_config};
use sig_base::{NoMemory, Row};
use std::alloc::Global;
use std::test::Fail;

const TEXT: &[u8] =
    b"signal = \"7\"\nstart = \"2024-03-04T06\"\nhours = 1\n[[phase]]\nnumber = 2\nring = 1\nside = 1\n[[ped]]\nnumber = 2\n[[preempt]]\nnumber = 1\n";

// A walk, two calls and the walk that they wait for.
fn two_walks() -> [Row; 4]
    ensures { AreRowsOf 0 result }
{
    [row(100, 21), row(300, 45), row(400, 45), row(1300, 21)]
}

// A view of the hour with the five channels of the configuration.
fn seen(alloc: Global, rows: &[Row], stretches: &[Stretch]) -> Result<HourView, Fail>
    requires rows { AreRowsOf 0 rows.now }
    requires stretches { FollowOn 0 36000 stretches.now }
    ensures { IfOk result (λ v. length v.specs ≡ 5) }
{
    let specs = [
        free(Kind::Phase, 2),
        free(Kind::Ped, 2),
        free(Kind::PreemptInput, 1),
        free(Kind::PreemptService, 1),
        free(Kind::PedDetector, 2),
    ];
    let before = Pasts::start(alloc, &specs)?;
    let after = Aheads::end(alloc, &specs, 36_000)?;
    let view = HourView::new(alloc, &specs, &before, rows, stretches, &after)?;
    Ok(view)
}

// The numbers of the two walks.
fn summed(alloc: Global, config: &Config, stretches: &[Stretch]) -> Result<OtherSums, Fail>
    requires specs { length config.now.specs ≡ 5 }
    requires stretches { FollowOn 0 36000 stretches.now }
{
    let rows = two_walks();
    let view = seen(alloc, &rows, stretches)?;
    let mut carry = OtherCarry::start(alloc, config)?;
    let sums = others_hour(alloc, config, &mut carry, &view, &rows, stretches)?;
    Ok(sums)
}

const UNHELD: [Stretch; 1] = [Stretch {
    from: 0,
    to: 36_000,
    known: false,
}];

// The same with an hour that isn't held added to them.
fn totalled(alloc: Global, config: &Config, stretches: &[Stretch]) -> Result<OtherSums, Fail>
    requires specs { length config.now.specs ≡ 5 }
    requires stretches { FollowOn 0 36000 stretches.now }
{
    let mut total = summed(alloc, config, stretches)?;
    let mut carry = OtherCarry::start(alloc, config)?;
    let unheld = others_unseen(alloc, config, &mut carry, &[], &UNHELD)?;
    total.add(&unheld)?;
    Ok(total)
}

// Of them those of the one pedestrian signal.
fn ped_sum(alloc: Global, config: &Config, stretches: &[Stretch]) -> Result<PedSum, Fail>
    requires specs { length config.now.specs ≡ 5 }
    requires stretches { FollowOn 0 36000 stretches.now }
{
    let total = totalled(alloc, config, stretches)?;
    let ped = total.peds().first().ok_or("signal")?;
    Ok(*ped)
}

fn numbers(alloc: Global, stretches: &[Stretch]) -> Result<PedSum, Fail>
    requires { FollowOn 0 36000 stretches.now }
{
    let config: Config = read_config(alloc, TEXT)?;
    if config.specs().len() != 5 {
        return Err(Fail::from("channels"));
    }
    ped_sum(alloc, &config, stretches)
}

// A delay runs from the first call since the last walk; the first walk has none before it.
#[test]
fn a_delay_from_the_first_call(rt: HostRuntime) -> Result<(), Fail> {
    let ped = numbers(rt.alloc(), &WHOLE)?;
    assert_eq!(rt;
        [ped.walks, ped.delays, ped.sum, ped.partial],
        [2, 1, 1000, 1]
    );
    assert_eq!(rt; ped.greatest, Some(1000));
    Ok(())
}

const CUT: [Stretch; 3] = [
    Stretch {
        from: 0,
        to: 500,
        known: true,
    },
    Stretch {
        from: 500,
        to: 501,
        known: false,
    },
    Stretch {
        from: 501,
        to: 36_000,
        known: true,
    },
];

// Where a tenth between the walks isn't known, neither has a delay.
#[test]
fn no_delay_over_a_gap(rt: HostRuntime) -> Result<(), Fail> {
    let ped = numbers(rt.alloc(), &CUT)?;
    assert_eq!(rt; [ped.walks, ped.delays, ped.sum, ped.partial], [2, 0, 0, 2]);
    assert_eq!(rt; ped.greatest, None);
    Ok(())
}

// Whether what crosses the end of the hour of two walks is what crosses the window's start.
fn is_as_at_the_start(alloc: Global, config: &Config) -> Result<bool, NoMemory> {
    let start = OtherCarry::start(alloc, config)?;
    let mut carry = start.copy()?;
    others_unseen(alloc, config, &mut carry, &two_walks(), &WHOLE)?;
    Ok(carry.same(&start))
}

fn is_walk_forgotten(alloc: Global) -> Result<bool, Fail> {
    let config: Config = read_config(alloc, TEXT)?;
    let is_same = is_as_at_the_start(alloc, &config)?;
    Ok(is_same)
}

// The last walk is kept past the hour.
#[test]
fn a_walk_under_way(rt: HostRuntime) -> Result<(), Fail> {
    assert!(rt; !is_walk_forgotten(rt.alloc())?);
    Ok(())
}
