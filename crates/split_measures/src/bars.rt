// The verdicts of an hour's services, stop bar by stop bar.
ghost use Rattle.std.specs.Prelude.{◌≡◌, ◌<◌, ◌≤◌, ◌^◌, ◌+◌, ◌++◌, ◌∷◌, List, [], Some, None, IfOk, length, option_copied, slice_index_or};
ghost use Rattle.sig_base.specs.declared.values.Row.{Row};
ghost use Rattle.signal_log.specs.Log.{Log};
ghost use Rattle.service_cut.specs.declared.items.Service.{Service};
ghost use Rattle.ring_config.specs.declared.items.Approach.{Approach};
ghost use Rattle.stop_bar.specs.declared.windows.Windows.{Windows};
ghost use Rattle.stop_bar.specs.Crossing.{Crossing};
ghost use Rattle.stop_bar.specs.All.{AreAllOver, AreAtBars, bars_of};
ghost use Rattle.split_measures.specs.Failures.{split_sum_of};
ghost use Rattle.split_measures.specs.Hours.{AreSplitSums, IsBarSum, IsLogUpto, open_at_end, opens_of};
ghost use Rattle.split_measures.specs.Verdicts.{verdicts_by};

use crate::failures::{SplitSum, no_verdict, verdict_sum};
use hour_sweep::Sum;
use ring_config::{Approach, Config};
use sig_base::{Frac, Hour, NoMemory};
use std::alloc::Global;
use stop_bar::{AtBar, Ended, Windows};

// So many services that are open.
fn opens(count: usize) -> SplitSum
    ensures { (ss : List Service) → length ss ≡ count → result ≡ split_sum_of (opens_of ss) }
{
    SplitSum {
        fail: 0,
        pass: 0,
        undecided: 0,
        left_open: count as u64,
        fault: 0,
    }
}

// The sum of the services with these windows, and of so many that are open.
fn bar_sum(windows: &[Windows], high: &Frac, waiting: usize) -> SplitSum
    requires num { high.now.num < 2 ^ 32 }
    requires den { high.now.den < 2 ^ 32 }
    ensures { (ss : List Service) → length ss ≡ waiting
        → result ≡ split_sum_of (verdicts_by high.now windows.now ++ opens_of ss) }
{
    verdict_sum(windows, high).sum(&opens(waiting))
}

// How many services are open at the hour's end, of those that wait there.
fn open_count(config: &Config, hour: Hour, at: Option<&AtBar>) -> usize
    requires { hour < 744 }
    ensures { (x : Crossing) → option_copied at.entry ≡ Some x
        → length (open_at_end config.now.window.hours hour x) ≡ result }
{
    match at {
        Some(at) => {
            if config.hours() <= hour + 1 {
                at.pending().len()
            } else {
                0
            }
        }
        None => 0,
    }
}

// How many stop bars the approach has.
fn bar_count(approach: &Approach) -> usize
    ensures value { result ≡ length (bars_of (approach.now ∷ [])) }
    ensures few { result ≤ 1 }
{
    match approach.stop_bar {
        Some(_) => 1,
        None => 0,
    }
}

// The sum of an approach, from the windows that end at its stop bar and what waits there.
fn approach_sum(
    config: &Config,
    approach: &Approach,
    ended: Option<&Ended>,
    at: Option<&AtBar>,
    hour: Hour,
) -> SplitSum
    requires hour { hour < 744 }
    requires num { approach.now.high.num < 2 ^ 32 }
    requires den { approach.now.high.den < 2 ^ 32 }
    ensures none { approach.now.stop_bar ≡ None → result ≡ split_sum_of [] }
    ensures some { IsBarSum config.now.window.hours hour approach.now (option_copied ended.entry)
        (option_copied at.entry) result }
{
    if approach.stop_bar.is_none() {
        return no_verdict();
    }
    match ended {
        Some(over) => bar_sum(over.windows(), &approach.high, open_count(config, hour, at)),
        None => no_verdict(),
    }
}

// The approach at a place in file order, from 0.
fn approach_of(config: &Config, place: u32) -> &Approach
    requires { place < length config.now.approaches }
    ensures approach { (d : Approach) → result.now ≡ slice_index_or config.now.approaches place d }
    ensures num { result.now.high.num < 2 ^ 32 }
    ensures den { result.now.high.den < 2 ^ 32 }
{
    match config.approach_at(place) {
        Some(approach) => approach,
        None => unreachable!(),
    }
}

/// The sums of the approaches in an hour, in file order, from the windows that end in it at each
/// stop bar, and what crosses the point after it.
pub(crate) fn approach_sums(
    alloc: Global,
    config: &Config,
    ended: &[Ended],
    at: &[AtBar],
    hour: Hour,
) -> Result<Vec<SplitSum>, NoMemory>
    requires { hour < 744 }
    ensures { IfOk result (λ v. (log : Log) (upto : List Row) → IsLogUpto log config.now hour upto
        → AreAllOver log config.now hour upto ended.now
        → AreAtBars log config.now upto (hour + 1) at.now
        → AreSplitSums log config.now hour upto v.items) }
{
    let mut sums = Vec::new(alloc);
    let mut next = 0;
    for place in 0..config.approach_count() {
        let approach = approach_of(config, place);
        sums.push(approach_sum(config, approach, ended.get(next), at.get(next), hour))?;
        next += bar_count(approach);
    }
    Ok(sums)
}
