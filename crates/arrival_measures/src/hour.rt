// The numbers of an hour.
ghost use Rattle.std.specs.Prelude.{◌≡◌, ◌+◌, ◌<◌, ℕ, None, length, option_copied, slice_index_or, IfOk, IfSome, OnOk, OnErr, []};
ghost use Rattle.hour_sweep.specs.Sums.{capped, merged};
ghost use Rattle.hour_sweep.specs.Hours.{point};
ghost use Rattle.ring_config.specs.Settings.{Settings};
ghost use Rattle.arrival_measures.specs.Hours.{added, cycle_part, is_last};
ghost use Rattle.arrival_measures.specs.Steps.{IsOwnAt, IsOwnOf, numbers_in, rows_with, sum_of};
ghost use Rattle.arrival_measures.specs.Results.{AreChained, AreHourSums, AreHourSumsBy, AreNextCrossings, AreSumsBy, HaveGivenCycles, HaveHourCycles, IsCarriedOn, IsSeenSum, IsSumBy, IsUnseenSum};

use crate::ahead::{ApproachHour, approach_hour, due_of};
use crate::approach::{approach_of, phase_spec};
use crate::carry::{ArrivalCarry, Crossing};
use crate::chains::{Chain, Chains, chain_rows, turns_among};
use crate::cycles::CycleSum;
use crate::faults::{Detections, detect, put_flags};
use crate::judged::{Judged, green, judged_rows, nothing, red, unseen_rows};
use crate::sources::Sources;
use crate::sums::ArrivalSum;
use board::HourView;
use gap_map::{Stretch, first_of};
use hour_sweep::add_each;
use ring_config::{Approach, Config};
use service_cut::Cuts;
use sig_base::{NoMemory, Row};
use std::alloc::Global;
use std::marker::Model;

/// The numbers of each approach in an hour.
#[derive(Drop)]
pub struct ArrivalSums {
    approaches: Vec<ArrivalSum>,
}

impl Model for ArrivalSums {
    ghost use Rattle.std.specs.Prelude.{List};
    ghost use Rattle.arrival_measures.specs.declared.sums.ArrivalSum.{ArrivalSum};

    ghost Value = { List ArrivalSum };

    ghost view = { λ s. s.approaches.items };
}

impl ArrivalSums {
    /// The numbers of no approach. Can't run out of memory.
    pub fn new(alloc: Global) -> ArrivalSums
        ensures { result ≡ [] }
    {
        ArrivalSums {
            approaches: Vec::new(alloc),
        }
    }

    /// Adds the numbers of each approach to its own. Where memory ran out some of them may have
    /// been added.
    pub fn add(&mut self, more: &ArrivalSums) -> Result<(), NoMemory>
        ensures { OnOk result (self.new ≡ merged added self.old more.now) }
    {
        add_each(&mut self.approaches, &more.approaches)
    }

    /// One entry for each approach, in file order.
    pub fn approaches(&self) -> &[ArrivalSum]
        ensures { result.now ≡ self.now }
    {
        self.approaches.as_slice()
    }
}

// The rows of the detector, where there is one.
fn rows_of(alloc: Global, chains: &Chains<'_>, detector: Option<u8>) -> Result<Vec<Row>, NoMemory>
    ensures { IfOk result (λ v. v.items ≡ rows_with chains.now detector) }
{
    match detector {
        Some(detector) => chain_rows(alloc, chains, Chain::On(detector)),
        None => Ok(Vec::new(alloc)),
    }
}

fn count(rows: &[Row]) -> u64
    ensures { result ≡ capped (length rows.now) }
{
    rows.len() as u64
}

fn sum_of(greens: Judged, fault: u64, reds: Judged, red_fault: u64, cycles: CycleSum) -> ArrivalSum
    ensures { result ≡ sum_of greens fault reds red_fault cycles }
{
    ArrivalSum {
        arrivals: greens.rows,
        green: greens.all,
        not_green: greens.none,
        undecided: greens.some,
        unseen: greens.unseen,
        fault,
        cycle_arrivals: cycles.arrivals,
        cycle_green: cycles.green,
        green_tenths: cycles.green_tenths,
        cycle_tenths: cycles.tenths,
        actuations: reds.rows,
        red: reds.all,
        not_red: reds.none,
        red_undecided: reds.some,
        red_fault,
    }
}

// The numbers of an approach whose phase has this place among the channels, by a view.
fn seen_sum(
    alloc: Global,
    view: &HourView,
    spec: u16,
    approach: &Approach,
    sources: &Sources<'_>,
    given: &ApproachHour,
) -> Result<ArrivalSum, NoMemory>
    requires { spec < length view.now.specs }
    ensures judged { IfOk result (λ s. (c : Settings) → IsOwnAt c approach.now spec
        → IsSeenSum c view.now sources.now approach.now given.now s) }
    ensures cycles { IfOk result (λ s. cycle_part s ≡ numbers_in given.now.cycles) }
{
    let end = sources.first.saturating_add(36_000);
    let due = due_of(&given.arriving, end, sources.last);
    let at_bar = rows_of(alloc, &sources.arrivals, approach.stop_bar)?;
    let greens = judged_rows(view, spec, green(), due, sources.stretches);
    let reds = judged_rows(view, spec, red(), &at_bar, sources.stretches);
    let faults = rows_of(alloc, &sources.faults, approach.advance)?;
    let bar_faults = rows_of(alloc, &sources.faults, approach.stop_bar)?;
    Ok(sum_of(
        greens,
        count(&faults),
        reds,
        count(&bar_faults),
        given.cycles,
    ))
}

// Those in an hour without rows of which no tenth is known: what the arrivals show isn't seen, and
// there is no actuation.
fn unseen_sum(approach: &Approach, sources: &Sources<'_>, given: &ApproachHour) -> ArrivalSum
    ensures judged { (c : Settings) (place : ℕ) → IsOwnAt c approach.now place
        → IsUnseenSum c sources.now approach.now given.now result }
    ensures cycles { cycle_part result ≡ numbers_in given.now.cycles }
{
    let end = sources.first.saturating_add(36_000);
    let greens = unseen_rows(due_of(&given.arriving, end, sources.last));
    sum_of(greens, 0, nothing(), 0, given.cycles)
}

// The numbers of an approach, by the view if there is one.
fn approach_sum(
    alloc: Global,
    config: &Config,
    view: Option<&HourView>,
    approach: &Approach,
    sources: &Sources<'_>,
    given: &ApproachHour,
) -> Result<ArrivalSum, NoMemory>
    requires view { IfSome view (λ v. length v.now.specs ≡ length config.now.specs) }
    requires own { IsOwnOf config.now approach.now }
    ensures judged { IfOk result (IsSumBy config.now (option_copied view.entry) sources.now
        approach.now given.now) }
    ensures cycles { IfOk result (λ s. cycle_part s ≡ numbers_in given.now.cycles) }
{
    let spec = phase_spec(config, approach.phase);
    match view {
        Some(view) => seen_sum(alloc, view, spec, approach, sources, given),
        None => Ok(unseen_sum(approach, sources, given)),
    }
}

// What an hour gives.
#[derive(Drop)]
struct HourNumbers {
    // One for each approach, in file order.
    sums: Vec<ArrivalSum>,
    // What crosses the point after the hour.
    crossings: Vec<Crossing>,
}

/// What crosses the point of the approach with this place.
pub(crate) fn crossing_at<'a>(
    crossings: &'a [Crossing],
    place: u32,
    none: &'a Crossing,
) -> &'a Crossing
    ensures { result.now ≡ slice_index_or crossings.now place none.now }
{
    let place = place as usize;
    if place < crossings.len() {
        &crossings[place]
    } else {
        none
    }
}

// The numbers of each approach, by its own rows alone.
fn hour_numbers(
    alloc: Global,
    config: &Config,
    crossings: &[Crossing],
    cuts: &Cuts,
    view: Option<&HourView>,
    sources: &Sources<'_>,
) -> Result<HourNumbers, NoMemory>
    requires view { IfSome view (λ v. length v.now.specs ≡ length config.now.specs) }
    ensures judged { IfOk result (λ n. AreSumsBy config.now (option_copied view.entry) sources.now
        crossings.now cuts.now n.sums.items) }
    ensures cycles { IfOk result (λ n.
        HaveGivenCycles config.now sources.now crossings.now cuts.now n.sums.items) }
    ensures crossings { IfOk result (λ n.
        AreNextCrossings config.now sources.now crossings.now cuts.now n.crossings.items) }
{
    let none = Crossing::none(alloc);
    let mut sums = Vec::new(alloc);
    let mut after = Vec::new(alloc);
    for place in 0..config.approach_count() {
        let approach = approach_of(config, place);
        let crossing = crossing_at(crossings, place, &none);
        let given = approach_hour(alloc, approach, crossing, cuts, sources)?;
        sums.push(approach_sum(alloc, config, view, approach, sources, &given)?)?;
        after.push(given.crossing)?;
    }
    Ok(HourNumbers {
        sums,
        crossings: after,
    })
}

// Whether an hour with this first tenth is the window's last.
fn is_last(config: &Config, first: u32) -> bool
    ensures { (hour : ℕ) → first ≡ point hour → result ≡ is_last config.now hour }
{
    first / 36_000 + 1 == config.hours()
}

// The hour's rows in chains, with its tenths: `turns` are those that begin or end green.
fn sources_of<'a>(
    alloc: Global,
    config: &Config,
    found: &'a Detections,
    turns: &'a [Row],
    stretches: &'a [Stretch],
) -> Result<Sources<'a>, NoMemory>
    ensures stretches { IfOk result (λ s. s.stretches.now ≡ stretches.now) }
    ensures sources { IfOk result (AreChained config.now found.now turns.now stretches.now) }
{
    let first = first_of(stretches);
    Ok(Sources {
        turns: Chains::new(alloc, turns)?,
        arrivals: Chains::new(alloc, &found.arrivals)?,
        faults: Chains::new(alloc, &found.faults)?,
        stretches,
        first,
        last: is_last(config, first),
    })
}

// The numbers of each approach, worked out from the hour's rows, and in `carry` what crosses the
// point after it in place of what crosses the point before it.
fn over_rows(
    alloc: Global,
    config: &Config,
    carry: &mut ArrivalCarry,
    cuts: &Cuts,
    view: Option<&HourView>,
    rows: &[Row],
    stretches: &[Stretch],
) -> Result<Vec<ArrivalSum>, NoMemory>
    requires view { IfSome view (λ v. length v.now.specs ≡ length config.now.specs) }
    ensures judged { IfOk result (λ v. AreHourSumsBy config.now (option_copied view.entry) rows.now
        stretches.now carry.old cuts.now v.items) }
    ensures cycles { IfOk result (λ v.
        HaveHourCycles config.now rows.now stretches.now carry.old cuts.now v.items) }
    ensures carry { IfOk result (λ _.
        IsCarriedOn config.now rows.now stretches.now cuts.now carry.old carry.new) }
    ensures err { OnErr result (carry.new ≡ carry.old) }
{
    let found = detect(alloc, &carry.flags, rows, stretches)?;
    let numbers = {
        let turns = turns_among(alloc, rows)?;
        let sources = sources_of(alloc, config, &found, &turns, stretches)?;
        hour_numbers(alloc, config, &carry.crossings, cuts, view, &sources)?
    };
    carry.crossings = numbers.crossings;
    put_flags(&mut carry.flags, found.flags);
    Ok(numbers.sums)
}

// The numbers of each approach in an hour, by the view if there is one, and in `carry` what crosses
// the point after it in place of what crosses the point before it. Where there is no approach the
// rows aren't looked at: nothing is under way, before the hour as after it.
fn over_hour(
    alloc: Global,
    config: &Config,
    carry: &mut ArrivalCarry,
    cuts: &Cuts,
    view: Option<&HourView>,
    rows: &[Row],
    stretches: &[Stretch],
) -> Result<Vec<ArrivalSum>, NoMemory>
    requires view { IfSome view (λ v. length v.now.specs ≡ length config.now.specs) }
    ensures judged { IfOk result (λ v. AreHourSumsBy config.now (option_copied view.entry) rows.now
        stretches.now carry.old cuts.now v.items) }
    ensures cycles { IfOk result (λ v.
        HaveHourCycles config.now rows.now stretches.now carry.old cuts.now v.items) }
    ensures carry { IfOk result (λ _.
        IsCarriedOn config.now rows.now stretches.now cuts.now carry.old carry.new) }
    ensures err { OnErr result (carry.new ≡ carry.old) }
{
    if config.approach_count() == 0 {
        return Ok(Vec::new(alloc));
    }
    over_rows(alloc, config, carry, cuts, view, rows, stretches)
}

/// The hour's numbers, and in `carry` what crosses the point after it in place of what crosses the
/// point before it. The cuts are those of the hour; the view is one of it, with the configuration's
/// channels.
pub fn arrivals_hour(
    alloc: Global,
    config: &Config,
    carry: &mut ArrivalCarry,
    cuts: &Cuts,
    view: &HourView,
    rows: &[Row],
    stretches: &[Stretch],
) -> Result<ArrivalSums, NoMemory>
    requires view { length view.now.specs ≡ length config.now.specs }
    ensures judged { IfOk result
        (AreHourSums config.now view.now rows.now stretches.now carry.old cuts.now) }
    ensures cycles { IfOk result
        (HaveHourCycles config.now rows.now stretches.now carry.old cuts.now) }
    ensures carry { IfOk result (λ _.
        IsCarriedOn config.now rows.now stretches.now cuts.now carry.old carry.new) }
    ensures err { OnErr result (carry.new ≡ carry.old) }
{
    let approaches = over_hour(alloc, config, carry, cuts, Some(view), rows, stretches)?;
    Ok(ArrivalSums { approaches })
}

/// The same without a view: of the arrivals whose tenth is one of the hour nothing is seen. The
/// judged ones are those of an hour without rows of which no tenth is known.
pub fn arrivals_unseen(
    alloc: Global,
    config: &Config,
    carry: &mut ArrivalCarry,
    cuts: &Cuts,
    rows: &[Row],
    stretches: &[Stretch],
) -> Result<ArrivalSums, NoMemory>
    ensures judged { IfOk result
        (AreHourSumsBy config.now None rows.now stretches.now carry.old cuts.now) }
    ensures cycles { IfOk result
        (HaveHourCycles config.now rows.now stretches.now carry.old cuts.now) }
    ensures carry { IfOk result (λ _.
        IsCarriedOn config.now rows.now stretches.now cuts.now carry.old carry.new) }
    ensures err { OnErr result (carry.new ≡ carry.old) }
{
    let approaches = over_hour(alloc, config, carry, cuts, None, rows, stretches)?;
    Ok(ArrivalSums { approaches })
}
