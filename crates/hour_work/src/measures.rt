// The measures of an hour, and what is under way of them at the point after it.
ghost use Rattle.std.specs.Prelude.{◌≡◌, ◌+◌, length, option_copied, IfOk, IfSome};
ghost use Rattle.hour_store.specs.Store.{Store, is_known};
ghost use Rattle.board.specs.Logs.{end_tenth, first_tenth};
ghost use Rattle.board.specs.Stops.{AreBefore};
ghost use Rattle.ring_config.specs.Sound.{IsSound};
ghost use Rattle.signal_log.specs.Log.{HasHistory, log_of};
ghost use Rattle.signal_log.specs.Opened.{HasPlace, IsOpened};
ghost use Rattle.signal_log.specs.Over.{AreCoursesOver};
ghost use Rattle.arrival_measures.specs.Hours.{AreAllJudged, HaveCycles};
ghost use Rattle.other_measures.specs.Hours.{AreNumbers, AreStates};
ghost use Rattle.hour_work.specs.Measures.{AreMeasures, MayBeIn, MeetsIn};
ghost use Rattle.hour_work.specs.Points.{AreCrossingAt, AreCutsAt, AreOpenAt, AreUnderWayAt, IsCarryAt};
ghost use Rattle.hour_work.specs.Reports.{AreToldAt, IsCutAtPlace, IsSeenBy};
ghost use Rattle.hour_work.specs.Rows.{earlier_rows, own_rows};

use crate::Carry;
use crate::stop_bars::{splits_over, told_over};
use arrival_measures::{
    ArrivalCarry, ArrivalSums, arrivals_carried, arrivals_hour, arrivals_unseen,
};
use board::{Courses, HourView};
use detector_state::Switched;
use other_measures::{OtherCarry, OtherSums, others_hour, others_unseen};
use ring_config::Config;
use service_cut::{Closing, CutCarry, Cuts, cut_hour};
use sig_base::NoMemory;
use signal_log::Place;
use split_measures::{SplitCarry, SplitSums};
use std::alloc::Global;

/// What is under way of each measure at a point.
#[derive(Drop)]
pub(crate) struct UnderWay {
    pub(crate) cuts: CutCarry,
    pub(crate) closing: Closing,
    pub(crate) splits: SplitCarry,
    pub(crate) others: OtherCarry,
    pub(crate) arrivals: ArrivalCarry,
}

/// The measures of an hour, and what is under way of each at the point after it.
#[derive(Drop)]
pub(crate) struct Measured {
    pub(crate) splits: SplitSums,
    pub(crate) others: OtherSums,
    pub(crate) arrivals: ArrivalSums,
    pub(crate) way: UnderWay,
}

/// The measures of an hour, by the tenths of the detectors at stop bars and, where it is held, by the
/// view of it. What is under way after it needs no view.
pub(crate) fn measures_over(
    alloc: Global,
    config: &Config,
    place: &Place<'_>,
    before: &Carry,
    told: &[Switched],
    view: Option<&HourView>,
) -> Result<Measured, NoMemory>
    requires told { AreToldAt config.now place.now before.now told.now }
    requires view { IfSome view (λ v. length v.now.specs ≡ length config.now.specs) }
    ensures value { IfOk result (λ m. (s : Store) → HasHistory (log_of config.now.specs s)
        → HasPlace s place.now → IsCarryAt config.now s place.now.hour before.now
        → IsSeenBy config.now s place.now before.now (option_copied view.entry)
        → AreMeasures config.now s place.now.hour m.splits.phases m.splits.approaches m.others
        m.arrivals) }
    ensures way { IfOk result (λ m. (s : Store) → HasPlace s place.now
        → IsCarryAt config.now s place.now.hour before.now
        → AreUnderWayAt config.now s (place.now.hour + 1) m.way) }
    ensures sound { IfOk result (λ _. IsSound config.now) }
    ensures opened { IfOk result (λ _. IsOpened place.now) }
{
    let (cut, cuts) = cuts_over(alloc, config, place, before)?;
    let closing = Closing::of(alloc, &cut, end_of(place))?;
    let (splits, bars) = splits_over(alloc, config, place, before, &cut, told)?;
    let (others, crossing) = others_over(alloc, config, place, before, view)?;
    let (arrivals, opens) = arrivals_over(alloc, config, place, before, &cut, view)?;
    let way = UnderWay {
        cuts,
        closing,
        splits: bars,
        others: crossing,
        arrivals: opens,
    };
    Ok(Measured {
        splits,
        others,
        arrivals,
        way,
    })
}

/// What is under way of each measure at the point after an hour, without the hour's numbers. These
/// are the hour's courses, where they are made already.
pub(crate) fn way_over(
    alloc: Global,
    config: &Config,
    place: &Place<'_>,
    before: &Carry,
    courses: Option<&Courses>,
) -> Result<UnderWay, NoMemory>
    requires shape { AreBefore config.now.specs before.now.pasts }
    requires courses { IfSome (option_copied courses) (AreCoursesOver config.now.specs
        place.now.hour place.now.rows place.now.blanks) }
    ensures way { IfOk result (λ w. (s : Store) → HasPlace s place.now
        → IsCarryAt config.now s place.now.hour before.now
        → AreUnderWayAt config.now s (place.now.hour + 1) w) }
    ensures sound { IfOk result (λ _. IsSound config.now) }
    ensures opened { IfOk result (λ _. IsOpened place.now) }
{
    let (cut, cuts) = cuts_over(alloc, config, place, before)?;
    let closing = Closing::of(alloc, &cut, end_of(place))?;
    let told = told_over(alloc, config, place, before, courses)?;
    let (_sums, splits) = splits_over(alloc, config, place, before, &cut, &told)?;
    let (_numbers, others) = others_over(alloc, config, place, before, None)?;
    let arrivals = arrivals_after(alloc, config, place, before, &cut)?;
    Ok(UnderWay {
        cuts,
        closing,
        splits,
        others,
        arrivals,
    })
}

// The first tenth after an hour.
fn end_of(place: &Place<'_>) -> u32
    ensures { result ≡ end_tenth place.now.hour }
{
    36_000 * place.hour() + 36_000
}

// What is cut of an hour, and what is under way of phases at the point after it.
fn cuts_over(
    alloc: Global,
    config: &Config,
    place: &Place<'_>,
    before: &Carry,
) -> Result<(Cuts, CutCarry), NoMemory>
    ensures cut { IfOk result (λ v. (s : Store) → HasPlace s place.now
        → IsCarryAt config.now s place.now.hour before.now
        → IsCutAtPlace config.now s place.now before.now v.0) }
    ensures cuts { IfOk result (λ v. (s : Store) → HasPlace s place.now
        → IsCarryAt config.now s place.now.hour before.now
        → AreCutsAt config.now s (place.now.hour + 1) v.1) }
    ensures sound { IfOk result (λ _. IsSound config.now) }
    ensures opened { IfOk result (λ _. IsOpened place.now) }
{
    let rows = place.rows();
    let parts = place.stretches();
    let mut cuts = before.cuts.copy()?;
    let cut = cut_hour(alloc, config.phases(), &mut cuts, rows, parts)?;
    Ok((cut, cuts))
}

// The numbers of an hour's arrivals, and what is under way of them at the point after it.
fn arrivals_over(
    alloc: Global,
    config: &Config,
    place: &Place<'_>,
    before: &Carry,
    cut: &Cuts,
    view: Option<&HourView>,
) -> Result<(ArrivalSums, ArrivalCarry), NoMemory>
    requires view { IfSome view (λ v. length v.now.specs ≡ length config.now.specs) }
    ensures judged { IfOk result (λ v. (s : Store)
        → IsCutAtPlace config.now s place.now before.now cut.now
        → IsSeenBy config.now s place.now before.now (option_copied view.entry)
        → AreAllJudged (MayBeIn config.now s) (is_known s) config.now
        (earlier_rows s place.now.hour) (own_rows s place.now.hour) place.now.hour v.0) }
    ensures cycles { IfOk result (λ v. (s : Store)
        → IsCutAtPlace config.now s place.now before.now cut.now
        → HaveCycles (is_known s) config.now (earlier_rows s place.now.hour)
        (own_rows s place.now.hour) v.0) }
    ensures carry { IfOk result (λ v. (s : Store)
        → IsCutAtPlace config.now s place.now before.now cut.now
        → AreOpenAt config.now s (place.now.hour + 1) v.1) }
{
    let rows = place.rows();
    let parts = place.stretches();
    let mut carry = before.arrivals.copy()?;
    let sums = match view {
        Some(view) => arrivals_hour(alloc, config, &mut carry, cut, view, rows, parts)?,
        None => arrivals_unseen(alloc, config, &mut carry, cut, rows, parts)?,
    };
    Ok((sums, carry))
}

// What is under way of its arrivals at the point after it.
fn arrivals_after(
    alloc: Global,
    config: &Config,
    place: &Place<'_>,
    before: &Carry,
    cut: &Cuts,
) -> Result<ArrivalCarry, NoMemory>
    ensures { IfOk result (λ a. (s : Store)
        → IsCutAtPlace config.now s place.now before.now cut.now
        → AreOpenAt config.now s (place.now.hour + 1) a) }
{
    let rows = place.rows();
    let parts = place.stretches();
    let mut carry = before.arrivals.copy()?;
    arrivals_carried(alloc, config, &mut carry, cut, rows, parts)?;
    Ok(carry)
}

// The numbers of its pedestrian signals, preempts and coordination, and what is under way of them
// there.
fn others_over(
    alloc: Global,
    config: &Config,
    place: &Place<'_>,
    before: &Carry,
    view: Option<&HourView>,
) -> Result<(OtherSums, OtherCarry), NoMemory>
    requires view { IfSome view (λ v. length v.now.specs ≡ length config.now.specs) }
    ensures numbers { IfOk result (λ v. (s : Store) → HasPlace s place.now
        → IsCarryAt config.now s place.now.hour before.now
        → AreNumbers (is_known s) config.now (earlier_rows s place.now.hour)
        (own_rows s place.now.hour) v.0) }
    ensures states { IfOk result (λ v. (s : Store)
        → IsSeenBy config.now s place.now before.now (option_copied view.entry)
        → AreStates (MeetsIn config.now s) (first_tenth place.now.hour) config.now v.0) }
    ensures carry { IfOk result (λ v. (s : Store) → HasPlace s place.now
        → IsCarryAt config.now s place.now.hour before.now
        → AreCrossingAt config.now s (place.now.hour + 1) v.1) }
{
    let rows = place.rows();
    let parts = place.stretches();
    let mut carry = before.others.copy()?;
    let sums = match view {
        Some(view) => others_hour(alloc, config, &mut carry, view, rows, parts)?,
        None => others_unseen(alloc, config, &mut carry, rows, parts)?,
    };
    Ok((sums, carry))
}
