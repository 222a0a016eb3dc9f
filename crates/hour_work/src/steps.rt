// From one hour point to the next, and back.
ghost use Rattle.std.specs.Prelude.{◌≡◌, ◌+◌, ◌<◌, ℕ, List, Option, option_copied, IfOk, IfErr, IfSome};
ghost use Rattle.span_set.specs.declared.set.Span.{Span};
ghost use Rattle.sig_base.specs.declared.values.Row.{Row};
ghost use Rattle.channel_tables.specs.declared.spec.Spec.{Spec};
ghost use Rattle.sig_base.specs.HourRows.{AreRowsOf};
ghost use Rattle.hour_store.specs.Store.{Store};
ghost use Rattle.board.specs.Logs.{first_tenth};
ghost use Rattle.board.specs.Places.{AllEarly, AreAheadsOf};
ghost use Rattle.board.specs.Stops.{AreBefore};
ghost use Rattle.ring_config.specs.Settings.{Settings};
ghost use Rattle.signal_log.specs.Log.{Log, log_of};
ghost use Rattle.signal_log.specs.Opened.{HasPlace};
ghost use Rattle.signal_log.specs.Points.{ArePastsAt, HasHour, NamesContradiction};
ghost use Rattle.signal_log.specs.Over.{AreAheadsOver, AreCoursesOver, ArePastsOver, NamesStopOver};
ghost use Rattle.hour_work.specs.declared.steps.ForwardError.TheVariants.{Memory};
ghost use Rattle.hour_work.specs.Points.{AreUnderWayAt, FitPoint, IsCarryAt, IsFutureAt, NamesRow, NamesStop};

use crate::measures::{UnderWay, way_over};
use crate::{Carry, Future};
use board::{About, Courses, Pasts, PastsError};
use ring_config::Config;
use sig_base::{Hour, NoMemory, Row};
use signal_log::{Place, aheads_over, aheads_through, pasts_over};
use span_set::SpanSet;
use std::alloc::{AllocFailed, Global};

/// Why nothing is carried over an hour.
#[derive(Clone, Copy, Debug, PartialEq, Eq)]
pub enum ForwardError {
    /// No history agrees with the log up to this row.
    Contradiction(Row),
    Memory,
}

impl From<NoMemory> for ForwardError {
    ghost from_gives = { λ _ e. e ≡ Memory };

    fn from(_: NoMemory) -> Self {
        ForwardError::Memory
    }
}

impl<T: Drop> From<AllocFailed<T>> for ForwardError {
    ghost from_gives = { λ _ e. e ≡ Memory };

    fn from(_: AllocFailed<T>) -> Self {
        ForwardError::Memory
    }
}

/// What is kept at the point after an hour, 0 to 743, from what is kept at the point before it,
/// where these rows are held of the hour (`None`: it isn't held) and these tenths are blanked.
/// `Contradiction` comes where the log contradicts itself at a row of the hour: the first known one
/// after which its channel has no state, whatever the states before the hour.
pub fn forward(
    alloc: Global,
    config: &Config,
    hour: Hour,
    before: &Carry,
    rows: Option<&[Row]>,
    blanked: &SpanSet,
) -> Result<Carry, ForwardError>
    requires in_range { hour < 744 }
    requires of_hour { IfSome rows (λ r. AreRowsOf hour r.now) }
    requires fit { FitPoint config.now hour before.now }
    ensures fit { IfOk result (FitPoint config.now (hour + 1)) }
    ensures carry { IfOk result (λ c. (s : Store) → HasHour s hour (option_copied rows.entry)
        blanked.now → IsCarryAt config.now s hour before.now
        → IsCarryAt config.now s (hour + 1) c) }
    ensures stop { IfErr result (λ e. (s : Store) → HasHour s hour (option_copied rows.entry)
        blanked.now → IsCarryAt config.now s hour before.now
        → NamesRow (log_of config.now.specs s) e) }
    ensures over { IfOk result (λ c. ArePastsOver config.now.specs hour (option_copied rows.entry)
        blanked.now before.now.pasts c.pasts) }
    ensures stop_over { IfErr result (NamesStop config.now.specs hour (option_copied rows.entry)
        blanked.now before.now.pasts) }
{
    let place = Place::new(alloc, hour, rows, blanked)?;
    forward_over(alloc, config, &place, before)
}

// The same over an hour that is opened.
fn forward_over(
    alloc: Global,
    config: &Config,
    place: &Place<'_>,
    before: &Carry,
) -> Result<Carry, ForwardError>
    requires fit { FitPoint config.now place.now.hour before.now }
    ensures fit { IfOk result (FitPoint config.now (place.now.hour + 1)) }
    ensures carry { IfOk result (λ c. (s : Store) → HasPlace s place.now
        → IsCarryAt config.now s place.now.hour before.now
        → IsCarryAt config.now s (place.now.hour + 1) c) }
    ensures stop { IfErr result (λ e. (s : Store) → HasPlace s place.now
        → IsCarryAt config.now s place.now.hour before.now
        → NamesRow (log_of config.now.specs s) e) }
    ensures over { IfOk result (λ c. ArePastsOver config.now.specs place.now.hour place.now.rows
        place.now.blanks before.now.pasts c.pasts) }
    ensures stop_over { IfErr result (NamesStop config.now.specs place.now.hour place.now.rows
        place.now.blanks before.now.pasts) }
{
    let pasts = states_over(alloc, config, place, before)?;
    let carry = carry_over(alloc, config, place, before, None, pasts)?;
    Ok(carry)
}

/// What is kept at the point after an hour that is opened, where these are the states of each
/// channel there, and these its courses, where they are made already. It needs no view, and makes no
/// numbers.
pub fn carry_over(
    alloc: Global,
    config: &Config,
    place: &Place<'_>,
    before: &Carry,
    courses: Option<&Courses>,
    pasts: Pasts,
) -> Result<Carry, NoMemory>
    requires courses { IfSome (option_copied courses) (AreCoursesOver config.now.specs
        place.now.hour place.now.rows place.now.blanks) }
    requires before { AreBefore config.now.specs before.now.pasts }
    requires over { ArePastsOver config.now.specs place.now.hour place.now.rows place.now.blanks
        before.now.pasts pasts }
    requires shape { AreBefore config.now.specs pasts }
    requires early { AllEarly (first_tenth (place.now.hour + 1)) pasts }
    ensures fit { IfOk result (FitPoint config.now (place.now.hour + 1)) }
    ensures pasts { IfOk result (λ c. c.pasts ≡ pasts) }
    ensures carry { IfOk result (λ c. (s : Store) → HasPlace s place.now
        → IsCarryAt config.now s place.now.hour before.now
        → IsCarryAt config.now s (place.now.hour + 1) c) }
{
    let way = way_over(alloc, config, place, before, courses)?;
    Ok(kept(place, pasts, way))
}

/// What is kept at the point after an hour, where these are the states of each channel there, and
/// this is under way.
pub(crate) fn kept(place: &Place<'_>, pasts: Pasts, way: UnderWay) -> Carry
    ensures pasts { result.pasts ≡ pasts }
    ensures carry { (c : Settings) (s : Store) → HasPlace s place.now
        → ArePastsAt (log_of c.specs s) (place.now.hour + 1) pasts
        → AreUnderWayAt c s (place.now.hour + 1) way → IsCarryAt c s (place.now.hour + 1) result }
{
    let UnderWay {
        cuts,
        closing,
        splits,
        others,
        arrivals,
    } = way;
    Carry {
        pasts,
        known: place.is_end_known(),
        cuts,
        closing,
        splits,
        others,
        arrivals,
    }
}

// The states of each channel at the point after an hour.
fn states_over(
    alloc: Global,
    config: &Config,
    place: &Place<'_>,
    before: &Carry,
) -> Result<Pasts, ForwardError>
    requires fit { FitPoint config.now place.now.hour before.now }
    ensures shape { IfOk result (λ p. AreBefore config.now.specs p
        × AllEarly (first_tenth (place.now.hour + 1)) p) }
    ensures stop { IfErr result (λ e. (s : Store) → HasPlace s place.now
        → IsCarryAt config.now s place.now.hour before.now
        → NamesRow (log_of config.now.specs s) e) }
    ensures over { IfOk result (λ p. ArePastsOver config.now.specs place.now.hour place.now.rows
        place.now.blanks before.now.pasts p) }
    ensures stop_over { IfErr result (NamesStop config.now.specs place.now.hour place.now.rows
        place.now.blanks before.now.pasts) }
{
    match pasts_over(alloc, config.specs(), place, &before.pasts) {
        Ok(pasts) => Ok(pasts),
        Err(error) => Err(forward_error(error)),
    }
}

/// The same backward: what is kept at the point before an hour, from what is kept at the one after
/// it.
pub fn backward(
    alloc: Global,
    config: &Config,
    hour: Hour,
    after: &Future,
    rows: Option<&[Row]>,
    blanked: &SpanSet,
) -> Result<Future, NoMemory>
    requires in_range { hour < 744 }
    requires of_hour { IfSome rows (λ r. AreRowsOf hour r.now) }
    requires fit { AreAheadsOf config.now.specs after.now }
    ensures fit { IfOk result (AreAheadsOf config.now.specs) }
    ensures future { IfOk result (λ f. (s : Store) → HasHour s hour (option_copied rows.entry)
        blanked.now → IsFutureAt config.now s (hour + 1) after.now
        → IsFutureAt config.now s hour f) }
    ensures over { IfOk result (AreAheadsOver config.now.specs hour (option_copied rows.entry)
        blanked.now after.now) }
{
    let place = Place::new(alloc, hour, rows, blanked)?;
    backward_over(alloc, config, &place, after)
}

/// `backward` over an hour that is opened.
pub fn backward_over(
    alloc: Global,
    config: &Config,
    place: &Place<'_>,
    after: &Future,
) -> Result<Future, NoMemory>
    requires fit { AreAheadsOf config.now.specs after.now }
    ensures fit { IfOk result (AreAheadsOf config.now.specs) }
    ensures future { IfOk result (λ f. (s : Store) → HasPlace s place.now
        → IsFutureAt config.now s (place.now.hour + 1) after.now
        → IsFutureAt config.now s place.now.hour f) }
    ensures over { IfOk result (AreAheadsOver config.now.specs place.now.hour place.now.rows
        place.now.blanks after.now) }
{
    let aheads = aheads_over(alloc, config.specs(), place, &after.aheads)?;
    Ok(Future { aheads })
}

/// The same, where these are the hour's courses and the states of each channel at the points before
/// it and after it: of a channel whose first few moves alone tell, no others are walked back.
pub fn backward_through(
    alloc: Global,
    config: &Config,
    place: &Place<'_>,
    courses: &Courses,
    states: &About<'_, Pasts>,
    after: &Future,
) -> Result<Future, NoMemory>
    requires courses { AreCoursesOver config.now.specs place.now.hour place.now.rows
        place.now.blanks courses.now }
    requires shape_before { AreBefore config.now.specs states.now.before.now }
    requires early { AllEarly (first_tenth place.now.hour) states.now.before.now }
    requires reached { AreBefore config.now.specs states.now.after.now }
    requires states { ArePastsOver config.now.specs place.now.hour place.now.rows place.now.blanks
        states.now.before.now states.now.after.now }
    requires fit { AreAheadsOf config.now.specs after.now }
    ensures fit { IfOk result (AreAheadsOf config.now.specs) }
    ensures future { IfOk result (λ f. (s : Store) → HasPlace s place.now
        → IsFutureAt config.now s (place.now.hour + 1) after.now
        → IsFutureAt config.now s place.now.hour f) }
    ensures over { IfOk result (AreAheadsOver config.now.specs place.now.hour place.now.rows
        place.now.blanks after.now) }
{
    let aheads = aheads_through(alloc, config.specs(), place, courses, states, &after.aheads)?;
    Ok(Future { aheads })
}

/// Why nothing is carried over an hour, where there are no states after it for this reason.
pub fn forward_error(error: PastsError) -> ForwardError
    ensures row { (log : Log) → NamesContradiction log error → NamesRow log result }
    ensures stop { (specs : List Spec) (hour : ℕ) (rows : Option (List Row)) (blanks : List Span)
        (before : List (List (List Span))) → NamesStopOver specs hour rows blanks before error
        → NamesStop specs hour rows blanks before result }
{
    match error {
        PastsError::NoState(row) => ForwardError::Contradiction(row),
        PastsError::Memory => ForwardError::Memory,
    }
}
