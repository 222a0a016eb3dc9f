// The states of each channel from one hour point to the next.
ghost use Rattle.std.specs.Prelude.{◌<◌, ◌+◌, option_copied, IfSome, IfOk, IfErr};
ghost use Rattle.sig_base.specs.HourRows.{AreRowsOf};
ghost use Rattle.hour_store.specs.Store.{Store};
ghost use Rattle.board.specs.Channels.{AreSpecs};
ghost use Rattle.board.specs.Logs.{first_tenth, end_tenth};
ghost use Rattle.board.specs.Stops.{AreBefore};
ghost use Rattle.board.specs.Places.{AllEarly};
ghost use Rattle.signal_log.specs.Log.{log_of};
ghost use Rattle.signal_log.specs.Opened.{HasPlace};
ghost use Rattle.signal_log.specs.Points.{ArePastsAt, HasHour, NamesContradiction};
ghost use Rattle.signal_log.specs.Over.{AreCoursesOver, ArePastsOver, NamesStopOver};

use crate::place::Place;
use board::{Courses, Pasts, PastsError, pasts_along};
use channel_tables::Spec;
use sig_base::{Hour, Row};
use span_set::SpanSet;
use std::alloc::Global;

/// The states of each channel at the point after an hour, from those at the point before it, where
/// these rows are held of the hour (`None`: it isn't held) and these tenths are blanked. `NoState`:
/// the log contradicts itself at this row, the first known one of the hour after which its channel
/// has no state.
pub fn pasts_after(
    alloc: Global,
    specs: &[Spec],
    hour: Hour,
    before: &Pasts,
    rows: Option<&[Row]>,
    blanked: &SpanSet,
) -> Result<Pasts, PastsError>
    requires specs { AreSpecs specs.now }
    requires hour { hour < 744 }
    requires rows { IfSome rows (λ s. AreRowsOf hour s.now) }
    requires shape { AreBefore specs.now before.now }
    requires early { AllEarly (first_tenth hour) before.now }
    ensures shape { IfOk result (λ p. AreBefore specs.now p × AllEarly (end_tenth hour) p) }
    ensures pasts { IfOk result (λ p. (s : Store) → HasHour s hour (option_copied rows.entry)
        blanked.now → ArePastsAt (log_of specs.now s) hour before.now
        → ArePastsAt (log_of specs.now s) (hour + 1) p) }
    ensures stop { IfErr result (λ e. (s : Store) → HasHour s hour (option_copied rows.entry)
        blanked.now → ArePastsAt (log_of specs.now s) hour before.now
        → NamesContradiction (log_of specs.now s) e) }
    ensures over { IfOk result (ArePastsOver specs.now hour (option_copied rows.entry) blanked.now
        before.now) }
    ensures stop_over { IfErr result (NamesStopOver specs.now hour (option_copied rows.entry)
        blanked.now before.now) }
{
    let place = Place::new(alloc, hour, rows, blanked)?;
    pasts_over(alloc, specs, &place, before)
}

/// The same, of an hour that is opened.
pub fn pasts_over(
    alloc: Global,
    specs: &[Spec],
    place: &Place<'_>,
    before: &Pasts,
) -> Result<Pasts, PastsError>
    requires specs { AreSpecs specs.now }
    requires shape { AreBefore specs.now before.now }
    requires early { AllEarly (first_tenth place.now.hour) before.now }
    ensures shape { IfOk result (λ p. AreBefore specs.now p
        × AllEarly (end_tenth place.now.hour) p) }
    ensures pasts { IfOk result (λ p. (s : Store) → HasPlace s place.now
        → ArePastsAt (log_of specs.now s) place.now.hour before.now
        → ArePastsAt (log_of specs.now s) (place.now.hour + 1) p) }
    ensures stop { IfErr result (λ e. (s : Store) → HasPlace s place.now
        → ArePastsAt (log_of specs.now s) place.now.hour before.now
        → NamesContradiction (log_of specs.now s) e) }
    ensures over { IfOk result (ArePastsOver specs.now place.now.hour place.now.rows
        place.now.blanks before.now) }
    ensures stop_over { IfErr result (NamesStopOver specs.now place.now.hour place.now.rows
        place.now.blanks before.now) }
{
    let courses = place.courses(alloc, specs)?;
    pasts_through(alloc, specs, place, &courses, before)
}

/// The same, where these are the hour's courses.
pub fn pasts_through(
    alloc: Global,
    specs: &[Spec],
    place: &Place<'_>,
    courses: &Courses,
    before: &Pasts,
) -> Result<Pasts, PastsError>
    requires specs { AreSpecs specs.now }
    requires courses { AreCoursesOver specs.now place.now.hour place.now.rows place.now.blanks
        courses.now }
    requires shape { AreBefore specs.now before.now }
    requires early { AllEarly (first_tenth place.now.hour) before.now }
    ensures shape { IfOk result (λ p. AreBefore specs.now p
        × AllEarly (end_tenth place.now.hour) p) }
    ensures pasts { IfOk result (λ p. (s : Store) → HasPlace s place.now
        → ArePastsAt (log_of specs.now s) place.now.hour before.now
        → ArePastsAt (log_of specs.now s) (place.now.hour + 1) p) }
    ensures stop { IfErr result (λ e. (s : Store) → HasPlace s place.now
        → ArePastsAt (log_of specs.now s) place.now.hour before.now
        → NamesContradiction (log_of specs.now s) e) }
    ensures over { IfOk result (ArePastsOver specs.now place.now.hour place.now.rows
        place.now.blanks before.now) }
    ensures stop_over { IfErr result (NamesStopOver specs.now place.now.hour place.now.rows
        place.now.blanks before.now) }
{
    pasts_along(
        alloc,
        specs,
        before,
        place.rows(),
        place.stretches(),
        courses,
    )
}
