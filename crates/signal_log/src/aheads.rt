// The states of each channel that can be completed, from one hour point to the one before it.
ghost use Rattle.std.specs.Prelude.{◌<◌, ◌+◌, option_copied, IfSome, IfOk};
ghost use Rattle.sig_base.specs.HourRows.{AreRowsOf};
ghost use Rattle.hour_store.specs.Store.{Store};
ghost use Rattle.board.specs.Channels.{AreSpecs};
ghost use Rattle.board.specs.Logs.{first_tenth};
ghost use Rattle.board.specs.Stops.{AreBefore};
ghost use Rattle.board.specs.Places.{AllEarly, AreAheadsOf};
ghost use Rattle.signal_log.specs.Log.{log_of};
ghost use Rattle.signal_log.specs.Opened.{HasPlace};
ghost use Rattle.signal_log.specs.Points.{AreAheadsAt, HasHour};
ghost use Rattle.signal_log.specs.Over.{AreAheadsOver, AreCoursesOver, ArePastsOver};

use crate::place::Place;
use board::{About, Aheads, Courses, Pasts, aheads_along, aheads_between};
use channel_tables::Spec;
use sig_base::{Hour, NoMemory, Row};
use span_set::SpanSet;
use std::alloc::Global;

/// The states of each channel, entered before the hour, that can be completed to the window's end,
/// from those at the point after it, where these rows are held of the hour (`None`: it isn't held)
/// and these tenths are blanked.
pub fn aheads_before(
    alloc: Global,
    specs: &[Spec],
    hour: Hour,
    after: &Aheads,
    rows: Option<&[Row]>,
    blanked: &SpanSet,
) -> Result<Aheads, NoMemory>
    requires specs { AreSpecs specs.now }
    requires hour { hour < 744 }
    requires rows { IfSome rows (λ s. AreRowsOf hour s.now) }
    requires shape { AreAheadsOf specs.now after.now }
    ensures shape { IfOk result (λ a. AreAheadsOf specs.now a) }
    ensures aheads { IfOk result (λ a. (s : Store) → HasHour s hour (option_copied rows.entry)
        blanked.now → AreAheadsAt (log_of specs.now s) (hour + 1) after.now
        → AreAheadsAt (log_of specs.now s) hour a) }
    ensures over { IfOk result (AreAheadsOver specs.now hour (option_copied rows.entry) blanked.now
        after.now) }
{
    let place = Place::new(alloc, hour, rows, blanked)?;
    aheads_over(alloc, specs, &place, after)
}

/// The same, of an hour that is opened.
pub fn aheads_over(
    alloc: Global,
    specs: &[Spec],
    place: &Place<'_>,
    after: &Aheads,
) -> Result<Aheads, NoMemory>
    requires specs { AreSpecs specs.now }
    requires shape { AreAheadsOf specs.now after.now }
    ensures shape { IfOk result (λ a. AreAheadsOf specs.now a) }
    ensures aheads { IfOk result (λ a. (s : Store) → HasPlace s place.now
        → AreAheadsAt (log_of specs.now s) (place.now.hour + 1) after.now
        → AreAheadsAt (log_of specs.now s) place.now.hour a) }
    ensures over { IfOk result (AreAheadsOver specs.now place.now.hour place.now.rows
        place.now.blanks after.now) }
{
    let courses = place.courses(alloc, specs)?;
    aheads_along(alloc, specs, after, place.stretches(), &courses)
}

/// The same, where these are the hour's courses and the states of each channel at the points before
/// it and after it: of a channel whose first few moves alone tell, no others are walked back.
pub fn aheads_through(
    alloc: Global,
    specs: &[Spec],
    place: &Place<'_>,
    courses: &Courses,
    states: &About<'_, Pasts>,
    after: &Aheads,
) -> Result<Aheads, NoMemory>
    requires specs { AreSpecs specs.now }
    requires courses { AreCoursesOver specs.now place.now.hour place.now.rows place.now.blanks
        courses.now }
    requires shape_before { AreBefore specs.now states.now.before.now }
    requires early { AllEarly (first_tenth place.now.hour) states.now.before.now }
    requires reached { AreBefore specs.now states.now.after.now }
    requires states { ArePastsOver specs.now place.now.hour place.now.rows place.now.blanks
        states.now.before.now states.now.after.now }
    requires shape { AreAheadsOf specs.now after.now }
    ensures shape { IfOk result (λ a. AreAheadsOf specs.now a) }
    ensures aheads { IfOk result (λ a. (s : Store) → HasPlace s place.now
        → AreAheadsAt (log_of specs.now s) (place.now.hour + 1) after.now
        → AreAheadsAt (log_of specs.now s) place.now.hour a) }
    ensures over { IfOk result (AreAheadsOver specs.now place.now.hour place.now.rows
        place.now.blanks after.now) }
{
    aheads_between(alloc, specs, states, after, place.stretches(), courses)
}
