// The same steps of an hour again, from other states about it: only the channels that differ are
// gone through anew.
ghost use Rattle.std.specs.Prelude.{◌<◌, ◌+◌, IfOk, IfErr};
ghost use Rattle.hour_store.specs.Store.{Store};
ghost use Rattle.board.specs.Channels.{AreSpecs};
ghost use Rattle.board.specs.Logs.{first_tenth, end_tenth};
ghost use Rattle.board.specs.Stops.{AreBefore};
ghost use Rattle.board.specs.Places.{AllEarly, AreAheadsOf};
ghost use Rattle.signal_log.specs.Log.{log_of};
ghost use Rattle.signal_log.specs.Opened.{HasPlace};
ghost use Rattle.signal_log.specs.Points.{AreAheadsAt, ArePastsAt, NamesContradiction};
ghost use Rattle.signal_log.specs.Over.{AreAheadsOver, ArePastsOver, NamesStopOver};

use crate::place::Place;
use board::{About, Aheads, Pasts, PastsError, aheads_again, pasts_again};
use channel_tables::Spec;
use sig_base::NoMemory;
use std::alloc::Global;

/// The same as `aheads_over`, of an hour of which it was answered before: from the one after the
/// hour came the one before it. Only the channels that admit other states after the hour than then
/// are gone through, where they are few.
pub fn aheads_over_again(
    alloc: Global,
    specs: &[Spec],
    place: &Place<'_>,
    after: &Aheads,
    was: &About<'_, Aheads>,
) -> Result<Aheads, NoMemory>
    requires specs { AreSpecs specs.now }
    requires shape { AreAheadsOf specs.now after.now }
    requires was_before { AreAheadsOf specs.now was.now.before.now }
    requires was_after { AreAheadsOf specs.now was.now.after.now }
    requires was { AreAheadsOver specs.now place.now.hour place.now.rows place.now.blanks
        was.now.after.now was.now.before.now }
    ensures shape { IfOk result (λ a. AreAheadsOf specs.now a) }
    ensures aheads { IfOk result (λ a. (s : Store) → HasPlace s place.now
        → AreAheadsAt (log_of specs.now s) (place.now.hour + 1) after.now
        → AreAheadsAt (log_of specs.now s) place.now.hour a) }
    ensures over { IfOk result (AreAheadsOver specs.now place.now.hour place.now.rows
        place.now.blanks after.now) }
{
    aheads_again(
        alloc,
        specs,
        after,
        was.after,
        was.before,
        place.rows(),
        place.stretches(),
    )
}

/// The same as `pasts_over`, of an hour of which it was answered before: from the one before the
/// hour came the one after it. Only the channels that have other states before the hour than then
/// are gone through, where they are few.
pub fn pasts_over_again(
    alloc: Global,
    specs: &[Spec],
    place: &Place<'_>,
    before: &Pasts,
    was: &About<'_, Pasts>,
) -> Result<Pasts, PastsError>
    requires specs { AreSpecs specs.now }
    requires shape { AreBefore specs.now before.now }
    requires early { AllEarly (first_tenth place.now.hour) before.now }
    requires was_shape { AreBefore specs.now was.now.after.now }
    requires was { ArePastsOver specs.now place.now.hour place.now.rows place.now.blanks
        was.now.before.now was.now.after.now }
    ensures shape { IfOk result (λ p. AreBefore specs.now p
        × AllEarly (end_tenth place.now.hour) p) }
    ensures pasts { IfOk result (λ p. (s : Store) → HasPlace s place.now
        → ArePastsAt (log_of specs.now s) place.now.hour before.now
        → ArePastsAt (log_of specs.now s) (place.now.hour + 1) p) }
    ensures stop { IfErr result (λ e. (s : Store) → HasPlace s place.now
        → ArePastsAt (log_of specs.now s) place.now.hour before.now
        → NamesContradiction (log_of specs.now s) e) }
    ensures over { IfOk result (ArePastsOver specs.now place.now.hour place.now.rows
        place.now.blanks before.now) }
    ensures stop_over { IfErr result (NamesStopOver specs.now place.now.hour place.now.rows
        place.now.blanks before.now) }
{
    pasts_again(
        alloc,
        specs,
        before,
        was.before,
        was.after,
        place.rows(),
        place.stretches(),
    )
}
