// Back over an hour that was gone through before from other states: only the channels with other
// states are gone through anew.
ghost use Rattle.std.specs.Prelude.{◌+◌, IfOk};
ghost use Rattle.hour_store.specs.Store.{Store};
ghost use Rattle.board.specs.Places.{AreAheadsOf};
ghost use Rattle.signal_log.specs.Opened.{HasPlace};
ghost use Rattle.signal_log.specs.Over.{AreAheadsOver};
ghost use Rattle.hour_work.specs.Points.{ComesBack, IsFutureAt};

use crate::Future;
use board::About;
use ring_config::Config;
use sig_base::NoMemory;
use signal_log::{Place, aheads_over_again};
use std::alloc::Global;

/// `backward_over` of an hour of which it was said before, from other states at the point after it:
/// the channels that had the same ones there have those that they had at the point before it.
pub fn backward_again(
    alloc: Global,
    config: &Config,
    place: &Place<'_>,
    after: &Future,
    was: &About<'_, Future>,
) -> Result<Future, NoMemory>
    requires fit { AreAheadsOf config.now.specs after.now }
    requires was { ComesBack config.now place.now.hour place.now.rows place.now.blanks
        was.now.after.now was.now.before.now }
    ensures fit { IfOk result (AreAheadsOf config.now.specs) }
    ensures future { IfOk result (λ f. (s : Store) → HasPlace s place.now
        → IsFutureAt config.now s (place.now.hour + 1) after.now
        → IsFutureAt config.now s place.now.hour f) }
    ensures over { IfOk result (AreAheadsOver config.now.specs place.now.hour place.now.rows
        place.now.blanks after.now) }
{
    let was_before = was.before;
    let was_after = was.after;
    let kept = About {
        before: &was_before.aheads,
        after: &was_after.aheads,
    };
    let specs = config.specs();
    let aheads = aheads_over_again(alloc, specs, place, &after.aheads, &kept)?;
    Ok(Future { aheads })
}
