// The numbers of the coordination.
ghost use Rattle.std.specs.Prelude.{◌≡◌, ◌<◌, ℕ, true, false, length, List, Option, option_copied, slice_index_or, IfSome};
ghost use Rattle.sig_base.specs.declared.values.Row.{Row};
ghost use Rattle.board.specs.Logs.{HourLog};
ghost use Rattle.detector_state.specs.declared.state_asked.Asked.TheVariants.{Colour};
ghost use Rattle.other_measures.specs.Hours.{HasRows, coord_after, no_coordination};
ghost use Rattle.other_measures.specs.States.{HasCoordination, HasTenths, IsWhatIsSeen, MetBy, coordination};

use crate::states::{Seen, tenths};
use crate::sums::CoordSum;
use detector_state::Asked;
use event_codes::{Channel, Kind};
use hour_sweep::{Watch, total};
use ring_config::Config;
use sig_base::{NoMemory, Row};

const COORDINATION: Channel = Channel {
    kind: Kind::Coordination,
    number: 0,
};

/// Nothing of the coordination.
pub(crate) fn no_coordination() -> CoordSum
    ensures { result ≡ no_coordination }
{
    CoordSum {
        tenths: [0; 7],
        undecided: 0,
        patterns: 0,
        cycle_changes: 0,
        yields: 0,
        begins: 0,
    }
}

// Of each row of the coordination's codes one more.
impl Watch for CoordSum {
    ghost after = { coord_after };

    ghost cleared = { λ s. s };

    fn row(&mut self, row: &Row) -> Result<(), NoMemory> {
        match row.code {
            131 => self.patterns = total(self.patterns, 1),
            132 => self.cycle_changes = total(self.cycle_changes, 1),
            151 => self.yields = total(self.yields, 1),
            152 => self.begins = total(self.begins, 1),
            _ => {}
        }
        Ok(())
    }

    fn gap(&mut self) {}
}

// The tenths in each state.
fn state_tenths(config: &Config, seen: Option<&Seen<'_>>) -> [u64; 7]
    requires view { IfSome seen (λ s. length s.now.view.now.specs ≡ length config.now.specs) }
    requires on { config.now.coordination ≡ true }
    ensures size { length result ≡ 7 }
    ensures tenths { (log : Option HourLog) (first : ℕ)
        → IsWhatIsSeen config.now (option_copied seen.entry) log first → (q : ℕ) → q < 7
        → HasTenths (MetBy log) first config.now coordination (Colour q)
        (slice_index_or result q 0) }
{
    let mut all = [0; 7];
    for state in 0..7u8 {
        all[usize::from(state)] = tenths(config, seen, COORDINATION, Asked::Colour(state));
    }
    all
}

/// The numbers of the coordination, from those of its rows.
pub(crate) fn coordination_of(
    config: &Config,
    seen: Option<&Seen<'_>>,
    counted: CoordSum,
) -> CoordSum
    requires view { IfSome seen (λ s. length s.now.view.now.specs ≡ length config.now.specs) }
    ensures rows { config.now.coordination ≡ true → (rows : List Row) → HasRows rows counted
        → HasRows rows result }
    ensures states { config.now.coordination ≡ true → (log : Option HourLog) (first : ℕ)
        → IsWhatIsSeen config.now (option_copied seen.entry) log first
        → HasCoordination (MetBy log) first config.now result }
    ensures off { config.now.coordination ≡ false → result ≡ no_coordination }
{
    if !config.coordination() {
        return no_coordination();
    }
    CoordSum {
        tenths: state_tenths(config, seen),
        undecided: tenths(config, seen, COORDINATION, Asked::NoneOf(7)),
        ..counted
    }
}
