// The tenths of states of one channel.
ghost use Rattle.std.specs.Prelude.{◌≡◌, ◌<◌, ℕ, true, length, Option, option_copied, IfSome};
ghost use Rattle.board.specs.Logs.{HourLog};
ghost use Rattle.ring_config.specs.Settings.{Settings, is_tracked};
ghost use Rattle.detector_state.specs.States.{IsAsked, IsCount};
ghost use Rattle.other_measures.specs.States.{HasTenths, IsWhatIsSeen, MetBy};

use board::HourView;
use detector_state::{Asked, tenths_of};
use event_codes::Channel;
use ring_config::Config;

/// What is seen of an hour.
#[derive(Drop)]
pub(crate) struct Seen<'a> {
    pub(crate) view: &'a HourView,
    /// The hour's first tenth.
    pub(crate) from: u32,
}

// The known tenths of the hour at whose end the channel with this place among the specs meets what
// is asked, none where nothing is seen.
fn tenths_at(seen: Option<&Seen<'_>>, spec: u16, asked: Asked) -> u64
    requires within { IfSome seen (λ s. spec < length s.now.view.now.specs) }
    requires asked { IsAsked asked }
    ensures { (c : Settings) (log : Option HourLog) (first : ℕ)
        → IsWhatIsSeen c (option_copied seen.entry) log first
        → IsCount (MetBy log spec asked) first 36000 result }
{
    match seen {
        Some(seen) => u64::from(tenths_of(seen.view, spec, asked, seen.from)),
        None => 0,
    }
}

/// Those of a tracked channel.
pub(crate) fn tenths(
    config: &Config,
    seen: Option<&Seen<'_>>,
    channel: Channel,
    asked: Asked,
) -> u64
    requires view { IfSome seen (λ s. length s.now.view.now.specs ≡ length config.now.specs) }
    requires tracked { is_tracked config.now channel ≡ true }
    requires asked { IsAsked asked }
    ensures { (log : Option HourLog) (first : ℕ)
        → IsWhatIsSeen config.now (option_copied seen.entry) log first
        → HasTenths (MetBy log) first config.now channel asked result }
{
    match config.spec_of(channel) {
        Some(spec) => tenths_at(seen, spec, asked),
        None => 0,
    }
}
