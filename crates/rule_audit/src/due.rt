// Which channels a row concerns.
ghost use Rattle.std.specs.Prelude.{◌≡◌, ◌<◌, Some, length, slice_index_or};
ghost use Rattle.std.specs.List.{list_any};
ghost use Rattle.board.specs.Channels.{is_channel};
ghost use Rattle.board.specs.Logs.{no_spec};
ghost use Rattle.board.specs.Verdicts.{AreWithin};

use board::Term;
use channel_tables::Spec;
use event_codes::Channel;

fn is_same(a: Channel, b: Channel) -> bool
    ensures { result ≡ is_channel a (Some b) }
{
    a == b
}

/// Whether the channel is that of the spec with this place.
pub(crate) fn is_of(specs: &[Spec], spec: u16, channel: Option<Channel>) -> bool
    requires { spec < length specs.now }
    ensures { result ≡ is_channel (slice_index_or specs.now spec no_spec).channel channel }
{
    match channel {
        Some(channel) => is_same(specs[spec as usize].channel, channel),
        None => false,
    }
}

/// Whether the channel is that of a term.
pub(crate) fn is_of_some(specs: &[Spec], terms: &[Term], channel: Option<Channel>) -> bool
    requires { AreWithin (length specs.now) terms.now }
    ensures { result ≡ list_any (λ c. is_channel (slice_index_or specs.now c.spec no_spec).channel
        channel) terms.now }
{
    for term in terms {
        if is_of(specs, term.spec, channel) {
            return true;
        }
    }
    false
}
