// One event of a channel.
ghost use Rattle.std.specs.Prelude.{◌≡◌, ◌↔◌, ◌<◌, pos, ◌+ℤ◌, ◌≤ℤ◌, IsTrue, Some};
ghost use Rattle.channel_tables.specs.Any.{any_rules};
ghost use Rattle.board.specs.Channels.{is_channel};
ghost use Rattle.reach.specs.Runs.{Step};
ghost use Rattle.filling_pair.specs.Walking.{IsEnd, Moves, letter_on, state_of, track_of};

use channel_tables::{AnyMachine, letter_of};
use colour_machine::Machine;
use event_codes::{Channel, channel_of};
use sig_base::{Row, Tenth};

/// A colour, and the tenth at which it was entered.
#[derive(Clone, Copy)]
pub(crate) struct Stand {
    pub(crate) colour: u8,
    pub(crate) entry: Tenth,
}

/// A channel with its machine.
#[derive(Clone, Copy)]
pub(crate) struct Follower {
    pub(crate) channel: Channel,
    pub(crate) machine: AnyMachine,
}

fn is_same(own: Channel, channel: Channel) -> bool
    ensures { result ≡ is_channel own (Some channel) }
{
    own == channel
}

/// The letter of the channel that the code and the parameter are, if they are one.
pub(crate) fn letter_on(channel: Channel, code: u8, param: u16) -> Option<u8>
    ensures { result ≡ letter_on channel code param }
{
    let own = channel_of(code, param)?;
    if is_same(channel, own) {
        return letter_of(code, param);
    }
    None
}

// Whether the state has this age at the tenth.
fn is_old(here: Stand, age: u32, at: u32) -> bool
    ensures { IsTrue result ↔ ((here.entry +ℤ pos age) ≤ℤ pos at) }
{
    here.entry <= i64::from(at) - i64::from(age)
}

// The colour, entered at the tenth.
fn entered(colour: u8, at: u32) -> Stand
    ensures colour { result.colour ≡ colour }
    ensures entry { result.entry ≡ pos at }
{
    Stand {
        colour,
        entry: i64::from(at),
    }
}

// The state to which the letter leads at the tenth, or `None` where it isn't legal.
fn step_at(machine: &AnyMachine, here: Stand, at: u32, letter: u8) -> Option<Stand>
    requires { here.colour < (any_rules machine.now).colours }
    ensures { IsEnd (any_rules machine.now)
        (Step (any_rules machine.now) (pos at) (state_of here) letter) result }
{
    if letter >= machine.letters() {
        return None;
    }
    let Some(next) = machine.step(here.colour, letter) else {
        return None;
    };
    if next == here.colour {
        return Some(here);
    }
    if !is_old(here, machine.floor(here.colour), at) {
        return None;
    }
    Some(entered(next, at))
}

/// The state after the row, which stays the same where the row isn't the channel's; `None` where
/// the row isn't legal.
pub(crate) fn move_on(follower: &Follower, here: Stand, row: Row) -> Option<Stand>
    requires { here.colour < (any_rules follower.now.machine).colours }
    ensures { IsEnd (any_rules follower.now.machine)
        (Moves (track_of follower.now) row (state_of here)) result }
{
    match letter_on(follower.channel, row.code, row.param) {
        Some(letter) => step_at(&follower.machine, here, row.at, letter),
        None => Some(here),
    }
}
