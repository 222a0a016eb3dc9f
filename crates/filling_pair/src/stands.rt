// Whether one strand is one, and its state at the place of a line.
ghost use Rattle.std.specs.Prelude.{◌≡◌, ◌↔◌, ◌/◌, ◌<◌, IsTrue, [], ◌∷◌, length, slice_index_or, All};
ghost use Rattle.channel_tables.specs.Spec.{IsSpec, rules_of};
ghost use Rattle.hour_store.specs.Store.{is_known};
ghost use Rattle.board.specs.Channels.{track};
ghost use Rattle.board.specs.Logs.{no_spec};
ghost use Rattle.signal_log.specs.Log.{IsBeforeWindow, log_of};
ghost use Rattle.filling_pair.specs.Strands.{IsStrand, start_of};
ghost use Rattle.filling_pair.specs.Kept.{IsPlaced};
ghost use Rattle.sig_base.specs.Reads.{Grow};
ghost use Rattle.filling_pair.specs.Walking.{FillsFrom, Fits, IsStood, track_of};

use crate::hours::follow;
use crate::step::{Follower, Stand, letter_on};
use crate::strands::{Fill, Strand};
use channel_tables::{Spec, machine_of};
use colour_machine::Machine;
use hour_store::HourStore;
use rule_audit::AuditLine;
use sig_base::Reads;

// The channel of the spec, with its machine.
fn follower_of(spec: &Spec) -> Follower
    requires { IsSpec spec.now }
    ensures { track_of result ≡ track spec.now }
{
    Follower {
        channel: spec.channel,
        machine: machine_of(spec),
    }
}

/// Whether the tenth is known.
pub(crate) fn is_known<L>(store: &HourStore<L>, at: u32) -> bool
    requires { at / 36000 < length store.now.hours }
    ensures { result ≡ is_known store.now at }
{
    store.is_held(at / 36_000) && !store.blanked().contains(i64::from(at))
}

// Whether the fill is a letter of the channel at an unknown tenth of the window, at the first tenth
// or a later one.
fn is_fill<L>(follower: &Follower, store: &HourStore<L>, low: u32, fill: Fill) -> bool
    ensures { IsTrue result ↔ FillsFrom follower.now store.now low (fill ∷ []) }
{
    if fill.at < low || 36_000 * store.hours() <= fill.at {
        return false;
    }
    if is_known(store, fill.at) {
        return false;
    }
    letter_on(follower.channel, fill.code, fill.param).is_some()
}

// Whether these can be the fills of the channel.
fn are_fills<L>(follower: &Follower, store: &HourStore<L>, fills: &[Fill]) -> bool
    ensures { IsTrue result ↔ FillsFrom follower.now store.now 0 fills.now }
{
    let mut low = 0;
    for fill in fills {
        if !is_fill(follower, store, low, *fill) {
            return false;
        }
        low = fill.at;
    }
    true
}

// The channel with this place among the specs, with its machine.
fn follower_at(specs: &[Spec], spec: u16) -> Follower
    requires specs { All IsSpec specs.now }
    requires within { spec < length specs.now }
    ensures { track_of result ≡ track (slice_index_or specs.now spec no_spec) }
{
    follower_of(&specs[spec as usize])
}

// Whether the strand starts before the window, with a colour of the machine.
fn is_start(follower: &Follower, strand: &Strand) -> bool
    ensures { IsTrue result ↔ IsBeforeWindow (track_of follower.now).rules (start_of strand.now) }
{
    strand.colour < follower.machine.colours() && strand.entry < 0
}

/// Whether a strand is one, and its state at the place of a line.
#[derive(Clone, Copy)]
pub(crate) struct Stood {
    pub(crate) is_strand: bool,
    pub(crate) there: Option<Stand>,
}

/// Whether the strand is one of the store, and if so its state at the line's place. The hours are
/// opened where its start and its fills are good.
#[tactic(auto, using(crate::proofs::Growing::grow_on, crate::proofs::Growing::grow_same))]
pub(crate) fn stand_of<L>(
    specs: &[Spec],
    store: &HourStore<L>,
    line: &AuditLine,
    strand: &Strand,
    reads: &mut Reads<L>,
) -> Stood
    requires specs { All IsSpec specs.now }
    requires line { IsPlaced store.now line.now }
    ensures strand { IsTrue result.is_strand ↔ IsStrand (log_of specs.now store.now) strand.now }
    ensures there { IsTrue result.is_strand
        → IsStood specs.now store.now line.now strand.now result.there }
    ensures fits { Fits (rules_of (slice_index_or specs.now strand.now.spec no_spec)) result.there }
    ensures grow { Grow reads.old reads.new }
{
    let none = Stood {
        is_strand: false,
        there: None,
    };
    if strand.spec as usize >= specs.len() {
        return none;
    }
    let follower = follower_at(specs, strand.spec);
    if !is_start(&follower, strand) {
        return none;
    }
    if !are_fills(&follower, store, strand.fills.list()) {
        return none;
    }
    let followed = follow(&follower, store, line, strand, reads);
    Stood {
        is_strand: followed.is_legal,
        there: followed.there,
    }
}
