// What the entries of the tables are.
ghost use Rattle.std.specs.Prelude.{◌≡◌, ◌≤◌, length};
ghost use Rattle.ring_config.specs.Values.{has_pair, is_pair};

use colour_machine::Mask;
use event_codes::Kind;
use reach::AgeBound;
use sig_base::Frac;
use std::marker::Model;

/// Two phases: a pair in conflict, or one that is allowed.
#[derive(Clone, Copy, Debug, PartialEq, Eq)]
pub struct Pair {
    pub a: u8,
    pub b: u8,
}

// Whether the pair is of these two phases, in either order.
pub(crate) fn is_pair(pair: &Pair, a: u8, b: u8) -> bool
    ensures { result ≡ is_pair pair.now a b }
{
    (pair.a == a && pair.b == b) || (pair.a == b && pair.b == a)
}

// Whether one of the pairs is of these two.
pub(crate) fn has_pair(pairs: &[Pair], a: u8, b: u8) -> bool
    ensures { result ≡ has_pair pairs.now a b }
{
    pairs.iter().any(|pair| is_pair(pair, a, b))
}

/// An overlap with its parent phases.
#[derive(Clone, Copy, Debug, PartialEq, Eq)]
pub struct OverlapItem {
    /// 1 to 16.
    pub number: u8,
    /// 1 to 8 of them: bit `p - 1` for phase `p`.
    pub parents: Mask,
}

/// A channel that floors and interval rules may name: its place among the specs, and its kind.
#[derive(Clone, Copy, PartialEq, Eq)]
pub(crate) struct Named {
    pub(crate) spec: u16,
    pub(crate) kind: Kind,
}

/// The least age at which a colour of a channel may be left.
#[derive(Clone, Copy, PartialEq, Eq)]
pub(crate) struct FloorItem {
    pub(crate) spec: u16,
    pub(crate) colour: u8,
    pub(crate) tenths: u32,
}

/// An interval rule: how long a colour of a channel is to last.
#[derive(Clone, Copy, Debug, PartialEq, Eq)]
pub struct IntervalItem {
    /// The channel's place among the specs.
    pub spec: u16,
    pub colour: u8,
    /// 1 to 36,000 tenths of a second.
    pub bound: AgeBound,
}

/// The name of an approach: 1 to 32 letters, digits, `_` and `-`.
#[derive(Debug, Drop)]
pub struct Name {
    bytes: [u8; 32],
    len: usize,
}

impl Model for Name {
    ghost use Rattle.std.specs.Prelude.{List, ℕ, take, ◌≤◌};

    ghost Value = { List ℕ };

    ghost view = { λ n. take n.len n.bytes };

    ghost invariant = { λ n. n.len ≤ 32 };
}

impl Name {
    pub(crate) fn new(text: &[u8]) -> Name
        requires { length text.now ≤ 32 }
        ensures { result ≡ text.now }
    {
        let mut bytes = [0; 32];
        bytes[..text.len()].copy_from_slice(text);
        Name {
            bytes,
            len: text.len(),
        }
    }

    /// The characters of the name, all of them ASCII.
    pub fn bytes(&self) -> &[u8]
        ensures { result.now ≡ self.now }
    {
        &self.bytes[..self.len]
    }
}

/// An approach: the traffic that one phase serves, with its detectors.
#[derive(Debug, Drop)]
pub struct Approach {
    pub name: Name,
    /// A configured phase.
    pub phase: u8,
    /// The detector ahead of the stop bar, 1 to 128.
    pub advance: Option<u8>,
    /// The detector at the stop bar, 1 to 128.
    pub stop_bar: Option<u8>,
    /// The share of a green or red time from which on a detector counts as occupied, at most 1.
    pub high: Frac,
    /// The time from the advance detector to the stop bar, 0 to 300 tenths of a second; 0 where there
    /// is no such detector.
    pub travel: u32,
}
