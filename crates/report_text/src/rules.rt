// The names of audit rules.
ghost use Rattle.std.specs.Prelude.{◌≡◌, ◌∷◌, [], codes, decimal, slice_get, option_map};
ghost use Rattle.outside.specs.Sink.{Puts};
ghost use Rattle.report_text.specs.Rules.{bound_text, colour_text, coloured_text, interval_text, joined, kind_text, rule_name};

use channel_tables::{Spec, colour_name};
use event_codes::{Channel, Kind};
use itoa::Buffer;
use outside::{PutFailed, Sink, put_parts};
use reach::AgeBound;
use ring_config::{Config, IntervalItem};
use rule_audit::Rule;

pub(crate) fn kind_text(kind: Kind) -> &'static str
    ensures { result.now ≡ kind_text kind }
{
    match kind {
        Kind::Phase => "phase",
        Kind::Ped => "ped",
        Kind::Overlap => "overlap",
        Kind::PreemptService => "preempt",
        Kind::Detector => "detector",
        Kind::PedDetector => "ped detector",
        Kind::PreemptInput => "preempt input",
        Kind::Coordination => "coordination",
    }
}

pub(crate) fn colour_text(kind: Kind, colour: u8) -> &'static str
    ensures { result.now ≡ colour_text kind colour }
{
    match colour_name(kind, colour) {
        Some(name) => name,
        None => "",
    }
}

fn put_coloured<K: Sink>(channel: Channel, colour: u8, sink: &mut K) -> Result<(), PutFailed>
    ensures { Puts (K.taken sink.old) (K.taken sink.new) (coloured_text channel colour) result }
{
    let mut number = Buffer::new();
    put_parts(
        sink,
        &[
            kind_text(channel.kind).as_bytes(),
            b" ",
            number.format(channel.number).as_bytes(),
            b" ",
            colour_text(channel.kind, colour).as_bytes(),
        ],
    )
}

fn put_bound<K: Sink>(bound: AgeBound, sink: &mut K) -> Result<(), PutFailed>
    ensures { Puts (K.taken sink.old) (K.taken sink.new) (bound_text bound) result }
{
    let mut age = Buffer::new();
    match bound {
        AgeBound::Any => Ok(()),
        AgeBound::AtLeast(n) => put_parts(sink, &[b" at least ", age.format(n).as_bytes()]),
        AgeBound::AtMost(n) => put_parts(sink, &[b" at most ", age.format(n).as_bytes()]),
    }
}

fn put_interval<K: Sink>(
    spec: Option<&Spec>,
    item: IntervalItem,
    sink: &mut K,
) -> Result<(), PutFailed>
    ensures { Puts (K.taken sink.old) (K.taken sink.new)
        (interval_text (option_map (λ s. s.now) spec.entry) item) result }
{
    let Some(spec) = spec else {
        return Ok(());
    };
    put_coloured(spec.channel, item.colour, sink)?;
    put_bound(item.bound, sink)
}

fn put_pair<K: Sink>(a: u8, b: u8, sink: &mut K) -> Result<(), PutFailed>
    ensures { Puts (K.taken sink.old) (K.taken sink.new)
        (joined (codes "conflict " ∷ decimal a ∷ codes " " ∷ decimal b ∷ [])) result }
{
    let mut first = Buffer::new();
    let mut second = Buffer::new();
    put_parts(
        sink,
        &[
            b"conflict ",
            first.format(a).as_bytes(),
            b" ",
            second.format(b).as_bytes(),
        ],
    )
}

fn put_numbered<K: Sink>(word: &[u8], number: u8, sink: &mut K) -> Result<(), PutFailed>
    ensures { Puts (K.taken sink.old) (K.taken sink.new) (joined (word.now ∷ decimal number ∷ []))
        result }
{
    let mut of = Buffer::new();
    put_parts(sink, &[word, of.format(number).as_bytes()])
}

/// Writes the name of a rule: the channel, its colour and the age, or `conflict`, `companion` or
/// `parents` with the numbers.
pub(crate) fn put_rule_name<K: Sink>(
    config: &Config,
    rule: &Rule,
    sink: &mut K,
) -> Result<(), PutFailed>
    ensures { Puts (K.taken sink.old) (K.taken sink.new) (rule_name config.now.specs rule.now)
        result }
{
    match rule {
        Rule::Interval(item) => {
            put_interval(config.specs().get(item.spec as usize), *item, sink)
        }
        Rule::Conflict(a, b, _) => put_pair(*a, *b, sink),
        Rule::Companion(ped, _) => put_numbered(b"companion ", *ped, sink),
        Rule::Parents(overlap, _) => put_numbered(b"parents ", *overlap, sink),
    }
}
