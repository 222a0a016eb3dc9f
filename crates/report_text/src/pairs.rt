// What keeps and what breaks an undecided line.
ghost use Rattle.std.specs.Prelude.{◌≡◌, ◌<◌, ◌*◌, ◌++◌, codes, flat_map, option_map, slice_get, unsigned_abs};
ghost use Rattle.outside.specs.Sink.{Puts};
ghost use Rattle.report_text.specs.Pairs.{AreFillsIn, AreStrandsIn, IsPairIn, channel_line, fill_line, pair_text, side_text, start_line, strand_text, strands_text, undecided_line};

use crate::rules::{colour_text, kind_text};
use channel_tables::Spec;
use event_codes::Channel;
use filling_pair::{Fill, Pair, Strand};
use itoa::Buffer;
use outside::{PutFailed, Sink, put_parts};
use ring_config::Config;
use rule_audit::AuditLine;
use sig_base::Window;

fn put_fill<K: Sink>(window: &Window, fill: Fill, sink: &mut K) -> Result<(), PutFailed>
    requires { fill.at < 36000 * window.now.hours }
    ensures { Puts (K.taken sink.old) (K.taken sink.new) (fill_line window.now fill) result }
{
    let stamp = window.stamp(fill.at);
    let mut code = Buffer::new();
    let mut param = Buffer::new();
    put_parts(
        sink,
        &[
            b"fill ",
            &stamp,
            b" code ",
            code.format(fill.code).as_bytes(),
            b" param ",
            param.format(fill.param).as_bytes(),
            b"\n",
        ],
    )
}

fn put_fills<K: Sink>(window: &Window, fills: &[Fill], sink: &mut K) -> Result<(), PutFailed>
    requires { AreFillsIn window.now fills.now }
    ensures { Puts (K.taken sink.old) (K.taken sink.new) (flat_map (fill_line window.now) fills.now)
        result }
{
    for fill in fills {
        put_fill(window, *fill, sink)?;
    }
    Ok(())
}

// For how many tenths the strand's colour was had before the window.
fn age_of(strand: &Strand) -> u64
    ensures { result ≡ unsigned_abs strand.now.entry }
{
    let entry = strand.entry;
    entry.unsigned_abs()
}

fn put_channel<K: Sink>(
    channel: Channel,
    colour: u8,
    age: u64,
    sink: &mut K,
) -> Result<(), PutFailed>
    ensures { Puts (K.taken sink.old) (K.taken sink.new) (channel_line channel colour age) result }
{
    let mut number = Buffer::new();
    let mut since = Buffer::new();
    put_parts(
        sink,
        &[
            b"channel ",
            kind_text(channel.kind).as_bytes(),
            b" ",
            number.format(channel.number).as_bytes(),
            b" from ",
            colour_text(channel.kind, colour).as_bytes(),
            b" ",
            since.format(age).as_bytes(),
            b"\n",
        ],
    )
}

fn put_start<K: Sink>(spec: Option<&Spec>, strand: &Strand, sink: &mut K) -> Result<(), PutFailed>
    ensures { Puts (K.taken sink.old) (K.taken sink.new)
        (start_line (option_map (λ s. s.now) spec.entry) strand.now) result }
{
    match spec {
        Some(spec) => put_channel(spec.channel, strand.colour, age_of(strand), sink),
        None => Ok(()),
    }
}

// The channel at this place among the specs.
fn spec_at(config: &Config, place: u16) -> Option<&Spec>
    ensures { option_map (λ s. s.now) result ≡ slice_get config.now.specs place }
{
    config.specs().get(place as usize)
}

fn put_strand<K: Sink>(config: &Config, strand: &Strand, sink: &mut K) -> Result<(), PutFailed>
    requires { AreFillsIn config.now.window strand.now.fills }
    ensures { Puts (K.taken sink.old) (K.taken sink.new)
        (strand_text config.now strand.now) result }
{
    put_start(spec_at(config, strand.spec), strand, sink)?;
    put_fills(config.window(), strand.fills.list(), sink)
}

fn put_strands<K: Sink>(config: &Config, strands: &[Strand], sink: &mut K) -> Result<(), PutFailed>
    requires { AreStrandsIn config.now.window strands.now }
    ensures { Puts (K.taken sink.old) (K.taken sink.new) (strands_text config.now strands.now)
        result }
{
    for strand in strands {
        put_strand(config, strand, sink)?;
    }
    Ok(())
}

fn put_side<K: Sink>(
    config: &Config,
    word: &[u8],
    strands: &[Strand],
    sink: &mut K,
) -> Result<(), PutFailed>
    requires { AreStrandsIn config.now.window strands.now }
    ensures { Puts (K.taken sink.old) (K.taken sink.new) (side_text config.now word.now strands.now)
        result }
{
    put_parts(sink, &[word, b"\n"])?;
    put_strands(config, strands, sink)
}

fn put_sides<K: Sink>(config: &Config, pair: &Pair, sink: &mut K) -> Result<(), PutFailed>
    requires { IsPairIn config.now.window pair.now }
    ensures { Puts (K.taken sink.old) (K.taken sink.new)
        (side_text config.now (codes "keeps") pair.now.keeps ++ side_text config.now
        (codes "breaks") pair.now.breaks) result }
{
    put_side(config, b"keeps", pair.keeps.list(), sink)?;
    put_side(config, b"breaks", pair.breaks.list(), sink)
}

fn put_undecided<K: Sink>(
    window: &Window,
    rule: u16,
    at: u32,
    sink: &mut K,
) -> Result<(), PutFailed>
    requires { at < 36000 * window.now.hours }
    ensures { Puts (K.taken sink.old) (K.taken sink.new)
        (undecided_line window.now rule at) result }
{
    let stamp = window.stamp(at);
    let mut number = Buffer::new();
    put_parts(
        sink,
        &[
            b"undecided ",
            number.format(rule).as_bytes(),
            b" ",
            &stamp,
            b"\n",
        ],
    )
}

/// Writes the number of an undecided line's rule and the tenth, and then each channel's start and
/// fills: those with which the rule is kept there, and those with which it is broken. A start is
/// the channel, its colour, and for how many tenths it has had it when the window begins. The
/// window has the tenths of the line and of the fills.
pub fn put_pair<K: Sink>(
    config: &Config,
    line: &AuditLine,
    pair: &Pair,
    sink: &mut K,
) -> Result<(), PutFailed>
    requires at { line.now.at < 36000 * config.now.window.hours }
    requires pair { IsPairIn config.now.window pair.now }
    ensures { Puts (K.taken sink.old) (K.taken sink.new)
        (pair_text config.now line.now.rule line.now.at pair.now) result }
{
    put_undecided(config.window(), line.rule, line.at, sink)?;
    put_sides(config, pair, sink)
}
