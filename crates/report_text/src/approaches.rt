// The lines of approaches.
ghost use Rattle.std.specs.Prelude.{◌≡◌, ◌++◌, ◌*◌, ◌-◌, is_some, codes};
ghost use Rattle.outside.specs.Sink.{Puts};
ghost use Rattle.report_text.specs.Approaches.{actuations_line, all_splits, approach_text, approaches_text, arrival_counts, arrival_shares, arrivals_line, fraction, line_if, splits_line, stop_bar_text};

use arrival_measures::ArrivalSum;
use itoa::Buffer;
use outside::{PutFailed, Sink, put_parts};
use ring_config::{Approach, Config};
use split_measures::SplitSum;

fn put_counts<K: Sink>(name: &[u8], sums: &ArrivalSum, sink: &mut K) -> Result<(), PutFailed>
    ensures { Puts (K.taken sink.old) (K.taken sink.new) (arrival_counts name.now sums.now) result }
{
    let mut arrivals = Buffer::new();
    let mut green = Buffer::new();
    let mut not_green = Buffer::new();
    let mut undecided = Buffer::new();
    let mut unseen = Buffer::new();
    let mut fault = Buffer::new();
    put_parts(
        sink,
        &[
            b"approach ",
            name,
            b" arrivals ",
            arrivals.format(sums.arrivals).as_bytes(),
            b" green ",
            green.format(sums.green).as_bytes(),
            b" not ",
            not_green.format(sums.not_green).as_bytes(),
            b" undecided ",
            undecided.format(sums.undecided).as_bytes(),
            b" unseen ",
            unseen.format(sums.unseen).as_bytes(),
            b" fault ",
            fault.format(sums.fault).as_bytes(),
        ],
    )
}

// Writes a word, and then the fraction, not reduced, or `-` where its denominator is 0.
fn put_fraction<K: Sink>(
    word: &[u8],
    numerator: u128,
    denominator: u128,
    sink: &mut K,
) -> Result<(), PutFailed>
    ensures { Puts (K.taken sink.old) (K.taken sink.new)
        (word.now ++ fraction numerator denominator) result }
{
    if denominator == 0 {
        return put_parts(sink, &[word, b"-"]);
    }
    let mut over = Buffer::new();
    let mut under = Buffer::new();
    put_parts(
        sink,
        &[
            word,
            over.format(numerator).as_bytes(),
            b"/",
            under.format(denominator).as_bytes(),
        ],
    )
}

// Of the arrivals of which something is seen.
fn put_share<K: Sink>(sums: &ArrivalSum, sink: &mut K) -> Result<(), PutFailed>
    ensures { Puts (K.taken sink.old) (K.taken sink.new)
        (codes " share " ++ fraction sums.now.green (sums.now.arrivals - sums.now.unseen)) result }
{
    let green = u128::from(sums.green);
    let seen = u128::from(sums.arrivals.saturating_sub(sums.unseen));
    put_fraction(b" share ", green, seen, sink)
}

// The counts of a u64 are multiplied in a u128, which has room for each product.
fn put_platoon<K: Sink>(sums: &ArrivalSum, sink: &mut K) -> Result<(), PutFailed>
    ensures { Puts (K.taken sink.old) (K.taken sink.new)
        (codes " platoon " ++ fraction (sums.now.cycle_green * sums.now.cycle_tenths)
        (sums.now.cycle_arrivals * sums.now.green_tenths)) result }
{
    let came = u128::from(sums.cycle_green) * u128::from(sums.cycle_tenths);
    let even = u128::from(sums.cycle_arrivals) * u128::from(sums.green_tenths);
    put_fraction(b" platoon ", came, even, sink)
}

fn put_shares<K: Sink>(sums: &ArrivalSum, sink: &mut K) -> Result<(), PutFailed>
    ensures { Puts (K.taken sink.old) (K.taken sink.new) (arrival_shares sums.now) result }
{
    put_share(sums, sink)?;
    put_platoon(sums, sink)?;
    sink.put(b"\n")
}

fn put_arrivals<K: Sink>(name: &[u8], sums: &ArrivalSum, sink: &mut K) -> Result<(), PutFailed>
    ensures { Puts (K.taken sink.old) (K.taken sink.new) (arrivals_line name.now sums.now) result }
{
    put_counts(name, sums, sink)?;
    put_shares(sums, sink)
}

fn put_actuations<K: Sink>(name: &[u8], sums: &ArrivalSum, sink: &mut K) -> Result<(), PutFailed>
    ensures { Puts (K.taken sink.old) (K.taken sink.new)
        (actuations_line name.now sums.now) result }
{
    let mut actuations = Buffer::new();
    let mut red = Buffer::new();
    let mut not_red = Buffer::new();
    let mut undecided = Buffer::new();
    let mut fault = Buffer::new();
    put_parts(
        sink,
        &[
            b"approach ",
            name,
            b" actuations ",
            actuations.format(sums.actuations).as_bytes(),
            b" red ",
            red.format(sums.red).as_bytes(),
            b" not ",
            not_red.format(sums.not_red).as_bytes(),
            b" undecided ",
            undecided.format(sums.red_undecided).as_bytes(),
            b" fault ",
            fault.format(sums.red_fault).as_bytes(),
            b"\n",
        ],
    )
}

// Writes the line of an advance detector, where there is one.
fn put_advance<K: Sink>(
    approach: &Approach,
    sums: &ArrivalSum,
    sink: &mut K,
) -> Result<(), PutFailed>
    ensures { Puts (K.taken sink.old) (K.taken sink.new)
        (line_if (is_some approach.now.advance) (arrivals_line approach.now.name sums.now)) result }
{
    if approach.advance.is_some() {
        put_arrivals(approach.name.bytes(), sums, sink)
    } else {
        Ok(())
    }
}

// The numbers of a u64 are added in a u128, which has room for the sum.
fn all_splits(sums: &SplitSum) -> u128
    ensures { result ≡ all_splits sums.now }
{
    u128::from(sums.fail)
        + u128::from(sums.pass)
        + u128::from(sums.undecided)
        + u128::from(sums.left_open)
        + u128::from(sums.fault)
}

fn put_splits<K: Sink>(name: &[u8], sums: &SplitSum, sink: &mut K) -> Result<(), PutFailed>
    ensures { Puts (K.taken sink.old) (K.taken sink.new) (splits_line name.now sums.now) result }
{
    let all = all_splits(sums);
    let mut splits = Buffer::new();
    let mut fail = Buffer::new();
    let mut pass = Buffer::new();
    let mut undecided = Buffer::new();
    let mut left_open = Buffer::new();
    let mut fault = Buffer::new();
    put_parts(
        sink,
        &[
            b"approach ",
            name,
            b" splits ",
            splits.format(all).as_bytes(),
            b" fail ",
            fail.format(sums.fail).as_bytes(),
            b" pass ",
            pass.format(sums.pass).as_bytes(),
            b" undecided ",
            undecided.format(sums.undecided).as_bytes(),
            b" open ",
            left_open.format(sums.left_open).as_bytes(),
            b" fault ",
            fault.format(sums.fault).as_bytes(),
            b"\n",
        ],
    )
}

fn put_at_bar<K: Sink>(
    name: &[u8],
    sums: &ArrivalSum,
    splits: &SplitSum,
    sink: &mut K,
) -> Result<(), PutFailed>
    ensures { Puts (K.taken sink.old) (K.taken sink.new)
        (actuations_line name.now sums.now ++ splits_line name.now splits.now) result }
{
    put_actuations(name, sums, sink)?;
    put_splits(name, splits, sink)
}

// Writes the lines of a stop bar detector, where there is one.
fn put_stop_bar<K: Sink>(
    approach: &Approach,
    sums: &ArrivalSum,
    splits: &SplitSum,
    sink: &mut K,
) -> Result<(), PutFailed>
    ensures { Puts (K.taken sink.old) (K.taken sink.new)
        (stop_bar_text approach.now sums.now splits.now) result }
{
    if approach.stop_bar.is_some() {
        put_at_bar(approach.name.bytes(), sums, splits, sink)
    } else {
        Ok(())
    }
}

fn put_approach<K: Sink>(
    approach: &Approach,
    sums: &ArrivalSum,
    splits: &SplitSum,
    sink: &mut K,
) -> Result<(), PutFailed>
    ensures { Puts (K.taken sink.old) (K.taken sink.new)
        (approach_text approach.now sums.now splits.now) result }
{
    put_advance(approach, sums, sink)?;
    put_stop_bar(approach, sums, splits, sink)
}

/// Writes for each approach, in file order, a line for its advance detector and two for its stop bar
/// detector, where it has them. The sums stand in the same order.
pub fn put_approaches<K: Sink>(
    config: &Config,
    sums: &[ArrivalSum],
    splits: &[SplitSum],
    sink: &mut K,
) -> Result<(), PutFailed>
    ensures { Puts (K.taken sink.old) (K.taken sink.new)
        (approaches_text config.now.approaches sums.now splits.now) result }
{
    for place in 0..config.approach_count() {
        let Some(approach) = config.approach_at(place) else {
            return Ok(());
        };
        let Some(own) = sums.get(place as usize) else {
            return Ok(());
        };
        let Some(split) = splits.get(place as usize) else {
            return Ok(());
        };
        put_approach(approach, own, split, sink)?;
    }
    Ok(())
}
