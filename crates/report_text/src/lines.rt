// A line for each phase, each pedestrian signal or each preempt.
ghost use Rattle.std.specs.Prelude.{◌≡◌, ℕ, Bool, List};
ghost use Rattle.ring_config.specs.Settings.{Settings};
ghost use Rattle.outside.specs.Sink.{Puts};
ghost use Rattle.report_text.specs.Measures.{each_line, number_or_dash, numbers_of};

use itoa::Buffer;
use outside::{PutFailed, Sink};
use ring_config::Config;

/// The digits of the number, or `-` where there is none.
pub(crate) fn number_or_dash(number: Option<u32>, buffer: &mut Buffer) -> &[u8]
    ensures { result.now ≡ number_or_dash number }
{
    match number {
        Some(number) => buffer.format(number).as_bytes(),
        None => b"-",
    }
}

/// Sums of a phase, a pedestrian signal or a preempt, which have a line of their own.
pub(crate) trait Numbered {
    /// Whether there is one of this number.
    ghost has: { Settings → ℕ → Bool };

    /// The line of a number.
    ghost line: { ℕ → Self → List ℕ };

    /// Whether there is one of this number.
    fn is_configured(config: &Config, number: u8) -> bool
        ensures { result ≡ has config.now number };

    /// Writes the line.
    fn put_line<K: Sink>(&self, number: u8, sink: &mut K) -> Result<(), PutFailed>
        ensures { Puts (K.taken sink.old) (K.taken sink.new) (line number self.now) result };
}

/// Writes a line for each number, ascending. The sums stand by their numbers.
pub(crate) fn put_lines<T: Numbered, K: Sink>(
    config: &Config,
    sums: &[T],
    sink: &mut K,
) -> Result<(), PutFailed>
    ensures { Puts (K.taken sink.old) (K.taken sink.new)
        (each_line T.line (numbers_of (T.has config.now)) sums.now) result }
{
    let mut rest = sums;
    for number in 0..17u8 {
        if !T::is_configured(config, number) {
            continue;
        }
        let Some((first, others)) = rest.split_first() else {
            return Ok(());
        };
        first.put_line(number, sink)?;
        rest = others;
    }
    Ok(())
}
