// The line of a phase.
ghost use Rattle.std.specs.Prelude.{◌≡◌};
ghost use Rattle.outside.specs.Sink.{Puts};
ghost use Rattle.sig_base.specs.Numbers.{has_phase};
ghost use Rattle.report_text.specs.Measures.{phase_ends, phase_line, phase_splits};

use crate::lines::{Numbered, number_or_dash};
use itoa::Buffer;
use outside::{PutFailed, Sink, put_parts};
use ring_config::Config;
use sig_base::has_phase;
use split_measures::PhaseSum;

fn put_splits<K: Sink>(number: u8, sums: &PhaseSum, sink: &mut K) -> Result<(), PutFailed>
    ensures { Puts (K.taken sink.old) (K.taken sink.new) (phase_splits number sums.now) result }
{
    let mut phase = Buffer::new();
    let mut services = Buffer::new();
    let mut least = Buffer::new();
    let mut greatest = Buffer::new();
    let mut sum = Buffer::new();
    put_parts(
        sink,
        &[
            b"phase ",
            phase.format(number).as_bytes(),
            b" services ",
            services.format(sums.services).as_bytes(),
            b" least ",
            number_or_dash(sums.least, &mut least),
            b" greatest ",
            number_or_dash(sums.greatest, &mut greatest),
            b" sum ",
            sum.format(sums.sum).as_bytes(),
        ],
    )
}

fn put_ends<K: Sink>(sums: &PhaseSum, sink: &mut K) -> Result<(), PutFailed>
    ensures { Puts (K.taken sink.old) (K.taken sink.new) (phase_ends sums.now) result }
{
    let mut gap = Buffer::new();
    let mut max = Buffer::new();
    let mut force = Buffer::new();
    let mut unlogged = Buffer::new();
    let mut cycles = Buffer::new();
    let mut cycle_sum = Buffer::new();
    put_parts(
        sink,
        &[
            b" gap ",
            gap.format(sums.gap_out).as_bytes(),
            b" max ",
            max.format(sums.max_out).as_bytes(),
            b" force ",
            force.format(sums.force_off).as_bytes(),
            b" unlogged ",
            unlogged.format(sums.unlogged).as_bytes(),
            b" cycles ",
            cycles.format(sums.cycles).as_bytes(),
            b" cycle_sum ",
            cycle_sum.format(sums.cycle_sum).as_bytes(),
            b"\n",
        ],
    )
}

fn put_phase<K: Sink>(number: u8, sums: &PhaseSum, sink: &mut K) -> Result<(), PutFailed>
    ensures { Puts (K.taken sink.old) (K.taken sink.new) (phase_line number sums.now) result }
{
    put_splits(number, sums, sink)?;
    put_ends(sums, sink)
}

impl Numbered for PhaseSum {
    ghost has = { λ c. has_phase c.phases };

    ghost line = { phase_line };

    fn is_configured(config: &Config, number: u8) -> bool {
        has_phase(config.phases(), number)
    }

    fn put_line<K: Sink>(&self, number: u8, sink: &mut K) -> Result<(), PutFailed> {
        put_phase(number, self, sink)
    }
}
