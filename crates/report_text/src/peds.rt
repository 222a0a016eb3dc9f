// The line of a pedestrian signal.
ghost use Rattle.std.specs.Prelude.{◌≡◌};
ghost use Rattle.outside.specs.Sink.{Puts};
ghost use Rattle.sig_base.specs.Numbers.{has_number};
ghost use Rattle.report_text.specs.Measures.{ped_delays, ped_line, ped_states};

use crate::lines::{Numbered, number_or_dash};
use itoa::Buffer;
use other_measures::PedSum;
use outside::{PutFailed, Sink, put_parts};
use ring_config::Config;
use sig_base::has_number;

fn put_delays<K: Sink>(number: u8, sums: &PedSum, sink: &mut K) -> Result<(), PutFailed>
    ensures { Puts (K.taken sink.old) (K.taken sink.new) (ped_delays number sums.now) result }
{
    let mut ped = Buffer::new();
    let mut walks = Buffer::new();
    let mut delays = Buffer::new();
    let mut sum = Buffer::new();
    let mut greatest = Buffer::new();
    put_parts(
        sink,
        &[
            b"ped ",
            ped.format(number).as_bytes(),
            b" walks ",
            walks.format(sums.walks).as_bytes(),
            b" delays ",
            delays.format(sums.delays).as_bytes(),
            b" sum ",
            sum.format(sums.sum).as_bytes(),
            b" greatest ",
            number_or_dash(sums.greatest, &mut greatest),
        ],
    )
}

fn put_states<K: Sink>(sums: &PedSum, sink: &mut K) -> Result<(), PutFailed>
    ensures { Puts (K.taken sink.old) (K.taken sink.new) (ped_states sums.now) result }
{
    let mut uncalled = Buffer::new();
    let mut partial = Buffer::new();
    let mut on = Buffer::new();
    let mut undecided = Buffer::new();
    put_parts(
        sink,
        &[
            b" uncalled ",
            uncalled.format(sums.uncalled).as_bytes(),
            b" partial ",
            partial.format(sums.partial).as_bytes(),
            b" detector_on ",
            on.format(sums.detector_on).as_bytes(),
            b" detector_undecided ",
            undecided.format(sums.detector_undecided).as_bytes(),
            b"\n",
        ],
    )
}

fn put_ped<K: Sink>(number: u8, sums: &PedSum, sink: &mut K) -> Result<(), PutFailed>
    ensures { Puts (K.taken sink.old) (K.taken sink.new) (ped_line number sums.now) result }
{
    put_delays(number, sums, sink)?;
    put_states(sums, sink)
}

impl Numbered for PedSum {
    ghost has = { λ c. has_number c.peds };

    ghost line = { ped_line };

    fn is_configured(config: &Config, number: u8) -> bool {
        has_number(config.peds(), number)
    }

    fn put_line<K: Sink>(&self, number: u8, sink: &mut K) -> Result<(), PutFailed> {
        put_ped(number, self, sink)
    }
}
