// The line of a preempt.
ghost use Rattle.std.specs.Prelude.{◌≡◌};
ghost use Rattle.outside.specs.Sink.{Puts};
ghost use Rattle.sig_base.specs.Numbers.{has_number};
ghost use Rattle.report_text.specs.Measures.{preempt_delays, preempt_line, preempt_states};

use crate::lines::Numbered;
use itoa::Buffer;
use other_measures::PreemptSum;
use outside::{PutFailed, Sink, put_parts};
use ring_config::Config;
use sig_base::has_number;

fn put_delays<K: Sink>(number: u8, sums: &PreemptSum, sink: &mut K) -> Result<(), PutFailed>
    ensures { Puts (K.taken sink.old) (K.taken sink.new) (preempt_delays number sums.now) result }
{
    let mut preempt = Buffer::new();
    let mut entries = Buffer::new();
    let mut delays = Buffer::new();
    let mut sum = Buffer::new();
    let mut partial = Buffer::new();
    let mut dwells = Buffer::new();
    let mut dwell_sum = Buffer::new();
    let mut dwell_partial = Buffer::new();
    put_parts(
        sink,
        &[
            b"preempt ",
            preempt.format(number).as_bytes(),
            b" entries ",
            entries.format(sums.entries).as_bytes(),
            b" delays ",
            delays.format(sums.delays).as_bytes(),
            b" sum ",
            sum.format(sums.sum).as_bytes(),
            b" partial ",
            partial.format(sums.partial).as_bytes(),
            b" dwells ",
            dwells.format(sums.dwells).as_bytes(),
            b" dwell_sum ",
            dwell_sum.format(sums.dwell_sum).as_bytes(),
            b" dwell_partial ",
            dwell_partial.format(sums.dwell_partial).as_bytes(),
        ],
    )
}

fn put_states<K: Sink>(sums: &PreemptSum, sink: &mut K) -> Result<(), PutFailed>
    ensures { Puts (K.taken sink.old) (K.taken sink.new) (preempt_states sums.now) result }
{
    let mut on = Buffer::new();
    let mut unsure = Buffer::new();
    let mut rest = Buffer::new();
    let mut entry = Buffer::new();
    let mut track = Buffer::new();
    let mut dwell = Buffer::new();
    let mut undecided = Buffer::new();
    put_parts(
        sink,
        &[
            b" input_on ",
            on.format(sums.input_on).as_bytes(),
            b" input_undecided ",
            unsure.format(sums.input_undecided).as_bytes(),
            b" rest ",
            rest.format(sums.rest).as_bytes(),
            b" entry ",
            entry.format(sums.entry).as_bytes(),
            b" track ",
            track.format(sums.track).as_bytes(),
            b" dwell ",
            dwell.format(sums.dwell).as_bytes(),
            b" undecided ",
            undecided.format(sums.undecided).as_bytes(),
            b"\n",
        ],
    )
}

fn put_preempt<K: Sink>(number: u8, sums: &PreemptSum, sink: &mut K) -> Result<(), PutFailed>
    ensures { Puts (K.taken sink.old) (K.taken sink.new) (preempt_line number sums.now) result }
{
    put_delays(number, sums, sink)?;
    put_states(sums, sink)
}

impl Numbered for PreemptSum {
    ghost has = { λ c. has_number c.preempts };

    ghost line = { preempt_line };

    fn is_configured(config: &Config, number: u8) -> bool {
        has_number(config.preempts(), number)
    }

    fn put_line<K: Sink>(&self, number: u8, sink: &mut K) -> Result<(), PutFailed> {
        put_preempt(number, self, sink)
    }
}
