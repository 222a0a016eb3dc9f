// The numbers of preempts, from their entries and exits.
ghost use Rattle.std.specs.Prelude.{◌≡◌, [], ◌∷◌, length, slice_set, slice_index_or};
ghost use Rattle.hour_sweep.specs.Sums.{AreSums};
ghost use Rattle.other_measures.specs.Sums.{entry_sum, exit_sum, no_preempt_sum, preempt_added, preempt_sum_of};

use crate::last_rows::Lapse;
use crate::preempts::{Event, PreemptEvent};
use crate::sums::PreemptSum;
use hour_sweep::Sum;

pub(crate) fn nothing() -> PreemptSum
    ensures zero { result ≡ no_preempt_sum }
    ensures none { result ≡ preempt_sum_of [] }
{
    PreemptSum {
        entries: 0,
        delays: 0,
        sum: 0,
        partial: 0,
        dwells: 0,
        dwell_sum: 0,
        dwell_partial: 0,
        input_on: 0,
        input_undecided: 0,
        rest: 0,
        entry: 0,
        track: 0,
        dwell: 0,
        undecided: 0,
    }
}

fn of_entry(delay: Option<u32>) -> PreemptSum
    ensures { result ≡ entry_sum delay }
{
    match delay {
        Some(delay) => PreemptSum {
            entries: 1,
            delays: 1,
            sum: u64::from(delay),
            ..nothing()
        },
        None => PreemptSum {
            entries: 1,
            partial: 1,
            ..nothing()
        },
    }
}

fn of_exit(dwell: Lapse) -> PreemptSum
    ensures { result ≡ exit_sum dwell }
{
    match dwell {
        Lapse::Ran(dwell) => PreemptSum {
            dwells: 1,
            dwell_sum: u64::from(dwell),
            ..nothing()
        },
        Lapse::NotBegun => nothing(),
        Lapse::Partial => PreemptSum {
            dwell_partial: 1,
            ..nothing()
        },
    }
}

fn of_event(event: &PreemptEvent) -> PreemptSum
    ensures { result ≡ preempt_sum_of (event.now ∷ []) }
{
    match event.event {
        Event::Entry(delay) => of_entry(delay),
        Event::Exit(dwell) => of_exit(dwell),
    }
}

// Adds to the numbers of this preempt.
fn note(sums: &mut [PreemptSum], preempt: u8, more: &PreemptSum)
    ensures { sums.new ≡ slice_set sums.old preempt (preempt_added
        (slice_index_or sums.old preempt no_preempt_sum) more.now) }
{
    let place = usize::from(preempt);
    if place < sums.len() {
        sums[place] = sums[place].sum(more);
    }
}

fn add_events(sums: &mut [PreemptSum], events: &[PreemptEvent])
    requires empty { AreSums (λ e. e.preempt) (λ p es. preempt_sum_of es) (length sums.old) []
        sums.old }
    ensures { AreSums (λ e. e.preempt) (λ p es. preempt_sum_of es) (length sums.old) events.now
        sums.new }
{
    for event in events {
        note(sums, event.preempt, &of_event(event));
    }
}

/// The numbers of each preempt, at its number, without those of its states.
pub(crate) fn preempt_table(events: &[PreemptEvent]) -> [PreemptSum; 17]
    ensures { AreSums (λ e. e.preempt) (λ p es. preempt_sum_of es) 17 events.now result }
{
    let mut table = [nothing(); 17];
    add_events(&mut table, events);
    table
}
