// The numbers of pedestrian signals, from their delays.
ghost use Rattle.std.specs.Prelude.{◌≡◌, [], ◌∷◌, length, slice_set, slice_index_or, None, Some};
ghost use Rattle.hour_sweep.specs.Sums.{AreSums, capped};
ghost use Rattle.other_measures.specs.Sums.{no_ped_sum, ped_added, ped_sum_of};

use crate::last_rows::Lapse;
use crate::peds::Delay;
use crate::sums::PedSum;
use hour_sweep::Sum;

pub(crate) fn nothing() -> PedSum
    ensures zero { result ≡ no_ped_sum }
    ensures none { result ≡ ped_sum_of [] }
{
    PedSum {
        walks: 0,
        delays: 0,
        sum: 0,
        greatest: None,
        uncalled: 0,
        partial: 0,
        detector_on: 0,
        detector_undecided: 0,
    }
}

// The numbers of a walk whose delay is whole.
fn of_wait(wait: u32) -> PedSum
    ensures { result ≡ record no_ped_sum {
      walks = 1;
      delays = 1;
      sum = capped wait;
      greatest = Some
          wait;
    } }
{
    PedSum {
        walks: 1,
        delays: 1,
        sum: u64::from(wait),
        greatest: Some(wait),
        ..nothing()
    }
}

fn of_delay(delay: &Delay) -> PedSum
    ensures { result ≡ ped_sum_of (delay.now ∷ []) }
{
    match delay.wait {
        Lapse::Ran(wait) => of_wait(wait),
        Lapse::NotBegun => PedSum {
            walks: 1,
            uncalled: 1,
            ..nothing()
        },
        Lapse::Partial => PedSum {
            walks: 1,
            partial: 1,
            ..nothing()
        },
    }
}

// Adds to the numbers of this pedestrian signal.
fn note(sums: &mut [PedSum], ped: u8, more: &PedSum)
    ensures { sums.new ≡ slice_set sums.old ped (ped_added (slice_index_or sums.old ped no_ped_sum)
        more.now) }
{
    let place = usize::from(ped);
    if place < sums.len() {
        sums[place] = sums[place].sum(more);
    }
}

fn add_delays(sums: &mut [PedSum], delays: &[Delay])
    requires empty { AreSums (λ d. d.ped) (λ p ds. ped_sum_of ds) (length sums.old) [] sums.old }
    ensures { AreSums (λ d. d.ped) (λ p ds. ped_sum_of ds) (length sums.old) delays.now sums.new }
{
    for delay in delays {
        note(sums, delay.ped, &of_delay(delay));
    }
}

/// The numbers of each pedestrian signal, at its number, without those of its detector.
pub(crate) fn ped_table(delays: &[Delay]) -> [PedSum; 17]
    ensures { AreSums (λ d. d.ped) (λ p ds. ped_sum_of ds) 17 delays.now result }
{
    let mut table = [nothing(); 17];
    add_delays(&mut table, delays);
    table
}
