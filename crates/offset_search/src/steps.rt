// Counts by shift, kept as steps: how much more each is than the one before it, so that a range of
// them rises by two writes. Steps wrap at 2^64, which a step down needs; their sums are exact, since
// a count fits.
ghost use Rattle.std.specs.Prelude.{◌≡◌, ◌+◌, ◌%◌, ◌^◌, ◌≤◌, ◌<◌, ℕ, ◌&&◌, nat_le, nat_lt, length, take, sum, slice_index, EachIndex, All, map};
ghost use Rattle.std.specs.List.{range_with_len};
ghost use Rattle.offset_search.specs.Shifted.{IsInCycle, meets_green, count_after};
ghost use Rattle.offset_search.specs.Steps.{AreSteps, one_if};

use crate::Arrival;

// One more at each place from `from` up to `to`, so far as there are places.
fn raise(steps: &mut [u64], from: usize, to: usize)
    requires in_range { from < length steps.old }
    requires in_order { from ≤ to }
    ensures { (f : ℕ → ℕ) → AreSteps f steps.old
        → AreSteps (λ j. f j + one_if (nat_le from j && nat_lt j to)) steps.new }
{
    steps[from] = steps[from].wrapping_add(1);
    if to < steps.len() {
        steps[to] = steps[to].wrapping_sub(1);
    }
}

// One more at each shift at which the vehicle meets green.
fn add_arrival(steps: &mut [u64], arrival: &Arrival)
    requires cycle { IsInCycle arrival.now }
    requires few { length steps.old ≤ 300 }
    ensures { (f : ℕ → ℕ) → AreSteps f steps.old
        → AreSteps (λ j. f j + one_if (meets_green arrival.now j)) steps.new }
{
    let mut shift = 0;
    while shift < steps.len() {
        let stretch = arrival.stretch_from(shift);
        if stretch.is_green {
            raise(steps, shift, stretch.end);
        }
        shift = stretch.end;
    }
}

// From steps that are all zero to those of how many of the vehicles meet green.
fn add_all(steps: &mut [u64], arrivals: &[Arrival])
    requires cycles { All IsInCycle arrivals.now }
    requires few { length steps.old ≤ 300 }
    requires zero { AreSteps (λ j. 0) steps.old }
    ensures { AreSteps (count_after arrivals.now) steps.new }
{
    for arrival in arrivals {
        add_arrival(steps, arrival);
    }
}

// From steps to what they add up to.
fn sum_up(steps: &mut [u64])
    ensures { EachIndex steps.new (λ k.
        slice_index steps.new k ≡ sum (take (k + 1) steps.old) % 2 ^ 64) }
{
    let mut count: u64 = 0;
    for step in steps.iter_mut() {
        count = count.wrapping_add(*step);
        *step = count;
    }
}

// From steps that are all zero to how many of the vehicles meet green at each shift.
pub(crate) fn count_all(counts: &mut [u64], arrivals: &[Arrival])
    requires cycles { All IsInCycle arrivals.now }
    requires few { length counts.old ≤ 300 }
    requires zero { AreSteps (λ j. 0) counts.old }
    ensures { counts.new ≡ map (count_after arrivals.now) (range_with_len 0 (length counts.old)) }
{
    add_all(counts, arrivals);
    sum_up(counts);
}
