// The count of every shift.
ghost use Rattle.std.specs.Prelude.{◌≡◌, ◌≤◌, ◌<◌, ◌*◌, ◌↔◌, ℕ, length, map, IfOk, All};
ghost use Rattle.std.specs.List.{range_with_len};
ghost use Rattle.offset_search.specs.Shifted.{IsInCycle, longest, count_after, counts_of};

use crate::steps::count_all;
use crate::{Arrival, Shifts};
use sig_base::NoMemory;
use std::alloc::Global;

fn longest_cycle(arrivals: &[Arrival]) -> u32
    requires { All IsInCycle arrivals.now }
    ensures value { result ≡ longest arrivals.now }
    ensures few { result ≤ 3000 }
{
    arrivals
        .iter()
        .fold(0, |longest: u32, arrival| longest.max(arrival.length))
}

// The counts of the first shifts, so many of them.
fn first_counts(alloc: Global, arrivals: &[Arrival], shifts: usize) -> Result<Vec<u64>, NoMemory>
    requires cycles { All IsInCycle arrivals.now }
    requires few { shifts ≤ 300 }
    ensures { IfOk result (λ v.
        v.items ≡ map (count_after arrivals.now) (range_with_len 0 shifts)) }
{
    let mut counts = vec![in alloc; 0u64; shifts]?;
    count_all(&mut counts, arrivals);
    Ok(counts)
}

/// How many of the vehicles would have met green, had each come later in its own cycle: place `j`
/// of the result is the count at a shift by `j` seconds, and there is one for each `j` within the
/// longest cycle. A cycle is 0.1 to 300 seconds long; green doesn't begin after yellow, and the
/// vehicle comes before its cycle ends. An error is that memory ran out.
pub fn shift_counts(alloc: Global, arrivals: &[Arrival]) -> Result<Shifts, NoMemory>
    requires { All IsInCycle arrivals.now }
    ensures counts { IfOk result (λ s. s ≡ counts_of arrivals.now) }
    ensures reach { IfOk result (λ s. (length s ≤ 300)
        × ((j : ℕ) → (j < length s) ↔ (10 * j < longest arrivals.now))) }
{
    let shifts = longest_cycle(arrivals).div_ceil(10) as usize;
    let counts = first_counts(alloc, arrivals, shifts)?;
    Ok(Shifts::new(counts))
}
