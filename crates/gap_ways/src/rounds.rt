// By which tenths the colours can be entered in a gap, round by round.
ghost use Rattle.std.specs.Prelude.{◌≡◌, ℤ, pos, negsuc, ◌≤ℤ◌, ◌<ℤ◌, ◌≤◌, ◌^◌, List, length, reverse, IfOk};
ghost use Rattle.reach.specs.Arrivals.{AreDepartures, IsArrival};
ghost use Rattle.gap_ways.specs.Rounds.{AreRounds};

use crate::ask::first_old;
use colour_machine::Machine;
use reach::{Past, leaves, relax};
use sig_base::{NoMemory, Tenth};
use std::alloc::Global;

/// For each colour when the old states let it be left, and the arrivals before each round.
#[derive(Drop)]
pub struct Rounds {
    pub departure: [Tenth; 16],
    pub tables: Vec<[Tenth; 16]>,
}

/// The rounds of a gap, at most sixteen: the first begins with no arrival, and the last leads to
/// the earliest ones.
pub fn rounds_of<M: Machine>(
    alloc: Global,
    machine: &M,
    past: &Past,
    from: Tenth,
    to: Tenth,
) -> Result<Rounds, NoMemory>
    requires low { negsuc (2 ^ 39) ≤ℤ from }
    requires some { from <ℤ to }
    requires high { to ≤ℤ pos (2 ^ 39) }
    requires colours { length past.now ≡ (M.rules machine.now).colours }
    ensures departure { IfOk result (λ r.
        AreDepartures (M.rules machine.now) past.now from to r.departure) }
    ensures rounds { IfOk result (λ r. (best : List ℤ)
        × IsArrival (M.rules machine.now) past.now from to best
        × AreRounds (M.rules machine.now) from to r.departure (reverse r.tables.items) best) }
    ensures few { IfOk result (λ r. length r.tables.items ≤ 16) }
{
    let departure = departures(machine, past, from, to);
    let tables = run_rounds(alloc, machine, past, &departure, from, to)?;
    Ok(Rounds { departure, tables })
}

// For each colour the first tenth of the gap at which an old entry lets it be left, or `to`.
fn departures<M: Machine>(machine: &M, past: &Past, from: Tenth, to: Tenth) -> [Tenth; 16]
    requires low { negsuc (2 ^ 39) ≤ℤ from }
    requires some { from <ℤ to }
    requires high { to ≤ℤ pos (2 ^ 39) }
    requires colours { length past.now ≡ (M.rules machine.now).colours }
    ensures { AreDepartures (M.rules machine.now) past.now from to result }
{
    let mut new = [to; 16];
    for colour in 0..machine.colours() {
        new[colour as usize] = first_old(machine, past, colour, from, to);
    }
    new
}

// Runs the rounds until one changes nothing. The tables are the arrivals before each of the others.
fn run_rounds<M: Machine>(
    alloc: Global,
    machine: &M,
    past: &Past,
    departure: &[Tenth; 16],
    from: Tenth,
    to: Tenth,
) -> Result<Vec<[Tenth; 16]>, NoMemory>
    requires low { negsuc (2 ^ 39) ≤ℤ from }
    requires some { from <ℤ to }
    requires high { to ≤ℤ pos (2 ^ 39) }
    requires colours { length past.now ≡ (M.rules machine.now).colours }
    requires first { AreDepartures (M.rules machine.now) past.now from to departure.now }
    ensures rounds { IfOk result (λ v. (best : List ℤ)
        × IsArrival (M.rules machine.now) past.now from to best
        × AreRounds (M.rules machine.now) from to departure.now (reverse v.items) best) }
    ensures few { IfOk result (λ v. length v.items ≤ 16) }
{
    let mut tables = Vec::new(alloc);
    let mut arrival = [to; 16];
    'rounds: loop {
        let leave = leaves(machine, departure, &arrival);
        let mut next = arrival;
        relax(machine, &leave, to, &mut next);
        if next == arrival {
            return Ok(tables);
        }
        tables.push(arrival)?;
        arrival = next;
    }
}
