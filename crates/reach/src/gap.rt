// The states after a gap, in one step: each colour's entries of before stay, and its new ones are
// all tenths of the gap from its earliest arrival on.
ghost use Rattle.std.specs.Prelude.{◌≡◌, ◌≢◌, ℕ, ℤ, pos, negsuc, ◌+ℤ◌, ◌-ℤ◌, ◌≤ℤ◌, ◌<ℤ◌, ◌<◌, ◌≤◌, ◌^◌, ◌⊎◌, ◌↔◌, List, length, IsTrue, OnOk, OnErr};
ghost use Rattle.span_set.specs.declared.set.Span.{Span};
ghost use Rattle.reach.specs.Runs.{State};
ghost use Rattle.reach.specs.Past.{Holds, AfterGap, NoneLater};
ghost use Rattle.reach.specs.Sets.{at};
ghost use Rattle.reach.specs.Single.{sets_of, IsSingle};
ghost use Rattle.reach.specs.Arrivals.{IsArrival, IsFirst, AreDepartures, IsLeave, IsLowered, ByLetter, ByLetters, ByColours};

use crate::past::{Past, Single, spread};
use crate::sets::add_each;
use colour_machine::Machine;
use sig_base::{NoMemory, Tenth};
use span_set::SpanSet;

/// The states after any legal filling of the tenths from `from` up to but without `to`. It takes
/// memory only where a set grows, and its time doesn't depend on the length of the gap.
pub fn past_gap<M: Machine>(
    machine: &M,
    past: &mut Past,
    from: Tenth,
    to: Tenth,
) -> Result<(), NoMemory>
    requires low { negsuc (2 ^ 39) ≤ℤ from }
    requires some { from <ℤ to }
    requires high { to ≤ℤ pos (2 ^ 39) }
    requires colours { length past.old ≡ (M.rules machine.now).colours }
    requires place { NoneLater past.old from }
    ensures after { OnOk result ((u : State) → Holds past.new u
        ↔ AfterGap (M.rules machine.now) past.old from to u) }
    ensures colours { length past.new ≡ length past.old }
    ensures late { NoneLater past.new (to -ℤ pos 1) }
    ensures err { OnErr result (past.new ≡ past.old) }
{
    match past.one {
        None => gap_sets(machine, past.sets.as_mut_slice(), from, to),
        Some(one) => {
            if stays(machine, one, from, to) {
                return Ok(());
            }
            spread(past.alloc, &mut past.sets, one)?;
            gap_sets(machine, past.sets.as_mut_slice(), from, to)?;
            past.one = None;
            Ok(())
        }
    }
}

// Whether the state can't be left within the gap, so that it stays.
fn stays<M: Machine>(machine: &M, one: Single, from: Tenth, to: Tenth) -> bool
    requires single { IsSingle one }
    requires low { negsuc (2 ^ 39) ≤ℤ from }
    requires some { from <ℤ to }
    requires high { to ≤ℤ pos (2 ^ 39) }
    requires colours { one.colours ≡ (M.rules machine.now).colours }
    requires place { one.entry ≤ℤ from }
    ensures { IsTrue result → (u : State) → Holds (sets_of one) u
        ↔ AfterGap (M.rules machine.now) (sets_of one) from to u }
{
    if to <= one.entry + i64::from(machine.floor(one.colour)) {
        return true;
    }
    false
}

// The states after the gap, of sets.
fn gap_sets<M: Machine>(
    machine: &M,
    sets: &mut [SpanSet],
    from: Tenth,
    to: Tenth,
) -> Result<(), NoMemory>
    requires low { negsuc (2 ^ 39) ≤ℤ from }
    requires some { from <ℤ to }
    requires high { to ≤ℤ pos (2 ^ 39) }
    requires colours { length sets.old ≡ (M.rules machine.now).colours }
    requires place { NoneLater sets.old from }
    ensures after { OnOk result ((u : State) → Holds sets.new u
        ↔ AfterGap (M.rules machine.now) sets.old from to u) }
    ensures colours { length sets.new ≡ length sets.old }
    ensures late { NoneLater sets.new (to -ℤ pos 1) }
    ensures err { OnErr result (sets.new ≡ sets.old) }
{
    let departure = departures(machine, sets, from, to);
    let arrival = arrivals(machine, &departure, from, to);
    add_each(sets, &arrival, to)?;
    Ok(())
}

// For each colour the first tenth of the gap at which an old entry lets it be left, or `to`.
fn departures<M: Machine>(machine: &M, sets: &[SpanSet], from: Tenth, to: Tenth) -> [Tenth; 16]
    requires low { negsuc (2 ^ 39) ≤ℤ from }
    requires some { from <ℤ to }
    requires high { to ≤ℤ pos (2 ^ 39) }
    requires colours { length sets.now ≡ (M.rules machine.now).colours }
    ensures { AreDepartures (M.rules machine.now) sets.now from to result }
{
    let mut new = [to; 16];
    for colour in 0..machine.colours() {
        new[colour as usize] = first_leave(&sets[colour as usize], machine.floor(colour), from, to);
    }
    new
}

// The least tenth from `from` on at which an entry of the set is old enough, or `to`.
fn first_leave(set: &SpanSet, floor: u32, from: Tenth, to: Tenth) -> Tenth
    requires low { negsuc (2 ^ 39) ≤ℤ from }
    requires some { from <ℤ to }
    requires high { to ≤ℤ pos (2 ^ 39) }
    requires floor { floor ≤ 36000 }
    ensures { IsFirst set.now floor from to result }
{
    let Some(least) = set.least() else {
        return to;
    };
    if to <= least {
        return to;
    }
    (least + i64::from(floor)).max(from).min(to)
}

/// The earliest arrivals in a gap from `from` up to but without `to`, of any sets with these
/// departures: for each colour the tenth from which on it may be entered, or `to`. They are found
/// by rounds, until one changes nothing.
pub fn arrivals<M: Machine>(
    machine: &M,
    departure: &[Tenth; 16],
    from: Tenth,
    to: Tenth,
) -> [Tenth; 16]
    requires some { from <ℤ to }
    requires high { to ≤ℤ pos (2 ^ 39) }
    ensures { (sets : List (List Span)) → length sets ≡ (M.rules machine.now).colours
        → AreDepartures (M.rules machine.now) sets from to departure.now
        → IsArrival (M.rules machine.now) sets from to result }
{
    let mut arrival = [to; 16];
    'rounds: loop {
        let before = arrival;
        let leave = leaves(machine, departure, &arrival);
        relax(machine, &leave, to, &mut arrival);
        if same_tenths(&arrival, &before) {
            return before;
        }
    }
}

/// For each colour the first tenth at which it may be left, after an old entry or an arrival.
pub fn leaves<M: Machine>(
    machine: &M,
    departure: &[Tenth; 16],
    arrival: &[Tenth; 16],
) -> [Tenth; 16]
    requires { (c : ℕ) → c < 16 → at arrival.now c ≤ℤ pos (2 ^ 39) }
    ensures { (c : ℕ) → c < (M.rules machine.now).colours
        → IsLeave (at departure.now c) (at arrival.now c) ((M.rules machine.now).floor c)
        (at result c) }
{
    let mut new = [0; 16];
    for colour in 0..machine.colours() {
        let c = colour as usize;
        new[c] = leave_one(departure[c], arrival[c], machine.floor(colour));
    }
    new
}

fn leave_one(departure: Tenth, arrival: Tenth, floor: u32) -> Tenth
    requires arrival { arrival ≤ℤ pos (2 ^ 39) }
    requires floor { floor ≤ 36000 }
    ensures { IsLeave departure arrival floor result }
{
    departure.min(arrival + i64::from(floor))
}

/// Lowers the arrivals to those by one change of a colour at the tenth at which it may be left.
/// None of them is after the end.
pub fn relax<M: Machine>(machine: &M, leave: &[Tenth; 16], to: Tenth, arrival: &mut [Tenth; 16])
    requires { (d : ℕ) → d < 16 → at arrival.old d ≤ℤ to }
    ensures { IsLowered arrival.old arrival.new (ByColours (M.rules machine.now)
        (M.rules machine.now).colours leave.now) }
{
    for colour in 0..machine.colours() {
        relax_early(machine, colour, leave[colour as usize], to, arrival);
    }
}

// The same for one colour. A change at the end or later lowers none.
fn relax_early<M: Machine>(
    machine: &M,
    colour: u8,
    leave: Tenth,
    to: Tenth,
    arrival: &mut [Tenth; 16],
)
    requires colour { colour < (M.rules machine.now).colours }
    requires bound { (d : ℕ) → d < 16 → at arrival.old d ≤ℤ to }
    ensures { IsLowered arrival.old arrival.new (ByLetters (M.rules machine.now) colour
        (M.rules machine.now).letters leave) }
{
    if leave < to {
        relax_colour(machine, colour, leave, arrival);
    }
}

fn relax_colour<M: Machine>(machine: &M, colour: u8, leave: Tenth, arrival: &mut [Tenth; 16])
    requires { colour < (M.rules machine.now).colours }
    ensures { IsLowered arrival.old arrival.new (ByLetters (M.rules machine.now) colour
        (M.rules machine.now).letters leave) }
{
    for letter in 0..machine.letters() {
        relax_letter(machine, colour, letter, leave, arrival);
    }
}

fn relax_letter<M: Machine>(
    machine: &M,
    colour: u8,
    letter: u8,
    leave: Tenth,
    arrival: &mut [Tenth; 16],
)
    requires colour { colour < (M.rules machine.now).colours }
    requires letter { letter < (M.rules machine.now).letters }
    ensures { IsLowered arrival.old arrival.new (ByLetter (M.rules machine.now) colour letter
        leave) }
{
    match machine.step(colour, letter) {
        Some(next) if next != colour => lower_at(arrival, next, leave),
        Some(_) => {}
        None => {}
    }
}

fn lower_at(arrival: &mut [Tenth; 16], colour: u8, leave: Tenth)
    requires { colour < 16 }
    ensures { IsLowered arrival.old arrival.new (λ d y. (d ≡ colour) × (y ≡ leave)) }
{
    if leave < arrival[colour as usize] {
        arrival[colour as usize] = leave;
    }
}

/// Whether two lists of tenths are the same.
pub fn same_tenths(a: &[Tenth], b: &[Tenth]) -> bool
    ensures { IsTrue result ↔ (a.now ≡ b.now) }
{
    a == b
}
