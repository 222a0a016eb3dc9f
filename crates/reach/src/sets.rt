// Sets of entries, one for each colour, and what is added to them or taken out in place.
ghost use Rattle.std.specs.Prelude.{◌≡◌, ℕ, ℤ, pos, negsuc, ◌≤ℤ◌, ◌<ℤ◌, ◌<◌, ◌≤◌, ◌^◌, ◌+◌, ◌⊎◌, ◌↔◌, [], length, slice_index_or, IsTrue, OnOk, OnErr};
ghost use Rattle.span_set.specs.Spans.{Member};
ghost use Rattle.colour_machine.specs.Mask.{Has};
ghost use Rattle.reach.specs.Sets.{at, IsFree, AreFree, AreBefore, AreAdded, AreTakenBack, IsStart, AreStarts, IsRebuilt};

use colour_machine::Mask;
use sig_base::{NoMemory, Tenth};
use span_set::SpanSet;

/// Adds to each set the tenths from its start up to `to`, or changes none of them.
pub fn add_each(sets: &mut [SpanSet], starts: &[Tenth; 16], to: Tenth) -> Result<(), NoMemory>
    requires few { length sets.old ≤ 16 }
    requires low { (c : ℕ) → c < 16 → negsuc (2 ^ 39) ≤ℤ at starts.now c }
    requires end { (c : ℕ) → c < 16 → at starts.now c ≤ℤ to }
    requires high { to ≤ℤ pos (2 ^ 39 + 1) }
    requires before { AreBefore sets.old starts.now }
    ensures ok { OnOk result (AreAdded sets.old starts.now to sets.new (length sets.old)) }
    ensures err { OnErr result (sets.new ≡ sets.old) }
{
    let firsts = firsts_free(sets, starts);
    for colour in 0..sets.len() {
        match add_from(&mut sets[colour], firsts[colour], to) {
            Ok(()) => {}
            Err(error) => {
                take_back(sets, &firsts, colour);
                return Err(error);
            }
        }
    }
    Ok(())
}

// For each set the first tenth from its start on that it doesn't have.
fn firsts_free(sets: &[SpanSet], starts: &[Tenth; 16]) -> [Tenth; 16]
    requires few { length sets.now ≤ 16 }
    requires before { AreBefore sets.now starts.now }
    ensures { AreFree sets.now starts.now result (length sets.now) }
{
    let mut firsts = *starts;
    for colour in 0..sets.len() {
        firsts[colour] = first_free(&sets[colour], starts[colour]);
    }
    firsts
}

// The first tenth from the start on that the set doesn't have, which has none after the start.
fn first_free(set: &SpanSet, start: Tenth) -> Tenth
    requires { (e : ℤ) → Member set.now e → e ≤ℤ start }
    ensures { IsFree set.now start result }
{
    match set.ranges() {
        [] => start,
        [.., last] => start.max(last.to),
    }
}

fn add_from(set: &mut SpanSet, first: Tenth, to: Tenth) -> Result<(), NoMemory>
    requires low { negsuc (2 ^ 39) ≤ℤ first }
    requires high { to ≤ℤ pos (2 ^ 39 + 1) }
    ensures ok { OnOk result ((e : ℤ) → Member set.new e
        ↔ (Member set.old e ⊎ ((first ≤ℤ e) × (e <ℤ to)))) }
    ensures err { OnErr result (set.new ≡ set.old) }
{
    if first < to {
        set.add(first, to)?;
        return Ok(());
    }
    Ok(())
}

// Takes out of each of the first sets what it has from its tenth on.
fn take_back(sets: &mut [SpanSet], firsts: &[Tenth; 16], count: usize)
    requires few { length sets.old ≤ 16 }
    requires within { count ≤ length sets.old }
    ensures { AreTakenBack sets.old firsts.now sets.new count }
{
    for colour in 0..count {
        sets[colour].cut_from(firsts[colour]);
    }
}

/// The tenth for the colours of the mask, and the one after it for the others.
pub fn starts_of(enter: Mask, tenth: Tenth) -> [Tenth; 16]
    requires low { negsuc (2 ^ 39) ≤ℤ tenth }
    requires high { tenth ≤ℤ pos (2 ^ 39) }
    ensures { AreStarts enter tenth result 16 }
{
    let mut starts = [tenth; 16];
    for colour in 0..16u8 {
        starts[colour as usize] = start_of(enter, colour, tenth);
    }
    starts
}

fn start_of(enter: Mask, colour: u8, tenth: Tenth) -> Tenth
    requires colour { colour < 16 }
    requires low { negsuc (2 ^ 39) ≤ℤ tenth }
    requires high { tenth ≤ℤ pos (2 ^ 39) }
    ensures { IsStart enter tenth colour result }
{
    if enter.has(colour) {
        return tenth;
    }
    tenth + 1
}

/// Keeps the sets of the one mask, and of the others the tenth where the other mask has them.
pub fn settle_each(sets: &mut [SpanSet], keep: Mask, enter: Mask, tenth: Tenth)
    requires few { length sets.old ≤ 16 }
    requires low { negsuc (2 ^ 39) ≤ℤ tenth }
    requires high { tenth ≤ℤ pos (2 ^ 39) }
    requires last { (c : ℕ) (e : ℤ) → Member (slice_index_or sets.old c []) e → e ≤ℤ tenth }
    requires entered { (c : ℕ) → c < length sets.old → Has enter c
        → Member (slice_index_or sets.old c []) tenth }
    ensures { IsRebuilt sets.old keep enter tenth sets.new (length sets.old) }
{
    for colour in 0..sets.len() {
        let (kept, entered) = (keep.has(colour as u8), enter.has(colour as u8));
        settle(&mut sets[colour], kept, entered, tenth);
    }
}

fn settle(set: &mut SpanSet, kept: bool, entered: bool, tenth: Tenth)
    requires low { negsuc (2 ^ 39) ≤ℤ tenth }
    requires high { tenth ≤ℤ pos (2 ^ 39) }
    requires last { (e : ℤ) → Member set.old e → e ≤ℤ tenth }
    requires entered { IsTrue entered → Member set.old tenth }
    ensures { (e : ℤ) → Member set.new e ↔ ((IsTrue kept × Member set.old e)
        ⊎ (IsTrue entered × (e ≡ tenth))) }
{
    if kept {
        return;
    }
    if entered {
        set.clamp_below(tenth);
        return;
    }
    set.clear();
}
