// The legs of a walk: each is a letter, or gaps none of which touches the next, and is taken in one
// step.
ghost use Rattle.std.specs.Prelude.{◌≡◌, ◌-◌, ◌<◌, ◌≤◌, ◌^◌, ◌↔◌, pos, length, slice_range, IsTrue, OnOk};
ghost use Rattle.span_set.specs.Changes.{AllEnd};
ghost use Rattle.channel_path.specs.Runs.{AreGapsOf};
ghost use Rattle.channel_path.specs.Legs.{AreApart, IsLeg, AreParted, AreGaps, with_hole};

use crate::moves::Move;
use sig_base::{NoMemory, Tenth};
use span_set::Span;

// All moves end at this tenth or before.
pub const END: Tenth = 1 << 32;

/// The end of the leg that begins at the place.
pub fn leg_end(moves: &[Move], place: usize) -> usize
    requires { place < length moves.now }
    ensures some { place < result }
    ensures within { result ≤ length moves.now }
    ensures leg { IsLeg (slice_range moves.now place result) }
    ensures whole { result < length moves.now → AreParted moves.now result }
{
    for end in place + 1..moves.len() {
        if !are_apart(moves[end - 1], moves[end]) {
            return end;
        }
    }
    moves.len()
}

/// The beginning of the leg that ends at the place.
pub fn leg_begin(moves: &[Move], place: usize) -> usize
    requires some { 0 < place }
    requires within { place ≤ length moves.now }
    ensures some { result < place }
    ensures leg { IsLeg (slice_range moves.now result place) }
    ensures whole { 0 < result → AreParted moves.now result }
{
    for begin in (1..place).rev() {
        if !are_apart(moves[begin - 1], moves[begin]) {
            return begin;
        }
    }
    0
}

fn are_apart(one: Move, next: Move) -> bool
    ensures { IsTrue result ↔ AreApart one next }
{
    let Move::Gap { to, .. } = one else {
        return false;
    };
    let Move::Gap { from, .. } = next else {
        return false;
    };
    to < from
}

/// Puts the gaps as holes in place of what was there.
pub fn put_holes(holes: &mut Vec<Span>, gaps: &[Move]) -> Result<(), NoMemory>
    requires { AreGaps gaps.now }
    ensures holes { OnOk result (AreGapsOf holes.new.items gaps.now) }
    ensures end { OnOk result (AllEnd (pos (2 ^ 32)) holes.new.items) }
{
    holes.clear();
    for one in gaps {
        put_hole(holes, *one)?;
    }
    Ok(())
}

fn put_hole(holes: &mut Vec<Span>, one: Move) -> Result<(), NoMemory>
    ensures hole { OnOk result (holes.new.items ≡ with_hole one holes.old.items) }
    ensures end { AllEnd (pos (2 ^ 32)) holes.old.items → AllEnd (pos (2 ^ 32)) holes.new.items }
{
    match one {
        Move::Letter { .. } => Ok(()),
        Move::Gap { from, to } => {
            holes.push(Span {
                from: i64::from(from),
                to: i64::from(to),
            })?;
            Ok(())
        }
    }
}
