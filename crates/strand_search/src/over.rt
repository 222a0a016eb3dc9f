// One channel's ways over a part, as rows.
ghost use Rattle.std.specs.Prelude.{◌≡◌, ◌∷◌, [], ℕ, ℤ, pos, negsuc, ◌+ℤ◌, ◌≤ℤ◌, ◌<◌, ◌≤◌, ◌^◌, length, IfOk};
ghost use Rattle.channel_tables.specs.Spec.{rules_of};
ghost use Rattle.gap_map.specs.Stretches.{known_at};
ghost use Rattle.reach.specs.Past.{Holds};
ghost use Rattle.reach.specs.Ahead.{Admits};
ghost use Rattle.channel_path.specs.Walks.{AfterMoves, BeforeMoves, EnteredBefore};
ghost use Rattle.board.specs.Channels.{AreSpecs, track};
ghost use Rattle.board.specs.History.{events_at};
ghost use Rattle.gap_ways.specs.Ways.{NoneOlder, state_of};
ghost use Rattle.channel_ways.specs.Moves.{ClampedAfter, IsAlone};
ghost use Rattle.strand_search.specs.Parts.{GoOn, IsPartOf, StandsAlone, moves_over};
ghost use Rattle.strand_search.specs.Pieces.{AddsAlike, AddsBack, AddsPiece};

use crate::events::add_letters;
use crate::part::{Part, course_of};
use crate::ways::{clamped_source_of, source_of, way_on};
use channel_tables::Spec;
use channel_ways::Passing;
use gap_ways::Entered;
use reach::{Ahead, Past};
use sig_base::{NoMemory, Row, Tenth};
use std::alloc::Global;

/// A state before the part from which letters at its unknown tenths lead to the target, which is
/// one after it. They are added as rows, last first.
pub(crate) fn back_over(
    alloc: Global,
    spec: &Spec,
    part: &Part<'_>,
    before: &Past,
    target: Entered,
    rows: &mut Vec<Row>,
) -> Result<Entered, NoMemory>
    requires spec { AreSpecs (spec.now ∷ []) }
    requires part { (f t : ℕ) × IsPartOf f t part.now × EnteredBefore before.now f × (t ≤ 2 ^ 32) }
    requires colours { length before.now ≡ (rules_of spec.now).colours }
    requires none_older { NoneOlder before.now }
    requires reached { AfterMoves (rules_of spec.now) before.now (moves_over spec.now part.now)
        (state_of target) }
    ensures held { IfOk result (λ s. Holds before.now (state_of s)) }
    ensures way { IfOk result (λ s. (f t : ℕ) → IsPartOf f t part.now
        → AddsBack (track spec.now) (known_at part.now.stretches.items)
        (events_at part.now.rows.now) f t rows.old.items rows.new.items
        (state_of s) (state_of target)) }
{
    let course = course_of(alloc, spec, part)?;
    let mut letters = Vec::new(alloc);
    let source = source_of(alloc, spec, before, course.moves(), target, &mut letters)?;
    add_letters(spec, &letters, rows)?;
    Ok(source)
}

/// The same, where the target is one of the states after the part with all entries below the limit
/// put to it: the letters lead to a state that is alike.
pub(crate) fn clamped_back_over(
    alloc: Global,
    spec: &Spec,
    part: &Part<'_>,
    before: &Past,
    limit: Tenth,
    target: Entered,
    rows: &mut Vec<Row>,
) -> Result<Entered, NoMemory>
    requires spec { AreSpecs (spec.now ∷ []) }
    requires part { (f t : ℕ) × IsPartOf f t part.now × EnteredBefore before.now f × (t ≤ 2 ^ 32) }
    requires colours { length before.now ≡ (rules_of spec.now).colours }
    requires none_older { NoneOlder before.now }
    requires low { negsuc (2 ^ 39) ≤ℤ limit }
    requires high { limit ≤ℤ pos (2 ^ 38) }
    requires reached { ClampedAfter (rules_of spec.now) before.now (moves_over spec.now part.now)
        limit (state_of target) }
    ensures held { IfOk result (λ s. Holds before.now (state_of s)) }
    ensures way { IfOk result (λ s. (f t : ℕ) → IsPartOf f t part.now
        → AddsAlike (track spec.now) (known_at part.now.stretches.items)
        (events_at part.now.rows.now) f t (limit +ℤ pos 36001) rows.old.items rows.new.items
        (state_of s) (state_of target)) }
{
    let course = course_of(alloc, spec, part)?;
    let mut letters = Vec::new(alloc);
    let moves = course.moves();
    let source = clamped_source_of(alloc, spec, before, moves, limit, target, &mut letters)?;
    add_letters(spec, &letters, rows)?;
    Ok(source)
}

/// On from a state that stands alone, over the part, to one that can be completed and stands alone.
/// The letters at its unknown tenths are added as rows, first to last.
pub(crate) fn on_over(
    alloc: Global,
    spec: &Spec,
    part: &Part<'_>,
    from: &Passing,
    after: &Ahead,
    rows: &mut Vec<Row>,
) -> Result<Passing, NoMemory>
    requires spec { AreSpecs (spec.now ∷ []) }
    requires part { (f t : ℕ) × IsPartOf f t part.now × (t ≤ 2 ^ 32) }
    requires alone { (low : ℕ) × StandsAlone (rules_of spec.now) low from.now
        × GoOn (rules_of spec.now) low (moves_over spec.now part.now) }
    requires ahead { length after.now ≡ (rules_of spec.now).colours }
    requires completed { BeforeMoves (rules_of spec.now) after.now (moves_over spec.now part.now)
        (state_of from.now.state) }
    ensures admitted { IfOk result (λ r. Admits after.now (state_of r.state)) }
    ensures alone { IfOk result (λ r. IsAlone r.only r.state) }
    ensures colours { IfOk result (λ r. length r.only ≡ (rules_of spec.now).colours) }
    ensures late { IfOk result (λ r. negsuc (2 ^ 39) ≤ℤ r.state.entry) }
    ensures way { IfOk result (λ r. (f t : ℕ) → IsPartOf f t part.now
        → AddsPiece (track spec.now) (known_at part.now.stretches.items)
        (events_at part.now.rows.now) f t rows.old.items rows.new.items
        (state_of from.now.state) (state_of r.state)) }
{
    let course = course_of(alloc, spec, part)?;
    let mut letters = Vec::new(alloc);
    let end = way_on(alloc, spec, from, course.moves(), after, &mut letters)?;
    letters.reverse();
    add_letters(spec, &letters, rows)?;
    Ok(end)
}
