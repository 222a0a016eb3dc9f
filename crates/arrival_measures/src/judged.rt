// Rows of detectors, judged by what their phase shows.
ghost use Rattle.std.specs.Prelude.{◌≡◌, ◌≤◌, ◌<◌, ◌+◌, ◌&&◌, nat_lt, ℕ, Bool, true, false, List, All, IsTrue, length, slice_index_or};
ghost use Rattle.sig_base.specs.declared.values.Row.{Row};
ghost use Rattle.gap_map.specs.Stretches.{AreStretches, known_at};
ghost use Rattle.hour_sweep.specs.Sums.{capped, one_if};
ghost use Rattle.board.specs.Logs.{HourLog};
ghost use Rattle.board.specs.Places.{IsViewOf};
ghost use Rattle.board.specs.Verdicts.{MayPass};
ghost use Rattle.arrival_measures.specs.Judged.{is_green, is_red};
ghost use Rattle.arrival_measures.specs.Steps.{AreJudgedRows, IsMaskOf, IsPlaceAt, JudgesRows, Says, judged_unseen, judged_with, no_judged, no_stretch};

use board::HourView;
use colour_machine::Mask;
use gap_map::Stretch;
use hour_sweep::total;
use reach::{AgeBound, Seen, Test};
use sig_base::Row;

/// Rows of a detector: all of them, those at whose tenth's end the phase passes in all histories, in
/// none and only in some.
#[derive(Clone, Copy)]
pub(crate) struct Judged {
    pub(crate) rows: u64,
    pub(crate) all: u64,
    pub(crate) none: u64,
    pub(crate) some: u64,
    /// Those of which nothing is seen, since their tenth isn't known.
    pub(crate) unseen: u64,
}

/// The colour Green.
pub(crate) fn green() -> Mask
    ensures { IsMaskOf is_green result }
{
    Mask::none().with(2)
}

/// The colours Red, YellowDone, Clear and ClearDone.
pub(crate) fn red() -> Mask
    ensures { IsMaskOf is_red result }
{
    Mask::none().with(0).with(5).with(6).with(7)
}

/// No row.
pub(crate) fn nothing() -> Judged
    ensures { result ≡ no_judged }
{
    Judged {
        rows: 0,
        all: 0,
        none: 0,
        some: 0,
        unseen: 0,
    }
}

// One more, if it is so.
fn more(count: u64, one: bool) -> u64
    ensures { result ≡ capped (count + one_if one) }
{
    if one { total(count, 1) } else { count }
}

impl Judged {
    // One row more, of which this is seen.
    fn with(self, seen: Seen) -> Judged
        ensures { result ≡ judged_with self seen }
    {
        Judged {
            rows: more(self.rows, true),
            all: more(self.all, !seen.some_false),
            none: more(self.none, !seen.some_true),
            some: more(self.some, seen.some_true && seen.some_false),
            unseen: self.unseen,
        }
    }

    // One row more, of which nothing is seen.
    fn with_unseen(self) -> Judged
        ensures { result ≡ judged_unseen self }
    {
        Judged {
            rows: more(self.rows, true),
            unseen: more(self.unseen, true),
            ..self
        }
    }
}

// What is seen of the channel's colour at the end of the known tenth, and how many of its moves come
// before that: looked for from such a number on, which was answered for an earlier tenth.
fn seen(view: &HourView, spec: u16, at: u32, colours: Mask, near: usize) -> (Seen, usize)
    requires { spec < length view.now.specs }
    ensures { (log : HourLog) (test : ℕ → Bool) → IsViewOf log view.now
        → known_at log.stretches at ≡ true → IsMaskOf test colours
        → Says test (MayPass log at spec) result.0 }
{
    let test = Test {
        colours,
        bound: AgeBound::Any,
        at: i64::from(at),
    };
    view.seen_from(spec, at, &test, near)
}

// The place of the stretch that has the tenth, or their number where none has it.
fn place_of(stretches: &[Stretch], at: u32) -> usize
    ensures { IsPlaceAt stretches.now at result }
{
    stretches.partition_point(|stretch| stretch.to <= at)
}

// Whether the stretch with this place has the tenth.
fn has_at(stretches: &[Stretch], place: usize, at: u32) -> bool
    ensures { IsTrue result → IsPlaceAt stretches.now at place }
{
    if place >= stretches.len() {
        return false;
    }
    let stretch = stretches[place];
    if at < stretch.from {
        return false;
    }
    if at < stretch.to {
        return true;
    }
    false
}

// The same as `place_of`, where the stretch at `near` mostly has the tenth.
fn place_near(stretches: &[Stretch], near: usize, at: u32) -> usize
    ensures { IsPlaceAt stretches.now at result }
{
    if has_at(stretches, near, at) {
        near
    } else {
        place_of(stretches, at)
    }
}

// Whether the tenths of the stretch with this place are known.
fn knows(stretches: &[Stretch], place: usize) -> bool
    ensures { result ≡ (slice_index_or stretches.now place no_stretch).known }
{
    place < stretches.len() && stretches[place].known
}

/// Whether the tenth is known, by the stretches of an hour that isn't past it; one after the hour
/// isn't.
pub(crate) fn is_known(stretches: &[Stretch], at: u32) -> bool
    ensures { (known : ℕ → Bool) (a b : ℕ) → AreStretches known a b stretches.now → a ≤ at
        → result ≡ (known at && nat_lt at b) }
{
    knows(stretches, place_of(stretches, at))
}

/// Arrivals at the hour's first tenth or later, each that is seen judged by whether the phase is in
/// one of the colours.
pub(crate) fn judged_rows(
    view: &HourView,
    spec: u16,
    colours: Mask,
    rows: &[Row],
    stretches: &[Stretch],
) -> Judged
    requires { spec < length view.now.specs }
    ensures { JudgesRows view.now stretches.now spec colours rows.now result }
{
    let mut judged = nothing();
    let mut place = 0;
    let mut moves = 0;
    for row in rows {
        place = place_near(stretches, place, row.at);
        if knows(stretches, place) {
            let (found, before) = seen(view, spec, row.at, colours, moves);
            judged = judged.with(found);
            moves = before;
        } else {
            judged = judged.with_unseen();
        }
    }
    judged
}

/// The same where no tenth is known.
pub(crate) fn unseen_rows(rows: &[Row]) -> Judged
    ensures { (test : ℕ → Bool) (sees : Row → Bool) → All (λ x. sees x ≡ false) rows.now
        → AreJudgedRows test (λ _ _. ⊥) sees rows.now result }
{
    let mut judged = nothing();
    for _row in rows {
        judged = judged.with_unseen();
    }
    judged
}
