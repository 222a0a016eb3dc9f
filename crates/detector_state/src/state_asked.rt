// What is asked at the end of a tenth.
ghost use Rattle.std.specs.Prelude.{◌≡◌, ◌↔◌, ◌<◌, ◌≤◌, ℕ, true, IsTrue, length};
ghost use Rattle.gap_map.specs.Stretches.{known_at};
ghost use Rattle.board.specs.Verdicts.{MayPass};
ghost use Rattle.detector_state.specs.States.{AllHave, IsAsked, Meets};

use board::HourView;
use colour_machine::Mask;
use reach::{AgeBound, Test};

/// What is asked of a channel at the end of a tenth.
#[derive(Clone, Copy, Debug, PartialEq, Eq)]
pub enum Asked {
    /// It has this colour in all histories. Colours are 0 to 15.
    Colour(u8),
    /// No colour below this number is the one that it has in all histories.
    NoneOf(u8),
}

// Whether the channel has the colour in all histories at the end of the known tenth.
fn has_in_all(view: &HourView, spec: u16, at: u32, colour: u8) -> bool
    requires spec { spec < length view.now.specs }
    requires colour { colour < 16 }
    ensures { known_at view.now.stretches at ≡ true → IsTrue result
        ↔ AllHave (MayPass view.now at spec) colour }
{
    let test = Test {
        colours: Mask::none().with(colour),
        bound: AgeBound::Any,
        at: i64::from(at),
    };
    let seen = view.seen_at_end(spec, at, &test);
    !seen.some_false
}

// Whether it has none of them.
fn is_open(view: &HourView, spec: u16, at: u32, colours: u8) -> bool
    requires spec { spec < length view.now.specs }
    requires colours { colours ≤ 16 }
    ensures { known_at view.now.stretches at ≡ true → IsTrue result
        ↔ ((c : ℕ) → c < colours → AllHave (MayPass view.now at spec) c → ⊥) }
{
    for colour in 0..colours {
        if has_in_all(view, spec, at, colour) {
            return false;
        }
    }
    true
}

/// Whether what is asked holds at the end of the known tenth.
pub(crate) fn holds(view: &HourView, spec: u16, at: u32, asked: Asked) -> bool
    requires spec { spec < length view.now.specs }
    requires asked { IsAsked asked }
    ensures { known_at view.now.stretches at ≡ true → IsTrue result
        ↔ Meets asked (MayPass view.now at spec) }
{
    match asked {
        Asked::Colour(colour) => has_in_all(view, spec, at, colour),
        Asked::NoneOf(colours) => is_open(view, spec, at, colours),
    }
}
