// Which colours changes lead to.
ghost use Rattle.std.specs.Prelude.{◌≡◌, ◌≢◌, ℕ, ◌<◌, ◌⊎◌, ◌↔◌};
ghost use Rattle.colour_machine.specs.Changes.{ReachedOne};
ghost use Rattle.colour_machine.specs.Mask.{Has};
ghost use Rattle.colour_machine.specs.Rules.{Goes, Change, IsReached, AreColours};

use crate::{Machine, Mask};

/// The colours that one or more changes of colour reach from a colour of the mask, floors aside.
/// Colours of the mask that the machine doesn't have lead nowhere.
pub fn after_any<M: Machine>(machine: &M, from: Mask) -> Mask
    ensures reached { (d : ℕ) → Has result d ↔ IsReached (M.rules machine.now) from d }
    ensures colours { AreColours (M.rules machine.now) result }
{
    let mut reached = Mask::none();
    'rounds: loop {
        let next = after_one(machine, from, reached);
        if next == reached {
            return reached;
        }
        reached = next;
    }
}

// The colours of `reached`, and those that one change reaches from a colour of `from` or `reached`.
fn after_one<M: Machine>(machine: &M, from: Mask, reached: Mask) -> Mask
    ensures { (d : ℕ) → Has result d ↔ (Has reached d ⊎ ReachedOne (M.rules machine.now) from
        reached d) }
{
    let mut next = reached;
    for colour in 0..machine.colours() {
        next = with_changes_if(machine, colour, from, reached, next);
    }
    next
}

// The mask with the colours that one change reaches from the colour, where `from` or `reached` has
// it.
fn with_changes_if<M: Machine>(
    machine: &M,
    colour: u8,
    from: Mask,
    reached: Mask,
    mask: Mask,
) -> Mask
    requires { colour < (M.rules machine.now).colours }
    ensures { (d : ℕ) → Has result d ↔ (Has mask d ⊎ ((Has from colour
        ⊎ Has reached colour) × Change (M.rules machine.now) colour d)) }
{
    if from.has(colour) || reached.has(colour) {
        return with_changes(machine, colour, mask);
    }
    mask
}

// The mask with the colours that one change reaches from the colour.
fn with_changes<M: Machine>(machine: &M, colour: u8, mask: Mask) -> Mask
    requires { colour < (M.rules machine.now).colours }
    ensures { (d : ℕ) → Has result d ↔ (Has mask d ⊎ Change (M.rules machine.now) colour d) }
{
    let mut next = mask;
    for letter in 0..machine.letters() {
        next = with_change(machine, colour, letter, next);
    }
    next
}

/// The mask with the colour that the letter leads to, where that is another.
pub fn with_change<M: Machine>(machine: &M, colour: u8, letter: u8, mask: Mask) -> Mask
    requires colour { colour < (M.rules machine.now).colours }
    requires letter { letter < (M.rules machine.now).letters }
    ensures { (d : ℕ) → Has result d ↔ (Has mask d ⊎ (Goes (M.rules machine.now) colour letter d
        × (d ≢ colour))) }
{
    match machine.step(colour, letter) {
        Some(to) if to != colour => mask.with(to),
        Some(_) => mask,
        None => mask,
    }
}
