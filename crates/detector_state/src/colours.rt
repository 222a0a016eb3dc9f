// The colours that a channel may have.
ghost use Rattle.std.specs.Prelude.{◌≡◌, ◌↔◌, ◌⊎◌, ◌<◌, ◌≤◌, ◌^◌, ℕ, IsTrue, length};
ghost use Rattle.colour_machine.specs.Mask.{Has};
ghost use Rattle.colour_machine.specs.Rules.{Goes};
ghost use Rattle.reach.specs.Runs.{State};
ghost use Rattle.reach.specs.Past.{Holds};
ghost use Rattle.channel_path.specs.Walks.{EnteredBefore};
ghost use Rattle.channel_tables.specs.Any.{any_rules};
ghost use Rattle.channel_tables.specs.Spec.{rules_of};
ghost use Rattle.detector_state.specs.Switches.{switch_spec};
ghost use Rattle.detector_state.specs.Masks.{HasStates, IsImage};

use channel_tables::{AnyMachine, Spec, machine_of};
use colour_machine::{Machine, Mask};
use event_codes::Channel;
use reach::{AgeBound, Ahead, Past, Test, possible};
use sig_base::Tenth;

// Later than each tenth of a window.
const LATE: Tenth = 4_294_967_296;

/// The machine of the channel.
pub fn machine(channel: Channel) -> AnyMachine
    ensures { any_rules result ≡ rules_of (switch_spec channel) }
{
    machine_of(&Spec {
        channel,
        floors: [0; 16],
    })
}

// The mask with the colour that the letter leads to, where the colour is in the mask.
fn with_image<M: Machine>(machine: &M, mask: Mask, colour: u8, letter: u8, to: Mask) -> Mask
    requires colour { colour < (M.rules machine.now).colours }
    requires letter { letter < (M.rules machine.now).letters }
    ensures { (d : ℕ) → Has result d
        ↔ (Has to d ⊎ (Has mask colour × Goes (M.rules machine.now) colour letter d)) }
{
    if mask.has(colour) {
        return match machine.step(colour, letter) {
            Some(next) => to.with(next),
            None => to,
        };
    }
    to
}

/// The colours that the letter leads to from those of the mask.
pub fn image<M: Machine>(machine: &M, mask: Mask, letter: u8) -> Mask
    requires letter { letter < (M.rules machine.now).letters }
    ensures { (d : ℕ) → Has result d ↔ IsImage (M.rules machine.now) mask letter d }
{
    let mut to = Mask::none();
    for colour in 0..machine.colours() {
        to = with_image(machine, mask, colour, letter, to);
    }
    to
}

/// All colours of the machine.
pub fn all<M: Machine>(machine: &M) -> Mask
    ensures { (d : ℕ) → Has result d ↔ (d < (M.rules machine.now).colours) }
{
    let mut mask = Mask::none();
    for colour in 0..machine.colours() {
        mask = mask.with(colour);
    }
    mask
}

// Whether one of the states, all of them entered before the hour, has the colour.
fn has_state(before: &Past, colours: u8, colour: u8) -> bool
    requires some { 1 ≤ colours }
    requires few { colours ≤ 16 }
    requires colours { length before.now ≡ colours }
    requires colour { colour < colours }
    ensures { (f : ℕ) → f < 2 ^ 32 → EnteredBefore before.now f
        → IsTrue result ↔ ((s : State) × Holds before.now s × (s.colour ≡ colour)) }
{
    let end = Ahead::end(colours, LATE);
    let test = Test {
        colours: Mask::none().with(colour),
        bound: AgeBound::Any,
        at: LATE,
    };
    possible(before, &end, &test).some_true
}

/// The colours of the states, all of them entered before the hour.
pub fn of_states<M: Machine>(machine: &M, before: &Past) -> Mask
    requires { length before.now ≡ (M.rules machine.now).colours }
    ensures { (f : ℕ) → f < 2 ^ 32 → EnteredBefore before.now f → HasStates before.now result }
{
    let colours = machine.colours();
    let mut mask = Mask::none();
    for colour in 0..colours {
        if has_state(before, colours, colour) {
            mask = mask.with(colour);
        }
    }
    mask
}
