// Changes of colour.
ghost use Rattle.std.specs.Prelude.{◌≡◌, ℕ, ◌≤ℤ◌, ◌<◌, MatchOption};
ghost use Rattle.colour_machine.specs.Rules.{Goes, Change};
ghost use Rattle.reach.specs.Sets.{at};
ghost use Rattle.gap_ways.specs.Rounds.{NoneOf, NoEdge, IsEdge};

use colour_machine::Machine;
use sig_base::Tenth;

/// A letter that changes a colour.
#[derive(Clone, Copy)]
pub struct Edge {
    pub colour: u8,
    pub letter: u8,
}

// A letter that leads from the colour to the other.
fn letter_to<M: Machine>(machine: &M, colour: u8, to: u8) -> Option<u8>
    requires { colour < (M.rules machine.now).colours }
    ensures { MatchOption result
        (NoneOf (M.rules machine.now) colour to (M.rules machine.now).letters)
        (λ l. Goes (M.rules machine.now) colour l to) }
{
    for letter in 0..machine.letters() {
        if machine.step(colour, letter) == Some(to) {
            return Some(letter);
        }
    }
    None
}

// An edge from the colour to the given one, where it may be left by the tenth.
fn edge_from<M: Machine>(
    machine: &M,
    leave: &[Tenth; 16],
    colour: u8,
    to: u8,
    by: Tenth,
) -> Option<Edge>
    requires { colour < (M.rules machine.now).colours }
    ensures { MatchOption result
        (Change (M.rules machine.now) colour to → at leave.now colour ≤ℤ by → ⊥)
        (IsEdge (M.rules machine.now) leave.now to by) }
{
    if colour == to || by < leave[colour as usize] {
        return None;
    }
    match letter_to(machine, colour, to) {
        Some(letter) => Some(Edge { colour, letter }),
        None => None,
    }
}

/// An edge to the colour, from one that may be left by the tenth.
pub fn edge_to<M: Machine>(machine: &M, leave: &[Tenth; 16], to: u8, by: Tenth) -> Option<Edge>
    ensures { MatchOption result
        (NoEdge (M.rules machine.now) leave.now to by (M.rules machine.now).colours)
        (IsEdge (M.rules machine.now) leave.now to by) }
{
    for colour in 0..machine.colours() {
        if let Some(edge) = edge_from(machine, leave, colour, to, by) {
            return Some(edge);
        }
    }
    None
}
