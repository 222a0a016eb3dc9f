// Whether equally much crosses two points.
ghost use Rattle.std.specs.Prelude.{◌≡◌, ◌↔◌, IsTrue};

use crate::windows::{OpenGreen, Windows};

/// Whether both greens are equal, where there is one.
pub(crate) fn same_green(a: Option<OpenGreen>, b: Option<OpenGreen>) -> bool
    ensures { IsTrue result ↔ (a ≡ b) }
{
    a == b
}

fn same_windows(one: Windows, other: Windows) -> bool
    ensures { IsTrue result ↔ (one ≡ other) }
{
    one == other
}

/// Whether both lists are equal.
pub(crate) fn same_pending(a: &[Windows], b: &[Windows]) -> bool
    ensures { IsTrue result ↔ (a.now ≡ b.now) }
{
    if a.len() != b.len() {
        return false;
    }
    for (i, one) in a.iter().enumerate() {
        if !same_windows(*one, b[i]) {
            return false;
        }
    }
    true
}
