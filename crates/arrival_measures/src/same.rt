// Whether what crosses two points is equal.
ghost use Rattle.std.specs.Prelude.{◌≡◌, ◌↔◌, ℕ, None, IsTrue, slice_index_or};
ghost use Rattle.arrival_measures.specs.Crossing.{all_flags};

use crate::carry::Crossing;
use crate::faults::Flag;
use crate::open::Open;

fn same_place(a: Option<Open>, b: Option<Open>) -> bool
    ensures { IsTrue result ↔ (a ≡ b) }
{
    a == b
}

fn same_tenths(a: &[u32], b: &[u32]) -> bool
    ensures { IsTrue result ↔ (a.now ≡ b.now) }
{
    a == b
}

fn same_crossing(a: &Crossing, b: &Crossing) -> bool
    ensures { IsTrue result ↔ (a.now ≡ b.now) }
{
    same_place(a.begun, b.begun) && same_tenths(a.pending.list(), b.pending.list())
}

/// Whether both lists are equal.
pub(crate) fn same_crossings(a: &[Crossing], b: &[Crossing]) -> bool
    ensures { IsTrue result ↔ (a.now ≡ b.now) }
{
    if a.len() != b.len() {
        return false;
    }
    for (i, crossing) in a.iter().enumerate() {
        if !same_crossing(crossing, &b[i]) {
            return false;
        }
    }
    true
}

fn same_flag(a: Option<Flag>, b: Option<Flag>) -> bool
    ensures { IsTrue result ↔ (a ≡ b) }
{
    a == b
}

fn same_list(a: &[Option<Flag>], b: &[Option<Flag>]) -> bool
    ensures { IsTrue result ↔ (a.now ≡ b.now) }
{
    if a.len() != b.len() {
        return false;
    }
    for (i, flag) in a.iter().enumerate() {
        if !same_flag(*flag, b[i]) {
            return false;
        }
    }
    true
}

// The flag of this number; none past the table's end.
fn flag_at(flags: &[Option<Flag>], number: usize) -> Option<Flag>
    ensures { result ≡ slice_index_or flags.now number None }
{
    if number < flags.len() {
        flags[number]
    } else {
        None
    }
}

// Whether each number has the same flag in both.
fn same_places(a: &[Option<Flag>], b: &[Option<Flag>]) -> bool
    ensures { IsTrue result
        ↔ ((i : ℕ) → slice_index_or a.now i None ≡ slice_index_or b.now i None) }
{
    for number in 0..a.len().max(b.len()) {
        if !same_flag(flag_at(a, number), flag_at(b, number)) {
            return false;
        }
    }
    true
}

/// Whether both tables tell the same of all detectors.
pub(crate) fn same_flags(a: &[Option<Flag>], b: &[Option<Flag>]) -> bool
    ensures { IsTrue result ↔ (all_flags a.now ≡ all_flags b.now) }
{
    if same_list(a, b) {
        return true;
    }
    a.len().max(129) == b.len().max(129) && same_places(a, b)
}
