// Whether two parts are equal.
ghost use Rattle.std.specs.Prelude.{◌≡◌, ◌↔◌, IsTrue};

use crate::last_rows::LastRow;
use crate::peds::PedPart;
use crate::preempts::PreemptPart;

fn same_last(a: LastRow, b: LastRow) -> bool
    ensures { IsTrue result ↔ (a ≡ b) }
{
    a.row == b.row && a.first == b.first
}

fn same_lasts(a: Option<LastRow>, b: Option<LastRow>) -> bool
    ensures { IsTrue result ↔ (a ≡ b) }
{
    match a {
        None => b.is_none(),
        Some(x) => match b {
            None => false,
            Some(y) => same_last(x, y),
        },
    }
}

fn same_ped(a: PedPart, b: PedPart) -> bool
    ensures { IsTrue result ↔ (a ≡ b) }
{
    a.number == b.number && same_lasts(a.walk, b.walk)
}

fn same_ped_place(a: Option<PedPart>, b: Option<PedPart>) -> bool
    ensures { IsTrue result ↔ (a ≡ b) }
{
    match a {
        None => b.is_none(),
        Some(x) => match b {
            None => false,
            Some(y) => same_ped(x, y),
        },
    }
}

fn same_preempt(a: PreemptPart, b: PreemptPart) -> bool
    ensures { IsTrue result ↔ (a ≡ b) }
{
    a.number == b.number && a.call == b.call && same_lasts(a.service, b.service)
}

fn same_preempt_place(a: Option<PreemptPart>, b: Option<PreemptPart>) -> bool
    ensures { IsTrue result ↔ (a ≡ b) }
{
    match a {
        None => b.is_none(),
        Some(x) => match b {
            None => false,
            Some(y) => same_preempt(x, y),
        },
    }
}

pub(crate) fn same_peds(a: &[Option<PedPart>], b: &[Option<PedPart>]) -> bool
    ensures { IsTrue result ↔ (a.now ≡ b.now) }
{
    if a.len() != b.len() {
        return false;
    }
    for (i, part) in a.iter().enumerate() {
        if !same_ped_place(*part, b[i]) {
            return false;
        }
    }
    true
}

pub(crate) fn same_preempts(a: &[Option<PreemptPart>], b: &[Option<PreemptPart>]) -> bool
    ensures { IsTrue result ↔ (a.now ≡ b.now) }
{
    if a.len() != b.len() {
        return false;
    }
    for (i, part) in a.iter().enumerate() {
        if !same_preempt_place(*part, b[i]) {
            return false;
        }
    }
    true
}
