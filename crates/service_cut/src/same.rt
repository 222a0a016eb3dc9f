// Whether two parts are equal.
ghost use Rattle.std.specs.Prelude.{◌≡◌, ◌↔◌, IsTrue};

use crate::cycles::CycleBegun;
use crate::parts::Part;
use crate::services::ServiceBegun;

fn same_service(a: ServiceBegun, b: ServiceBegun) -> bool
    ensures { IsTrue result ↔ (a ≡ b) }
{
    a.b == b.b && a.g == b.g && a.y == b.y && a.cause == b.cause
}

fn same_services(a: Option<ServiceBegun>, b: Option<ServiceBegun>) -> bool
    ensures { IsTrue result ↔ (a ≡ b) }
{
    match a {
        None => b.is_none(),
        Some(x) => match b {
            None => false,
            Some(y) => same_service(x, y),
        },
    }
}

fn same_cycle(a: CycleBegun, b: CycleBegun) -> bool
    ensures { IsTrue result ↔ (a ≡ b) }
{
    a.from == b.from && a.green == b.green && a.yellow == b.yellow
}

fn same_cycles(a: Option<CycleBegun>, b: Option<CycleBegun>) -> bool
    ensures { IsTrue result ↔ (a ≡ b) }
{
    match a {
        None => b.is_none(),
        Some(x) => match b {
            None => false,
            Some(y) => same_cycle(x, y),
        },
    }
}

fn same_part(a: Part, b: Part) -> bool
    ensures { IsTrue result ↔ (a ≡ b) }
{
    a.phase == b.phase
        && same_services(a.service, b.service)
        && a.yellow == b.yellow
        && same_cycles(a.cycle, b.cycle)
}

fn same_place(a: Option<Part>, b: Option<Part>) -> bool
    ensures { IsTrue result ↔ (a ≡ b) }
{
    match a {
        None => b.is_none(),
        Some(x) => match b {
            None => false,
            Some(y) => same_part(x, y),
        },
    }
}

pub(crate) fn same_parts(a: &[Option<Part>], b: &[Option<Part>]) -> bool
    ensures { IsTrue result ↔ (a.now ≡ b.now) }
{
    if a.len() != b.len() {
        return false;
    }
    for (i, part) in a.iter().enumerate() {
        if !same_place(*part, b[i]) {
            return false;
        }
    }
    true
}
