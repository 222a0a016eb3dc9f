// The services whose red window crosses a point between two hours.
ghost use Rattle.std.specs.Prelude.{◌≡◌, ◌↔◌, ◌+◌, ◌<◌, IsTrue, IfOk, nat_lt, []};
ghost use Rattle.service_cut.specs.Cut.{closing_at};

use crate::hour::Cuts;
use crate::items::Served;
use sig_base::NoMemory;
use std::alloc::Global;
use std::marker::Model;

/// The whole services that ended before a point between two hours and whose red window isn't over
/// there, by their rows. The red window is the 50 tenths from the end of yellow on.
#[derive(Drop)]
pub struct Closing {
    services: Vec<Served>,
}

impl Model for Closing {
    ghost use Rattle.std.specs.Prelude.{List};
    ghost use Rattle.service_cut.specs.declared.items.Served.{Served};

    ghost Value = { List Served };

    ghost view = { λ c. c.services.items };
}

impl Closing {
    /// Those at the window's start: none. Can't run out of memory.
    pub fn start(alloc: Global) -> Closing
        ensures { result ≡ [] }
    {
        Closing {
            services: Vec::new(alloc),
        }
    }

    /// Those of an hour at tenth `point`, the point after it.
    pub fn of(alloc: Global, cuts: &Cuts, point: u32) -> Result<Closing, NoMemory>
        ensures { IfOk result (λ c. c ≡ closing_at point cuts.now.served) }
    {
        let services = open_at(alloc, cuts.served(), point)?;
        Ok(Closing { services })
    }

    /// An equal value.
    pub fn copy(&self, alloc: Global) -> Result<Closing, NoMemory>
        ensures { IfOk result (λ c. c ≡ self.now) }
    {
        let services = self.services.iter().copied().collect(alloc)?;
        Ok(Closing { services })
    }

    /// Whether both are the same, row for row.
    pub fn same(&self, other: &Closing) -> bool
        ensures { IsTrue result ↔ (self.now ≡ other.now) }
    {
        same_services(&self.services, &other.services)
    }
}

fn is_open(service: &Served, point: u32) -> bool
    ensures { result ≡ nat_lt point (service.now.r.at + 50) }
{
    u64::from(point) < u64::from(service.r.at) + 50
}

// Those whose red window isn't over.
fn open_at(alloc: Global, services: &[Served], point: u32) -> Result<Vec<Served>, NoMemory>
    ensures { IfOk result (λ v. v.items ≡ closing_at point services.now) }
{
    let open = services
        .iter()
        .copied()
        .filter(|service| is_open(service, point))
        .collect(alloc)?;
    Ok(open)
}

fn same_service(one: Served, other: Served) -> bool
    ensures { IsTrue result ↔ (one ≡ other) }
{
    one == other
}

fn same_services(a: &[Served], b: &[Served]) -> bool
    ensures { IsTrue result ↔ (a.now ≡ b.now) }
{
    if a.len() != b.len() {
        return false;
    }
    for (i, one) in a.iter().enumerate() {
        if !same_service(*one, b[i]) {
            return false;
        }
    }
    true
}
