// What is kept of one phase.
ghost use Rattle.std.specs.Prelude.{◌≡◌};
ghost use Rattle.service_cut.specs.Signs.{is_told_by};
ghost use Rattle.service_cut.specs.Passing.{others_pass};
ghost use Rattle.service_cut.specs.Steps.{part_after, part_cleared, cycle_over, ends_with, told_by};

use crate::cycles::{CycleBegun, cycle_after, live_yellow_after, offset};
use crate::items::Cycle;
use crate::services::{ServiceBegun, ServiceOver, service_after, service_over};
use crate::signs::{Sign, sign_of};
use hour_sweep::Track;
use sig_base::Row;

/// What is under way of one phase.
#[derive(Clone, Copy)]
pub(crate) struct Part {
    pub(crate) phase: u8,
    pub(crate) service: Option<ServiceBegun>,
    /// The last begin of yellow, while no end of it has come.
    pub(crate) yellow: Option<Row>,
    pub(crate) cycle: Option<CycleBegun>,
}

/// What one row ends: a service, a cycle or both.
#[derive(Clone, Copy)]
pub(crate) struct Ended {
    pub(crate) service: Option<ServiceOver>,
    pub(crate) cycle: Option<Cycle>,
}

/// What a row tells of its phase.
#[derive(Clone, Copy)]
pub(crate) enum Told {
    Ends(Ended),
    /// The row says why a green ends.
    Says(Row),
}

fn cycle_over(part: &Part, row: &Row) -> Option<Cycle>
    ensures { result ≡ cycle_over row.now part.now }
{
    match part.yellow {
        Some(_) => match part.cycle {
            Some(cycle) => Some(Cycle {
                phase: part.phase,
                from: cycle.from.at,
                to: row.at,
                green: offset(cycle.from.at, cycle.green),
                yellow: offset(cycle.from.at, cycle.yellow),
            }),
            None => None,
        },
        None => None,
    }
}

fn ends(service: Option<ServiceOver>, cycle: Option<Cycle>) -> Option<Told>
    ensures { result ≡ ends_with service cycle }
{
    if service.is_none() && cycle.is_none() {
        return None;
    }
    Some(Told::Ends(Ended { service, cycle }))
}

impl Track for Part {
    type Out = Told;

    ghost step = { part_after };

    ghost clear = { part_cleared };

    ghost out_by = { told_by };

    ghost wants = { is_told_by };

    ghost passes = { others_pass };

    fn wants(code: u8) -> bool {
        code <= 10
    }

    fn after(self, row: &Row) -> Self {
        let sign = sign_of(self.phase, row);
        Part {
            phase: self.phase,
            service: service_after(self.service, sign, *row),
            yellow: live_yellow_after(self.yellow, sign, *row),
            cycle: cycle_after(self.cycle, self.yellow, sign, *row),
        }
    }

    fn cleared(self) -> Self {
        Part {
            phase: self.phase,
            service: None,
            yellow: None,
            cycle: None,
        }
    }

    fn out(self, row: &Row) -> Option<Told> {
        match sign_of(self.phase, row) {
            Sign::Cause => Some(Told::Says(*row)),
            Sign::End => ends(
                service_over(self.phase, self.service, row),
                cycle_over(&self, row),
            ),
            _ => None,
        }
    }
}
