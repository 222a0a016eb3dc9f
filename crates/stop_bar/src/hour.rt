// One stop bar over one hour.
ghost use Rattle.std.specs.Prelude.{ℕ, ◌≡◌, ◌<◌, ◌+◌, ◌++◌, ◌==◌, IfOk, find, unwrap_or};
ghost use Rattle.stop_bar.specs.Going.{of_phase};
ghost use Rattle.stop_bar.specs.Bars.{IsBarHour, IsOpenNext, open_with, without_end, without_ends};

use crate::at_bar::AtBar;
use crate::window_hour::{open_after, windows_hour};
use crate::windows::{OpenGreen, Windows};
use detector_state::Switched;
use service_cut::{Cuts, OpenService, Service, Termination};
use sig_base::{Hour, NoMemory};
use std::alloc::Global;

/// What an hour gives at a stop bar.
#[derive(Drop)]
pub struct OverBar {
    /// The services whose red window ends in the hour or at its end, in the order of their ends of
    /// yellow.
    pub ended: Vec<Windows>,
    /// What crosses the point after the hour.
    pub after: AtBar,
}

/// The windows that end in the hour, and what crosses the point after it, at a stop bar of this
/// phase, whose detector's tenths are `switched`.
pub fn bar_hour(
    alloc: Global,
    phase: u8,
    before: &AtBar,
    cuts: &Cuts,
    switched: &Switched,
    hour: Hour,
) -> Result<OverBar, NoMemory>
    requires { hour < 744 }
    ensures { IfOk result (λ o. IsBarHour phase hour before.now cuts.now switched.now
        o.ended.items o.after) }
{
    let own = own_services(alloc, cuts.services(), phase)?;
    let over = windows_hour(alloc, before.green, &before.pending, &own, switched, hour)?;
    let green = open_next(phase, before, cuts, switched, hour);
    Ok(OverBar {
        ended: over.ended,
        after: AtBar {
            green,
            pending: over.pending,
            alloc,
        },
    })
}

fn without_end(service: Service) -> Service
    ensures { result ≡ without_end service }
{
    Service {
        end: Termination::Unlogged,
        ..service
    }
}

// The services of the phase, in their order, without their terminations.
fn own_services(alloc: Global, services: &[Service], phase: u8) -> Result<Vec<Service>, NoMemory>
    ensures { IfOk result (λ v. v.items ≡ without_ends (of_phase phase services.now)) }
{
    let own = services
        .iter()
        .copied()
        .filter(|service| service.phase == phase)
        .map(|service| without_end(service))
        .collect(alloc)?;
    Ok(own)
}

// The open service of the phase.
fn open_service_of(services: &[OpenService], phase: u8) -> Option<OpenService>
    ensures { result ≡ open_with phase services.now }
{
    services.iter().copied().find(|one| one.phase == phase)
}

// The green that is open at the hour's end.
fn open_next(
    phase: u8,
    before: &AtBar,
    cuts: &Cuts,
    switched: &Switched,
    hour: Hour,
) -> Option<OpenGreen>
    requires { hour < 744 }
    ensures { IsOpenNext phase hour before.now cuts.now switched.now result }
{
    match open_service_of(cuts.open_services(), phase) {
        Some(service) => {
            let to = service.g.unwrap_or(36_000 * hour + 36_000);
            Some(open_after(switched, hour, before.green, service.b, to))
        }
        None => None,
    }
}
