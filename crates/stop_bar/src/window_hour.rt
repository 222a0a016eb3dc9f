// The windows of one hour at one detector.
ghost use Rattle.std.specs.Prelude.{ℕ, ◌≡◌, ◌<◌, ◌+◌, ◌++◌, ◌^◌, [], IfOk, OnOk, Some};
ghost use Rattle.board.specs.Logs.{end_tenth, first_tenth};
ghost use Rattle.signal_log.specs.Log.{Log};
ghost use Rattle.detector_state.specs.Hours.{AreTenths, IsSwitched, TellsEach};
ghost use Rattle.stop_bar.specs.Windows.{AreEnded, AreFit, ArePending, AreServicesOf, AreWindows};
ghost use Rattle.stop_bar.specs.Windows.{EndIn, EndsIn, IsEnded, IsOpen, IsPending, IsTaken};
ghost use Rattle.stop_bar.specs.Windows.{IsTold, due, left, services_of};
ghost use Rattle.stop_bar.specs.Going.{CanGoOn};

use crate::windows::{OpenGreen, Windows};
use detector_state::{OnTenths, Switched};
use service_cut::Service;
use sig_base::{Hour, NoMemory};
use std::alloc::Global;

// The tenths of a red window.
const RED: u32 = 50;

// The tenths of an hour: its first, and the first after it.
#[derive(Clone, Copy, PartialEq, Eq)]
struct Bounds {
    first: u32,
    end: u32,
}

fn bounds_of(hour: Hour) -> Bounds
    requires { hour < 744 }
    ensures first { result.first ≡ first_tenth hour }
    ensures end { result.end ≡ end_tenth hour }
{
    let first = 36_000 * hour;
    Bounds {
        first,
        end: first + 36_000,
    }
}

/// What an hour's services give at a detector.
#[derive(Drop)]
pub struct Over {
    /// The services whose red window ends in the hour or at its end, in the order of their ends of
    /// yellow.
    pub ended: Vec<Windows>,
    /// Those that ended in the hour while their red window goes on after it.
    pub pending: Vec<Windows>,
}

/// The windows of the hour, at a detector whose tenths are `switched`: `begun` is the green of its
/// phase that was open at the point before the hour, `pending` the services whose red window wasn't
/// over there, and `services` are the phase's whole services that end in the hour. The numbers are
/// those of the log where these are such as an hour can have.
pub fn windows_hour(
    alloc: Global,
    begun: Option<OpenGreen>,
    pending: &[Windows],
    services: &[Service],
    switched: &Switched,
    hour: Hour,
) -> Result<Over, NoMemory>
    requires { hour < 744 }
    ensures ended { IfOk result (λ o. services_of o.ended.items
        ≡ services_of pending.now ++ due (end_tenth hour) services.now) }
    ensures waiting { IfOk result (λ o. services_of o.pending.items
        ≡ left (end_tenth hour) services.now) }
    ensures numbers { IfOk result (λ o. AreWindows hour begun pending.now services.now
        switched.now o.ended.items o.pending.items) }
    ensures next { IfOk result (λ o. AreFit hour begun pending.now services.now
        → EndIn (first_tenth (hour + 1)) (end_tenth (hour + 1)) o.pending.items) }
{
    let tenths = bounds_of(hour);
    let mut ended = Vec::new(alloc);
    let mut waiting = Vec::new(alloc);
    end_all(&mut ended, pending, switched, tenths)?;
    place_all(&mut ended, &mut waiting, begun, services, switched, tenths)?;
    Ok(Over {
        ended,
        pending: waiting,
    })
}

// The numbers of a green, which goes on from the open one where it began before the hour.
fn green_on(switched: &Switched, hour: Bounds, begun: Option<OpenGreen>, b: u32, g: u32) -> OnTenths
    ensures { (log : Log) (i : ℕ) → IsTold log i hour.first hour.end switched.now begun
        → CanGoOn hour.first hour.end begun b g → AreTenths log i b g result }
{
    if b >= hour.first {
        return OnTenths::none().on(switched, b, g);
    }
    match begun {
        Some(green) => {
            if g > hour.first {
                return green.tenths.on(switched, hour.first, g);
            }
            green.tenths
        }
        None => OnTenths::none(),
    }
}

// A service whose red window ends in the hour.
fn end_pending(switched: &Switched, hour: Bounds, pending: &Windows) -> Windows
    requires { hour.end < 2 ^ 31 }
    ensures service { result.service ≡ pending.now.service }
    ensures numbers { (log : Log) (i : ℕ) → TellsEach log i hour.first hour.end switched.now
        → EndsIn hour.first hour.end pending.now → IsPending log i hour.first pending.now
        → IsEnded log i result }
{
    Windows {
        service: pending.service,
        green: pending.green,
        red: pending.red.on(switched, hour.first, pending.service.r.saturating_add(RED)),
    }
}

// Those whose red window wasn't over before the hour.
fn end_all(
    ended: &mut Vec<Windows>,
    pending: &[Windows],
    switched: &Switched,
    hour: Bounds,
) -> Result<(), NoMemory>
    requires low { hour.end < 2 ^ 31 }
    requires empty { ended.old.items ≡ [] }
    ensures services { OnOk result (services_of ended.new.items ≡ services_of pending.now) }
    ensures numbers { OnOk result ((log : Log) (i : ℕ)
        → TellsEach log i hour.first hour.end switched.now → EndIn hour.first hour.end pending.now
        → ArePending log i hour.first pending.now → AreEnded log i ended.new.items) }
{
    for one in pending {
        ended.push(end_pending(switched, hour, one))?;
    }
    Ok(())
}

// Those whose services end in the hour: their red window does too, or it goes on.
fn place_all(
    ended: &mut Vec<Windows>,
    waiting: &mut Vec<Windows>,
    begun: Option<OpenGreen>,
    services: &[Service],
    switched: &Switched,
    hour: Bounds,
) -> Result<(), NoMemory>
    requires low { hour.end < 2 ^ 31 }
    requires empty { waiting.old.items ≡ [] }
    ensures ended { OnOk result (services_of ended.new.items
        ≡ services_of ended.old.items ++ due hour.end services.now) }
    ensures waiting { OnOk result (services_of waiting.new.items ≡ left hour.end services.now) }
    ensures numbers { OnOk result ((log : Log) (i : ℕ)
        → IsTold log i hour.first hour.end switched.now begun
        → AreServicesOf hour.first hour.end begun services.now
        → AreEnded log i ended.old.items → AreEnded log i ended.new.items) }
    ensures pending { OnOk result ((log : Log) (i : ℕ)
        → IsTold log i hour.first hour.end switched.now begun
        → AreServicesOf hour.first hour.end begun services.now
        → ArePending log i hour.end waiting.new.items) }
{
    for service in services {
        place_one(ended, waiting, begun, service, switched, hour)?;
    }
    Ok(())
}

// One of them.
fn place_one(
    ended: &mut Vec<Windows>,
    waiting: &mut Vec<Windows>,
    begun: Option<OpenGreen>,
    service: &Service,
    switched: &Switched,
    hour: Bounds,
) -> Result<(), NoMemory>
    requires low { hour.end < 2 ^ 31 }
    ensures { OnOk result (IsTaken hour.first hour.end begun switched.now service.now
        ended.old.items ended.new.items waiting.old.items waiting.new.items) }
{
    let green = green_on(switched, hour, begun, service.b, service.g);
    let over = service.r.saturating_add(RED);
    if over <= hour.end {
        let red = OnTenths::none().on(switched, service.r, over);
        ended.push(Windows {
            service: *service,
            green,
            red,
        })?;
        return Ok(());
    }
    let red = OnTenths::none().on(switched, service.r, hour.end);
    waiting.push(Windows {
        service: *service,
        green,
        red,
    })?;
    Ok(())
}

/// The green, at the hour's end, of a service that began at `b` and isn't over there: `to` is its
/// end of green, or the hour's end where that hasn't come.
pub fn open_after(
    switched: &Switched,
    hour: Hour,
    begun: Option<OpenGreen>,
    b: u32,
    to: u32,
) -> OpenGreen
    requires { hour < 744 }
    ensures place { (result.b ≡ b) × (result.to ≡ to) }
    ensures tenths { (log : Log) (i : ℕ) → IsSwitched log i hour switched.now
        → CanGoOn (first_tenth hour) (end_tenth hour) begun b to → IsOpen log i begun
        → IsOpen log i (Some result) }
{
    let tenths = green_on(switched, bounds_of(hour), begun, b, to);
    OpenGreen { b, to, tenths }
}
