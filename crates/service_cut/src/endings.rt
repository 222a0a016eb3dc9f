// The services that rows end, with why their greens ended. A row that says so may stand after the
// last row of a service, within its tenth; so what the rows tell is gone through from the last on.
ghost use Rattle.std.specs.Prelude.{◌≡◌, ◌++◌, None, Some, length, replicate, reverse, option_to_list, slice_index_or, slice_set, OnOk, IfOk};
ghost use Rattle.service_cut.specs.Services.{termination};
ghost use Rattle.service_cut.specs.Steps.{kept, within, closed, lates_after, service_told, services_told};

use crate::items::{Service, Termination};
use crate::parts::Told;
use crate::services::ServiceOver;
use sig_base::{NoMemory, Row};
use std::alloc::Global;

fn termination_by(cause: Option<Row>) -> Termination
    ensures { result ≡ termination cause }
{
    match cause {
        None => Termination::Unlogged,
        Some(row) => {
            if row.code == 4 {
                Termination::GapOut
            } else if row.code == 5 {
                Termination::MaxOut
            } else {
                Termination::ForceOff
            }
        }
    }
}

// Of a row and one that was found after it, the one at the tenth of the row that stands last.
fn kept(row: Row, found: Option<Row>) -> Row
    ensures { result ≡ kept row found }
{
    match found {
        None => row,
        Some(later) => { if later.at <= row.at { later } else { row } }
    }
}

// The row, where it isn't later than this tenth.
fn within(g: u32, row: Option<Row>) -> Option<Row>
    ensures { result ≡ within g row }
{
    match row {
        None => None,
        Some(row) => { if row.at <= g { Some(row) } else { None } }
    }
}

// What was found of a phase.
fn found(lates: &[Option<Row>], number: u16) -> Option<Row>
    ensures { result ≡ slice_index_or lates.now number None }
{
    let place = usize::from(number);
    if place < lates.len() {
        lates[place]
    } else {
        None
    }
}

// Keeps a row that says why a green ends, at the place of its phase.
fn note(lates: &mut [Option<Row>], row: Row)
    ensures { lates.new ≡ slice_set lates.old row.param
        (Some (kept row (slice_index_or lates.old row.param None))) }
{
    let late = kept(row, found(lates, row.param));
    let place = usize::from(row.param);
    if place < lates.len() {
        lates[place] = Some(late);
    }
}

// The service, where this row of its phase was found after it.
fn closed(service: ServiceOver, late: Option<Row>) -> Service
    ensures { result ≡ closed service late }
{
    let served = service.served;
    let cause = match within(served.g.at, late) {
        Some(row) => Some(row),
        None => service.cause,
    };
    Service {
        phase: served.phase,
        b: served.b.at,
        g: served.g.at,
        y: served.y.at,
        r: served.r.at,
        end: termination_by(cause),
    }
}

fn service_of(told: &Told, lates: &[Option<Row>]) -> Option<Service>
    ensures { result ≡ service_told lates.now told.now }
{
    match told {
        Told::Ends(ended) => match ended.service {
            Some(service) => {
                let late = found(lates, u16::from(service.served.phase));
                Some(closed(service, late))
            }
            None => None,
        },
        Told::Says(_) => None,
    }
}

fn note_told(told: &Told, lates: &mut [Option<Row>])
    ensures { lates.new ≡ lates_after told.now lates.old }
{
    match told {
        Told::Ends(_) => {}
        Told::Says(row) => note(lates, *row),
    }
}

fn put(service: Option<Service>, services: &mut Vec<Service>) -> Result<(), NoMemory>
    ensures { OnOk result (services.new.items ≡ services.old.items ++ option_to_list service) }
{
    match service {
        Some(service) => services.push(service)?,
        None => {}
    }
    Ok(())
}

// The services, from the last one on.
fn from_the_last(
    alloc: Global,
    told: &[Told],
    lates: &mut [Option<Row>],
) -> Result<Vec<Service>, NoMemory>
    ensures { IfOk result (λ v. lates.old ≡ replicate (length lates.old) None
        → v.items ≡ reverse (services_told (length lates.old) told.now)) }
{
    let mut services = Vec::new(alloc);
    let mut left = told.len();
    while left > 0 {
        left -= 1;
        put(service_of(&told[left], lates), &mut services)?;
        note_told(&told[left], lates);
    }
    Ok(services)
}

/// The services that the rows of an hour end, in the order of their last rows, where the numbers
/// of the phases are below `places`.
pub(crate) fn services_of(
    alloc: Global,
    told: &[Told],
    places: usize,
) -> Result<Vec<Service>, NoMemory>
    ensures { IfOk result (λ v. v.items ≡ services_told places told.now) }
{
    let mut lates = vec![in alloc; None; places]?;
    let mut services = from_the_last(alloc, told, &mut lates)?;
    services.reverse();
    Ok(services)
}
