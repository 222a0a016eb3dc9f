// The services and cycles of one hour.
ghost use Rattle.std.specs.Prelude.{◌≡◌, ◌+◌, ◌++◌, ℕ, Bool, List, length, option_map, IfOk, OnErr, Option};
ghost use Rattle.std.specs.List.{filter_map};
ghost use Rattle.sig_base.specs.declared.values.Row.{Row};
ghost use Rattle.hour_sweep.specs.Rows.{known_rows};
ghost use Rattle.hour_sweep.specs.Hours.{IsHour};
ghost use Rattle.service_cut.specs.Parts.{IsCarry, open_service, open_cycle};
ghost use Rattle.service_cut.specs.Cut.{IsCut};
ghost use Rattle.service_cut.specs.Steps.{cycle_told, served_told, services_told};

use crate::carry::CutCarry;
use crate::endings::services_of;
use crate::items::{Cycle, OpenCycle, OpenService, Served, Service};
use crate::parts::{Part, Told};
use gap_map::Stretch;
use hour_sweep::track_hour;
use sig_base::{NoMemory, PhaseItem, Row};
use std::alloc::Global;
use std::marker::Model;

/// The services and cycles that end in an hour, and what is open at the point after it.
#[derive(Drop)]
pub struct Cuts {
    services: Vec<Service>,
    served: Vec<Served>,
    cycles: Vec<Cycle>,
    open_services: Vec<OpenService>,
    open_cycles: Vec<OpenCycle>,
}

impl Model for Cuts {
    ghost use Rattle.service_cut.specs.Cut.{CutLists};

    ghost Value = { CutLists };

    ghost view = { λ c. record {
      services = c.services.items;
      served = c.served.items;
      cycles = c.cycles.items;
      open_services = c.open_services.items;
      open_cycles = c.open_cycles.items;
    } };
}

impl Cuts {
    /// The whole services, in the order of their last rows.
    pub fn services(&self) -> &[Service]
        ensures { result.now ≡ self.now.services }
    {
        self.services.as_slice()
    }

    /// The rows of the whole services, in the order of their last rows.
    pub fn served(&self) -> &[Served]
        ensures { result.now ≡ self.now.served }
    {
        self.served.as_slice()
    }

    /// The whole cycles, in the order of their last rows.
    pub fn cycles(&self) -> &[Cycle]
        ensures { result.now ≡ self.now.cycles }
    {
        self.cycles.as_slice()
    }

    /// The services that aren't over, by the phases' numbers.
    pub fn open_services(&self) -> &[OpenService]
        ensures { result.now ≡ self.now.open_services }
    {
        self.open_services.as_slice()
    }

    /// The last ends of yellow, by the phases' numbers.
    pub fn open_cycles(&self) -> &[OpenCycle]
        ensures { result.now ≡ self.now.open_cycles }
    {
        self.open_cycles.as_slice()
    }
}

fn tenth_of(row: Option<Row>) -> Option<u32>
    ensures { result ≡ option_map (λ x. x.at) row }
{
    match row {
        Some(row) => Some(row.at),
        None => None,
    }
}

#[tactic(auto, unfolding(crate::specs::Parts::open_service))]
fn service_open(part: &Option<Part>) -> Option<OpenService>
    ensures { result ≡ open_service part.now }
{
    let part = (*part)?;
    let service = part.service?;
    Some(OpenService {
        phase: part.phase,
        b: service.b.at,
        g: tenth_of(service.g),
    })
}

#[tactic(auto, unfolding(crate::specs::Parts::open_cycle))]
fn cycle_open(part: &Option<Part>) -> Option<OpenCycle>
    ensures { result ≡ open_cycle part.now }
{
    let part = (*part)?;
    let cycle = part.cycle?;
    Some(OpenCycle {
        phase: part.phase,
        from: cycle.from.at,
    })
}

fn served_told(told: &Told) -> Option<Served>
    ensures { result ≡ served_told told.now }
{
    match told {
        Told::Ends(ended) => match ended.service {
            Some(service) => Some(service.served),
            None => None,
        },
        Told::Says(_) => None,
    }
}

fn served_of(alloc: Global, told: &[Told]) -> Result<Vec<Served>, NoMemory>
    ensures { IfOk result (λ v. v.items ≡ filter_map served_told told.now) }
{
    let served = told
        .iter()
        .filter_map(|one| served_told(one))
        .collect(alloc)?;
    Ok(served)
}

fn cycle_told(told: &Told) -> Option<Cycle>
    ensures { result ≡ cycle_told told.now }
{
    match told {
        Told::Ends(ended) => ended.cycle,
        Told::Says(_) => None,
    }
}

fn cycles_of(alloc: Global, told: &[Told]) -> Result<Vec<Cycle>, NoMemory>
    ensures { IfOk result (λ v. v.items ≡ filter_map cycle_told told.now) }
{
    let cycles = told
        .iter()
        .filter_map(|one| cycle_told(one))
        .collect(alloc)?;
    Ok(cycles)
}

fn services_left(alloc: Global, parts: &[Option<Part>]) -> Result<Vec<OpenService>, NoMemory>
    ensures { IfOk result (λ v. v.items ≡ filter_map open_service parts.now) }
{
    let open = parts
        .iter()
        .filter_map(|part| service_open(part))
        .collect(alloc)?;
    Ok(open)
}

fn cycles_left(alloc: Global, parts: &[Option<Part>]) -> Result<Vec<OpenCycle>, NoMemory>
    ensures { IfOk result (λ v. v.items ≡ filter_map open_cycle parts.now) }
{
    let open = parts
        .iter()
        .filter_map(|part| cycle_open(part))
        .collect(alloc)?;
    Ok(open)
}

// The hour's lists, from what its rows told and what is under way after it.
fn lists(alloc: Global, told: &[Told], parts: &[Option<Part>]) -> Result<Cuts, NoMemory>
    ensures { IfOk result (λ cuts. cuts ≡ record {
      services = services_told (length parts.now) told.now;
      served = filter_map served_told told.now;
      cycles = filter_map cycle_told told.now;
      open_services = filter_map open_service parts.now;
      open_cycles = filter_map open_cycle parts.now;
    }) }
{
    let services = services_of(alloc, told, parts.len())?;
    let served = served_of(alloc, told)?;
    let cycles = cycles_of(alloc, told)?;
    let open_services = services_left(alloc, parts)?;
    let open_cycles = cycles_left(alloc, parts)?;
    Ok(Cuts {
        services,
        served,
        cycles,
        open_services,
        open_cycles,
    })
}

/// The hour's services and cycles, and in `carry` what crosses the point after it in place of what
/// crosses the point before it. One pass over the rows: a row reaches the part of its phase alone.
pub fn cut_hour(
    alloc: Global,
    phases: &[PhaseItem],
    carry: &mut CutCarry,
    rows: &[Row],
    stretches: &[Stretch],
) -> Result<Cuts, NoMemory>
    ensures cut { IfOk result (λ cuts. (known : ℕ → Bool) (before : List Row) (hour : ℕ)
        → IsHour known hour rows.now stretches.now → IsCarry known phases.now before hour carry.old
        → IsCut known phases.now before hour rows.now cuts) }
    ensures carry { IfOk result (λ _. (known : ℕ → Bool) (before : List Row) (hour : ℕ)
        → IsHour known hour rows.now stretches.now → IsCarry known phases.now before hour carry.old
        → IsCarry known phases.now (before ++ known_rows known rows.now) (hour + 1) carry.new) }
    ensures err { OnErr result (carry.new ≡ carry.old) }
{
    let tracked = track_hour(alloc, &carry.parts, rows, stretches)?;
    let (parts, told) = tracked.into_parts();
    let cuts = lists(alloc, &told, &parts)?;
    carry.parts = parts;
    Ok(cuts)
}
