// Detectors that go on in an hour, and faults of detectors.
ghost use Rattle.std.specs.Prelude.{◌≡◌, ◌<◌, ◌==◌, ◌++◌, ◌∷◌, ◌&&◌, ◌||◌, not, [], ℕ, Bool, List, All, IfOk, OnOk};
ghost use Rattle.std.specs.List.{filter_map, list_all};
ghost use Rattle.sig_base.specs.declared.values.Row.{Row};
ghost use Rattle.hour_sweep.specs.Rows.{known_rows};
ghost use Rattle.hour_sweep.specs.Hours.{IsHour, point};
ghost use Rattle.ring_config.specs.Settings.{Settings};
ghost use Rattle.arrival_measures.specs.Crossing.{all_flags, flags_of};
ghost use Rattle.arrival_measures.specs.Faults.{begins_fault, is_own};
ghost use Rattle.arrival_measures.specs.Passing.{others_pass};
ghost use Rattle.arrival_measures.specs.Steps.{AreDetections, FlagsGoOn, arrival_in, detected_by, fault_in, flag_after, flag_cleared, flags_in, is_clear, is_faultless, is_harmless, is_quiet};

use gap_map::Stretch;
use hour_sweep::{Track, track_hour};
use sig_base::{NoMemory, Row};
use std::alloc::Global;

/// A vehicle detector goes on.
const DETECTOR_ON: u8 = 82;

/// Whether a detector is sure to have a fault.
#[derive(Clone, Copy, PartialEq, Eq)]
pub(crate) struct Flag {
    pub(crate) fault: bool,
}

/// A row at which a detector goes on, and whether it is sure to have a fault before it.
#[derive(Clone, Copy)]
pub(crate) struct Detection {
    pub(crate) row: Row,
    pub(crate) fault: bool,
}

fn is_own(code: u8) -> bool
    ensures { result ≡ is_own code }
{
    81 <= code && code <= 88
}

fn begins_fault(code: u8) -> bool
    ensures { result ≡ begins_fault code }
{
    84 <= code
}

impl Track for Flag {
    type Out = Detection;

    ghost step = { flag_after };

    ghost clear = { flag_cleared };

    ghost out_by = { detected_by };

    ghost wants = { is_own };

    ghost passes = { others_pass };

    fn wants(code: u8) -> bool {
        is_own(code)
    }

    fn after(self, row: &Row) -> Flag {
        let fault = if is_own(row.code) {
            begins_fault(row.code)
        } else {
            self.fault
        };
        Flag { fault }
    }

    fn cleared(self) -> Flag {
        Flag { fault: false }
    }

    fn out(self, row: &Row) -> Option<Detection> {
        if row.code == DETECTOR_ON {
            Some(Detection {
                row: *row,
                fault: self.fault,
            })
        } else {
            None
        }
    }
}

// Adds the row of the detection to the arrivals, or to the faults where it has one.
fn add_detection(
    one: &Detection,
    arrivals: &mut Vec<Row>,
    faults: &mut Vec<Row>,
) -> Result<(), NoMemory>
    ensures arrivals { OnOk result (arrivals.new.items
        ≡ arrivals.old.items ++ filter_map arrival_in (one.now ∷ [])) }
    ensures faults { OnOk result (faults.new.items
        ≡ faults.old.items ++ filter_map fault_in (one.now ∷ [])) }
{
    if one.fault {
        faults.push(one.row)?;
        return Ok(());
    }
    arrivals.push(one.row)?;
    Ok(())
}

// The rows of the detections without a fault, which most are, and of those with one.
fn told_apart(alloc: Global, found: &[Detection]) -> Result<(Vec<Row>, Vec<Row>), NoMemory>
    ensures arrivals { IfOk result (λ v. v.0.items ≡ filter_map arrival_in found.now) }
    ensures faults { IfOk result (λ v. v.1.items ≡ filter_map fault_in found.now) }
{
    let mut arrivals = Vec::with_capacity(alloc, found.len())?;
    let mut faults = Vec::new(alloc);
    for one in found {
        add_detection(one, &mut arrivals, &mut faults)?;
    }
    Ok((arrivals, faults))
}

/// The rows of an hour at which detectors of approaches go on, and what crosses the point after it.
#[derive(Drop)]
pub(crate) struct Detections {
    /// Those whose detector has no fault.
    pub(crate) arrivals: Vec<Row>,
    /// Those whose detector is sure to have one.
    pub(crate) faults: Vec<Row>,
    /// At the number of each detector of an approach whether it is sure to have a fault; none where
    /// that is as before the hour.
    pub(crate) flags: Option<Vec<Option<Flag>>>,
}

// Whether no row is one of a detector.
fn has_no_own(rows: &[Row]) -> bool
    ensures { result ≡ list_all (λ x. not (is_own x.code)) rows.now }
{
    rows.iter().all(|row| !is_own(row.code))
}

fn all_known(stretches: &[Stretch]) -> bool
    ensures { result ≡ list_all (λ s. s.known) stretches.now }
{
    stretches.iter().all(|stretch| stretch.known)
}

// Whether the flag, where there is one, tells of no fault.
fn is_clear(flag: Option<Flag>) -> bool
    ensures { result ≡ is_clear flag }
{
    match flag {
        Some(flag) => !flag.fault,
        None => true,
    }
}

fn all_clear(flags: &[Option<Flag>]) -> bool
    ensures { result ≡ list_all is_clear flags.now }
{
    flags.iter().all(|flag| is_clear(*flag))
}

// Whether the hour changes no flag, and no detector goes on in it.
fn is_quiet(flags: &[Option<Flag>], rows: &[Row], stretches: &[Stretch]) -> bool
    ensures { result ≡ is_quiet flags.now rows.now stretches.now }
{
    has_no_own(rows) && (all_known(stretches) || all_clear(flags))
}

// Whether no row begins a fault of a detector.
fn has_no_fault(rows: &[Row]) -> bool
    ensures { result ≡ list_all is_harmless rows.now }
{
    rows.iter()
        .all(|row| !(is_own(row.code) && begins_fault(row.code)))
}

/// Whether no detector is sure to have a fault at any row of the hour.
pub(crate) fn is_faultless(flags: &[Option<Flag>], rows: &[Row]) -> bool
    ensures { result ≡ is_faultless flags.now rows.now }
{
    all_clear(flags) && has_no_fault(rows)
}

/// The hour's known rows at which detectors of approaches go on, by the flags at the point before
/// it.
pub(crate) fn detect(
    alloc: Global,
    flags: &[Option<Flag>],
    rows: &[Row],
    stretches: &[Stretch],
) -> Result<Detections, NoMemory>
    ensures found { IfOk result (λ d. (known : ℕ → Bool) (c : Settings) (before : List Row)
        (hour : ℕ) → IsHour known hour rows.now stretches.now
        → All (λ x. x.at < point hour) before
        → all_flags flags.now ≡ flags_of known c (point hour) before
        → AreDetections known c before (known_rows known rows.now) d) }
    ensures flags { IfOk result (λ d.
        FlagsGoOn rows.now stretches.now flags.now (flags_in flags.now d.flags)) }
{
    if is_quiet(flags, rows, stretches) {
        return Ok(Detections {
            arrivals: Vec::new(alloc),
            faults: Vec::new(alloc),
            flags: None,
        });
    }
    let tracked = track_hour(alloc, flags, rows, stretches)?;
    let (flags, found) = tracked.into_parts();
    let (arrivals, faults) = told_apart(alloc, &found)?;
    Ok(Detections {
        arrivals,
        faults,
        flags: Some(flags),
    })
}

/// The flags at the point after the hour in place of those at the point before it.
pub(crate) fn put_flags(flags: &mut Vec<Option<Flag>>, new: Option<Vec<Option<Flag>>>)
    ensures { flags.new.items ≡ flags_in flags.old.items new }
{
    if let Some(new) = new {
        *flags = new;
    }
}
