// The rows of the demonstration.
ghost use Rattle.std.specs.Prelude.{◌≡◌, ◌+◌, ◌++◌, ◌≤◌, ◌<◌, ◌^◌, OnOk};
ghost use Rattle.demonstration.specs.Draws.{next};
ghost use Rattle.demonstration.specs.Rows.{row, services, pulses, service_rows, pulse_rows, other_phase};

use sig_base::{NoMemory, Row};

// The number that follows in a sequence.
#[tactic(auto, unfolding(crate::specs::Draws::next))]
fn next(x: u32) -> u32
    ensures { result ≡ next x }
{
    ((1_103_515_245 * x as u64 + 12_345) % 2_147_483_648) as u32
}

fn row(at: u32, code: u8, param: u16) -> Row
    ensures { result ≡ row at code param }
{
    Row { at, code, param }
}

fn other_phase(phase: u16) -> u16
    ensures { result ≡ other_phase phase }
{
    if phase == 2 { 4 } else { 2 }
}

fn put_service(
    rows: &mut Vec<Row>,
    at: u32,
    phase: u16,
    green: u32,
    ending: u8,
) -> Result<(), NoMemory>
    requires { at + green < 2 ^ 31 }
    ensures { OnOk result (rows.new.items ≡ rows.old.items ++ service_rows at phase green ending) }
{
    let yellow = at + green;
    rows.extend_from_slice(&[
        row(at, 0, phase),
        row(at, 1, phase),
        row(yellow, ending, phase),
        row(yellow, 7, phase),
        row(yellow, 8, phase),
        row(yellow + 35, 9, phase),
        row(yellow + 35, 10, phase),
        row(yellow + 50, 11, phase),
        row(yellow + 50, 12, phase),
    ])?;
    Ok(())
}

/// Adds the services of phases 2 and 4 that begin before the end.
pub(crate) fn put_services(rows: &mut Vec<Row>, end: u32) -> Result<(), NoMemory>
    requires { end < 2 ^ 24 }
    ensures { OnOk result (rows.new.items ≡ rows.old.items ++ services end end 1 0 2) }
{
    let mut x = 1;
    let mut at = 0;
    let mut phase = 2;
    while at < end {
        let first = next(x);
        let second = next(first);
        let green = 100 + first / 65_536 % 200;
        let ending = 4 + (second / 65_536 % 3) as u8;
        put_service(rows, at, phase, green, ending)?;
        x = second;
        at = at + green + 50;
        phase = other_phase(phase);
    }
    Ok(())
}

/// Adds the pulses of detector 5: each begins after the one before, as long as that ended before
/// the end.
pub(crate) fn put_pulses(rows: &mut Vec<Row>, end: u32) -> Result<(), NoMemory>
    requires { end < 2 ^ 24 }
    ensures { OnOk result (rows.new.items ≡ rows.old.items ++ pulses end end 7 0) }
{
    let mut x = 7;
    let mut at = 0;
    while at < end {
        let first = next(x);
        let second = next(first);
        let on = at + (20 + first / 65_536 % 100);
        let off = on + (5 + second / 65_536 % 40);
        rows.extend_from_slice(&[row(on, 82, 5), row(off, 81, 5)])?;
        x = second;
        at = off;
    }
    Ok(())
}
