// The lines of the script.
ghost use Rattle.std.specs.Prelude.{◌≡◌, ◌+◌, ◌*◌, ◌/◌, ◌%◌, ◌==◌, ◌<◌, ◌≤◌, ◌++◌, [], if◌then◌else◌, OnOk};
ghost use Rattle.demonstration.specs.Texts.{calendar, blank_line, each_hour, edit_lines, end_lines, load_line, unblank_line, withdraw_line};

use itoa::Buffer;
use sig_base::{NoMemory, Window};

const MEASURES: &[u8] = b"measures\n";

#[tactic(auto, unfolding(crate::specs::Texts::load_line))]
fn put_load(out: &mut Vec<u8>, hour: u32) -> Result<(), NoMemory>
    ensures { OnOk result (out.new.items ≡ out.old.items ++ load_line hour) }
{
    let mut buffer = Buffer::new();
    let hour = buffer.format(hour).as_bytes();
    out.extend_from_slice(b"load ")?;
    out.extend_from_slice(hour)?;
    out.extend_from_slice(b" ")?;
    out.extend_from_slice(hour)?;
    out.extend_from_slice(b"\n")?;
    Ok(())
}

fn put_load_of(out: &mut Vec<u8>, rest: u32, hour: u32) -> Result<(), NoMemory>
    ensures { OnOk result
        (out.new.items ≡ out.old.items ++ (if hour % 2 == rest then load_line hour else [])) }
{
    if hour % 2 == rest {
        put_load(out, hour)?;
    }
    Ok(())
}

// The hours that leave this rest when they are divided by two are loaded.
fn put_loads(out: &mut Vec<u8>, rest: u32, hours: u32) -> Result<(), NoMemory>
    ensures { OnOk result
        (out.new.items ≡ out.old.items ++ each_hour load_line 2 rest hours 0) }
{
    for hour in 0..hours {
        put_load_of(out, rest, hour)?;
    }
    Ok(())
}

#[tactic(auto, unfolding(crate::specs::Texts::blank_line))]
fn put_blank(out: &mut Vec<u8>, window: &Window, hour: u32) -> Result<(), NoMemory>
    requires days { window.now ≡ calendar }
    requires hour { hour < 168 }
    ensures { OnOk result (out.new.items ≡ out.old.items ++ blank_line hour) }
{
    out.extend_from_slice(b"blank ")?;
    out.extend_from_slice(&window.stamp(36_000 * hour + 18_000))?;
    out.extend_from_slice(b" ")?;
    out.extend_from_slice(&window.stamp(36_000 * hour + 18_100))?;
    out.extend_from_slice(b"\n")?;
    Ok(())
}

fn put_blank_of(out: &mut Vec<u8>, window: &Window, hour: u32) -> Result<(), NoMemory>
    requires days { window.now ≡ calendar }
    requires hour { hour < 168 }
    ensures { OnOk result
        (out.new.items ≡ out.old.items ++ (if hour % 4 == 0 then blank_line hour else [])) }
{
    if hour % 4 == 0 {
        put_blank(out, window, hour)?;
    }
    Ok(())
}

// A part of each fourth hour is blanked.
fn put_blanks(out: &mut Vec<u8>, window: &Window, hours: u32) -> Result<(), NoMemory>
    requires days { window.now ≡ calendar }
    requires hours { hours ≤ 168 }
    ensures { OnOk result
        (out.new.items ≡ out.old.items ++ each_hour blank_line 4 0 hours 0) }
{
    for hour in 0..hours {
        put_blank_of(out, window, hour)?;
    }
    Ok(())
}

/// Writes the lines that load all hours and blank parts of some.
pub(crate) fn put_edits(out: &mut Vec<u8>, window: &Window, hours: u32) -> Result<(), NoMemory>
    requires days { window.now ≡ calendar }
    requires hours { hours ≤ 168 }
    ensures { OnOk result (out.new.items ≡ out.old.items ++ edit_lines hours) }
{
    put_loads(out, 0, hours)?;
    put_loads(out, 1, hours)?;
    put_blanks(out, window, hours)?;
    Ok(())
}

fn put_withdraw(out: &mut Vec<u8>, hour: u32) -> Result<(), NoMemory>
    ensures { OnOk result (out.new.items ≡ out.old.items ++ withdraw_line hour) }
{
    let mut buffer = Buffer::new();
    out.extend_from_slice(b"withdraw ")?;
    out.extend_from_slice(buffer.format(hour).as_bytes())?;
    out.extend_from_slice(b"\n")?;
    Ok(())
}

fn put_unblank(out: &mut Vec<u8>, window: &Window, hours: u32) -> Result<(), NoMemory>
    requires days { window.now ≡ calendar }
    requires hours { hours ≤ 168 }
    ensures { OnOk result (out.new.items ≡ out.old.items ++ unblank_line hours) }
{
    out.extend_from_slice(b"unblank ")?;
    out.extend_from_slice(&window.stamp(0))?;
    out.extend_from_slice(b" ")?;
    out.extend_from_slice(&window.stamp(36_000 * hours))?;
    out.extend_from_slice(b"\n")?;
    Ok(())
}

/// Writes the lines that withdraw the hour in the middle and load it again, with the measures
/// before and after.
pub(crate) fn put_end(
    out: &mut Vec<u8>,
    window: &Window,
    hours: u32,
    middle: u32,
) -> Result<(), NoMemory>
    requires days { window.now ≡ calendar }
    requires hours { hours ≤ 168 }
    ensures { OnOk result (out.new.items ≡ out.old.items ++ end_lines hours middle) }
{
    put_withdraw(out, middle)?;
    out.extend_from_slice(MEASURES)?;
    put_load(out, middle)?;
    put_unblank(out, window, hours)?;
    out.extend_from_slice(MEASURES)?;
    Ok(())
}
