use crate::given::Mark;
use demonstration::Demo;
use ring_config::{Config, read_config};
use row_reader::read_rows;
use script_lines::{Line, PlainEdit, read_line, split_line};
use session::{Edit, Session};
use sig_base::{Applied, Hour, HourRows, Reads};
use std::alloc::Global;
use std::test::Fail;

const HOURS: u32 = 24;

fn file_of(alloc: Global, demo: &Demo, name: &str) -> Result<Vec<u8>, Fail> {
    let bytes = demo.file(alloc, name)?.ok_or("no such file")?;
    Ok(bytes)
}

// The rows of an hour, by the file of this name.
fn rows_of(
    alloc: Global,
    demo: &Demo,
    config: &Config,
    hour: Hour,
    name: &str,
) -> Result<HourRows<Mark>, Fail> {
    if hour >= 744 {
        return Err(Fail::from("no such hour"));
    }
    let bytes = file_of(alloc, demo, name)?;
    let rows = read_rows(alloc, &bytes, config.signal(), hour, config.window())?;
    Ok(rows)
}

// The edit of a line of the script.
fn edit_of(
    alloc: Global,
    demo: &Demo,
    config: &Config,
    line: Line<'_>,
) -> Result<Option<Edit<Mark>>, Fail> {
    let edit = match line {
        Line::Load(hour, name) => Edit::Load(rows_of(alloc, demo, config, hour, name)?),
        Line::Replace(hour, name) => Edit::Replace(rows_of(alloc, demo, config, hour, name)?),
        Line::Edit(PlainEdit::Withdraw(hour)) => Edit::Withdraw(hour),
        Line::Edit(PlainEdit::Blank(from, to)) => Edit::Blank { from, to },
        Line::Edit(PlainEdit::Unblank(from, to)) => Edit::Unblank { from, to },
        _ => return Ok(None),
    };
    Ok(Some(edit))
}

// Whether each hour that moved was opened one to three times, and no other one.
fn are_moved_alone(moved: &Applied, reads: &Reads<Mark>) -> bool {
    for hour in 0..HOURS {
        let opened = reads.count(hour);
        let is_moved = moved.from <= hour && hour < moved.to;
        if is_moved && (opened < 1 || 3 < opened) || !is_moved && opened != 0 {
            return false;
        }
    }
    true
}

// Whether the edit moves its hours, and no other hour is opened.
fn edited(session: &mut Session<Mark>, edit: Edit<Mark>) -> Result<bool, Fail> {
    let mut reads = Reads::new(Mark);
    let moved = session.apply(edit, &mut reads).map_err(|_| "refused")?;
    Ok(are_moved_alone(&moved, &reads))
}

// The same of the edit of a line of the script, where it is one.
fn line_done(
    alloc: Global,
    demo: &Demo,
    session: &mut Session<Mark>,
    line: &[u8],
) -> Result<Option<bool>, Fail> {
    let line = read_line(line, session.config().window());
    match edit_of(alloc, demo, session.config(), line)? {
        Some(edit) => Ok(Some(edited(session, edit)?)),
        None => Ok(None),
    }
}

// How many edits the script has, and whether each of them does so.
fn edits_done(
    alloc: Global,
    demo: &Demo,
    session: &mut Session<Mark>,
    script: &[u8],
) -> Result<(u32, bool), Fail> {
    let mut rest = script;
    let mut edits = 0u32;
    let mut are_alone = true;
    for _line in 0..1000 {
        if rest.is_empty() {
            break;
        }
        let (line, later) = split_line(rest);
        rest = later;
        if let Some(is_alone) = line_done(alloc, demo, session, line)? {
            edits = edits.saturating_add(1);
            are_alone &= is_alone;
        }
    }
    Ok((edits, are_alone && rest.is_empty()))
}

fn session_of(alloc: Global, demo: &Demo) -> Result<Session<Mark>, Fail> {
    let text = file_of(alloc, demo, "config")?;
    let session = Session::new(alloc, read_config(alloc, &text)?)?;
    Ok(session)
}

// The same of the demonstration's own script.
fn demo_done(alloc: Global, demo: &Demo) -> Result<(u32, bool), Fail> {
    let script = file_of(alloc, demo, "script")?;
    let mut session = session_of(alloc, demo)?;
    edits_done(alloc, demo, &mut session, &script)
}

// The edits of a demonstration of a day, each with counts of its own.
#[test]
fn edits_open_what_they_move(rt: HostRuntime) -> Result<(), Fail> {
    let demo = Demo::new(rt.alloc(), HOURS)?;
    let (edits, are_alone) = demo_done(rt.alloc(), &demo)?;
    assert_eq!(rt; (edits > HOURS, are_alone), (true, true));
    Ok(())
}
