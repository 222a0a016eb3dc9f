mod configured;
mod drafts;
mod many_hours;
mod pairs;

use crate::held::Mark;
use configured::{ONE_INTERVAL, ONE_PHASE, THREE_HOURS, TWO_HOURS};
use ring_config::read_config;
use rule_audit::{AuditLine, Place};
use session::{Edit, Session};
use sig_base::{Applied, EditError, Hour, HourRows, NoMemory, Reads, Row, Tenth, Verdict};
use std::alloc::Global;
use std::test::Fail;

// An edit; the rows of a load or a replacement are two at the hour's sixth tenth.
#[derive(Clone, Copy)]
enum Step {
    Load(Hour),
    Replace(Hour),
    Withdraw(Hour),
    Blank(Tenth, Tenth),
    Unblank(Tenth, Tenth),
}

fn rows_of(alloc: Global, hour: Hour) -> Result<HourRows<Mark>, Fail> {
    let row = Row {
        at: hour.saturating_mul(36_000).saturating_add(5),
        code: 1,
        param: 2,
    };
    let rows = HourRows::new(hour, vec![in alloc; row, row]?, 0).ok_or("rows")?;
    Ok(rows)
}

fn edit_of(alloc: Global, step: Step) -> Result<Edit<Mark>, Fail> {
    match step {
        Step::Load(hour) => Ok(Edit::Load(rows_of(alloc, hour)?)),
        Step::Replace(hour) => Ok(Edit::Replace(rows_of(alloc, hour)?)),
        Step::Withdraw(hour) => Ok(Edit::Withdraw(hour)),
        Step::Blank(from, to) => Ok(Edit::Blank { from, to }),
        Step::Unblank(from, to) => Ok(Edit::Unblank { from, to }),
    }
}

// A session of this configuration that holds nothing.
fn started(alloc: Global, config: &str) -> Result<Session<Mark>, Fail> {
    let session = Session::new(alloc, read_config(alloc, config.as_bytes())?)?;
    Ok(session)
}

fn apply(
    session: &mut Session<Mark>,
    edit: Edit<Mark>,
    reads: &mut Reads<Mark>,
) -> Result<Applied, EditError> {
    session.apply(edit, reads)
}

// The held hours, their rows and the known tenths.
fn numbers(session: &Session<Mark>) -> [u64; 3] {
    let total = session.report().total();
    [total.held_hours(), total.held_rows(), total.known_tenths()]
}

// What an edit answers, and what is held and known after it.
fn edited(
    alloc: Global,
    session: &mut Session<Mark>,
    step: Step,
    reads: &mut Reads<Mark>,
) -> Result<(Result<Applied, EditError>, [u64; 3]), Fail> {
    let edit = edit_of(alloc, step)?;
    let answer = apply(session, edit, reads);
    Ok((answer, numbers(session)))
}

const ALL: Result<Applied, EditError> = Ok(Applied { from: 0, to: 2 });

const FIRST: Result<Applied, EditError> = Ok(Applied { from: 0, to: 1 });

const SECOND: Result<Applied, EditError> = Ok(Applied { from: 1, to: 2 });

// Edits of a window of two hours, what comes of each, and what is held and known after it.
const STEPS: [(Step, Result<Applied, EditError>, [u64; 3]); 10] = [
    (Step::Withdraw(1), Err(EditError::NotHeld), [0, 0, 0]),
    (Step::Load(1), SECOND, [1, 2, 36_000]),
    (Step::Load(1), Err(EditError::AlreadyHeld), [1, 2, 36_000]),
    (Step::Load(2), Err(EditError::OutOfWindow), [1, 2, 36_000]),
    (Step::Blank(35_990, 36_010), ALL, [1, 2, 35_990]),
    (
        Step::Blank(5, 5),
        Err(EditError::EmptyRange),
        [1, 2, 35_990],
    ),
    (Step::Load(0), FIRST, [2, 4, 71_980]),
    (Step::Unblank(36_000, 36_001), SECOND, [2, 4, 71_981]),
    (Step::Replace(0), FIRST, [2, 4, 71_981]),
    (Step::Withdraw(1), SECOND, [1, 2, 35_990]),
];

// How many of these edits come out so, up to the first that doesn't.
fn right_steps(alloc: Global, session: &mut Session<Mark>) -> Result<usize, Fail> {
    let mut reads = Reads::new(Mark);
    let mut right: usize = 0;
    for (step, wanted, after) in STEPS {
        let (answer, held) = edited(alloc, session, step, &mut reads)?;
        if answer != wanted || held != after {
            break;
        }
        right = right.saturating_add(1);
    }
    Ok(right)
}

// The same in a session that holds nothing.
fn right_steps_of_two_hours(alloc: Global) -> Result<usize, Fail> {
    let mut session = started(alloc, TWO_HOURS)?;
    right_steps(alloc, &mut session)
}

#[test]
fn edits_one_after_another(rt: HostRuntime) -> Result<(), Fail> {
    assert_eq!(rt; right_steps_of_two_hours(rt.alloc())?, STEPS.len());
    Ok(())
}

// Edits of a window of three hours without channels, the hours that they move, and how often each
// hour was opened up to then. The carry at an hour point says only whether the tenth before it is
// known, so an hour moves with the one before it where that tenth was known and is no longer, or
// the other way round. An edited hour is opened three times, one that moves after it without other
// states once.
const MOVES: [(Step, u32, u32, [u64; 3]); 7] = [
    (Step::Load(0), 0, 2, [3, 1, 0]),
    (Step::Load(1), 1, 3, [3, 4, 1]),
    (Step::Load(2), 2, 3, [3, 4, 4]),
    (Step::Replace(1), 1, 2, [3, 7, 4]),
    (Step::Blank(36_005, 36_006), 1, 2, [3, 10, 4]),
    (Step::Withdraw(0), 0, 2, [6, 11, 4]),
    (Step::Blank(0, 5), 0, 1, [9, 11, 4]),
];

fn counts(reads: &Reads<Mark>) -> [u64; 3] {
    [reads.count(0), reads.count(1), reads.count(2)]
}

// How many of these edits move and open these hours, up to the first that doesn't.
fn right_moves(alloc: Global, session: &mut Session<Mark>) -> Result<usize, Fail> {
    let mut reads = Reads::new(Mark);
    let mut right: usize = 0;
    for (step, from, to, opened) in MOVES {
        let (answer, _held) = edited(alloc, session, step, &mut reads)?;
        if answer != Ok(Applied { from, to }) || counts(&reads) != opened {
            break;
        }
        right = right.saturating_add(1);
    }
    Ok(right)
}

// The same in a session that holds nothing.
fn right_moves_of_three_hours(alloc: Global) -> Result<usize, Fail> {
    let mut session = started(alloc, THREE_HOURS)?;
    right_moves(alloc, &mut session)
}

#[test]
fn moves_no_other_hours(rt: HostRuntime) -> Result<(), Fail> {
    assert_eq!(rt; right_moves_of_three_hours(rt.alloc())?, MOVES.len());
    Ok(())
}

// Phase 2 becomes inactive at 100 and may then not show yellow at 200.
fn contradicting(alloc: Global) -> Result<HourRows<Mark>, Fail> {
    let inactive = Row {
        at: 100,
        code: 12,
        param: 2,
    };
    let rows = vec![in alloc; inactive, YELLOW]?;
    Ok(HourRows::new(0, rows, 0).ok_or("rows")?)
}

const YELLOW: Row = Row {
    at: 200,
    code: 8,
    param: 2,
};

// What the load of these rows answers, and what is held and known after it.
fn contradicted(
    alloc: Global,
    session: &mut Session<Mark>,
) -> Result<(Result<Applied, EditError>, [u64; 3]), Fail> {
    let mut reads = Reads::new(Mark);
    let edit = Edit::Load(contradicting(alloc)?);
    let answer = apply(session, edit, &mut reads);
    Ok((answer, numbers(session)))
}

// The same in a session that holds nothing.
fn contradicted_at_once(alloc: Global) -> Result<(Result<Applied, EditError>, [u64; 3]), Fail> {
    let mut session = started(alloc, ONE_PHASE)?;
    contradicted(alloc, &mut session)
}

// The load names the second row, and nothing is held after it.
#[test]
fn refuses_what_contradicts(rt: HostRuntime) -> Result<(), Fail> {
    let refused = Err(EditError::Contradiction(YELLOW));
    assert_eq!(rt; contradicted_at_once(rt.alloc())?, (refused, [0, 0, 0]));
    Ok(())
}

// Phase 2 begins green at 1000 and ends it at 1149, a tenth too early.
fn too_short(alloc: Global) -> Result<HourRows<Mark>, Fail> {
    let green = Row {
        at: 1000,
        code: 1,
        param: 2,
    };
    let yellow = Row {
        at: 1149,
        code: 8,
        param: 2,
    };
    let rows = vec![in alloc; green, yellow]?;
    Ok(HourRows::new(0, rows, 0).ok_or("rows")?)
}

fn audited(
    alloc: Global,
    session: &Session<Mark>,
    windows: bool,
    reads: &mut Reads<Mark>,
) -> Result<Vec<AuditLine>, NoMemory> {
    if session.config().hours() == 0 {
        return Ok(Vec::new(alloc));
    }
    session.audit_hour(0, windows, reads)
}

const BROKEN: AuditLine = AuditLine {
    rule: 1,
    at: 1149,
    place: Place::BeforeRow(1),
    verdict: Verdict::Broken,
    window: None,
};

// The audit of the session once it holds this green.
fn load_and_audit(
    alloc: Global,
    session: &mut Session<Mark>,
    windows: bool,
) -> Result<Vec<AuditLine>, Fail> {
    let mut reads = Reads::new(Mark);
    let edit = Edit::Load(too_short(alloc)?);
    let _applied = apply(session, edit, &mut reads);
    let lines = audited(alloc, session, windows, &mut reads)?;
    Ok(lines)
}

fn audit_of_too_short(alloc: Global, windows: bool) -> Result<Vec<AuditLine>, Fail> {
    let mut session = started(alloc, ONE_INTERVAL)?;
    load_and_audit(alloc, &mut session, windows)
}

// The broken line has its window where that is wanted.
#[test]
fn finds_what_decides(rt: HostRuntime) -> Result<(), Fail> {
    for (windows, window) in [(true, Some((1000, 1149))), (false, None)] {
        let lines = audit_of_too_short(rt.alloc(), windows)?;
        assert_eq!(rt;
            lines.as_slice(),
            [AuditLine { window, ..BROKEN }].as_slice()
        );
    }
    Ok(())
}
