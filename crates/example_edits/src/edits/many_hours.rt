use super::configured::MANY_HOURS;
use super::{apply, started};
use crate::held::Mark;
use session::{Edit, Session};
use sig_base::{Applied, EditError, Hour, HourRows, Reads, Row};
use std::alloc::Global;
use std::test::Fail;

const MANY: Hour = 700;

// A green of phase 2 in the hour, with its yellow and its red clearance.
fn green_in(alloc: Global, hour: Hour) -> Result<HourRows<Mark>, Fail> {
    let mut rows = Vec::new(alloc);
    for (tenth, code) in [(100, 1), (400, 8), (435, 9)] {
        let at = hour.saturating_mul(36_000).saturating_add(tenth);
        rows.push(Row { at, code, param: 2 })?;
    }
    let rows = HourRows::new(hour, rows, 0).ok_or("rows")?;
    Ok(rows)
}

// How often each hour was opened.
fn counts(alloc: Global, reads: &Reads<Mark>) -> Result<Vec<u64>, Fail> {
    let mut counts = Vec::new(alloc);
    for hour in 0..MANY {
        counts.push(reads.count(hour))?;
    }
    Ok(counts)
}

// Loads each hour with its green.
fn load_all(
    alloc: Global,
    session: &mut Session<Mark>,
    reads: &mut Reads<Mark>,
) -> Result<bool, Fail> {
    for hour in 0..MANY {
        let edit = Edit::Load(green_in(alloc, hour)?);
        if apply(session, edit, reads).is_err() {
            return Ok(false);
        }
    }
    Ok(true)
}

// Whether hour 350 was opened one to three times between these counts, and no other hour.
fn is_opened_alone(before: &[u64], after: &[u64]) -> bool {
    for (hour, (old, new)) in before.iter().zip(after.iter()).enumerate() {
        let opened = new.saturating_sub(*old);
        if hour == 350 {
            if opened < 1 || opened > 3 {
                return false;
            }
        } else if opened > 0 {
            return false;
        }
    }
    before.len() == after.len()
}

// Puts hour 350 anew with the rows that it has, and answers what comes of it.
fn replace_one(
    alloc: Global,
    session: &mut Session<Mark>,
    reads: &mut Reads<Mark>,
) -> Result<Result<Applied, EditError>, Fail> {
    let edit = Edit::Replace(green_in(alloc, 350)?);
    Ok(apply(session, edit, reads))
}

// What comes of this in a session that holds all hours, and whether that hour alone is opened.
fn replaced(
    alloc: Global,
    session: &mut Session<Mark>,
) -> Result<(Result<Applied, EditError>, bool), Fail> {
    let mut reads = Reads::new(Mark);
    if !load_all(alloc, session, &mut reads)? {
        return Err(Fail::from("load"));
    }
    let before = counts(alloc, &reads)?;
    let answer = replace_one(alloc, session, &mut reads)?;
    let after = counts(alloc, &reads)?;
    Ok((answer, is_opened_alone(&before, &after)))
}

// The same in a session that holds nothing.
fn replaced_in_many(alloc: Global) -> Result<(Result<Applied, EditError>, bool), Fail> {
    let mut session = started(alloc, MANY_HOURS)?;
    replaced(alloc, &mut session)
}

// Of 700 held hours one is put anew with the rows that it has: it moves alone and is opened one to
// three times, and no other hour is opened.
#[test]
fn one_hour_of_many(rt: HostRuntime) -> Result<(), Fail> {
    let alone = Ok(Applied { from: 350, to: 351 });
    assert_eq!(rt; replaced_in_many(rt.alloc())?, (alone, true));
    Ok(())
}
