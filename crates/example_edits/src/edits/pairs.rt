use super::configured::ONE_INTERVAL;
use super::{apply, started};
use crate::held::{Mark, green, is_line, store_with_a_hole};
use filling_pair::{Pair, Pairs, Strands, check_strands};
use hour_store::HourStore;
use rule_audit::{AuditLine, Place};
use session::{Edit, Session};
use sig_base::{Reads, Verdict};
use std::alloc::Global;
use std::test::Fail;

// Green of phase 2 from 1000 to 1200, where the tenths from 1050 up to 1070 are blanked.
fn hold_a_hole(
    alloc: Global,
    session: &mut Session<Mark>,
    reads: &mut Reads<Mark>,
) -> Result<(), Fail> {
    let hole = Edit::Blank {
        from: 1050,
        to: 1070,
    };
    apply(session, hole, reads).map_err(|_| "blank")?;
    let load = Edit::Load(green(alloc)?);
    apply(session, load, reads).map_err(|_| "load")?;
    Ok(())
}

// The pairs of the first rule at a tenth.
fn pairs_at(session: &Session<Mark>, at: u32, reads: &mut Reads<Mark>) -> Result<Pairs, Fail> {
    if session.rules().len() < 1 || 36_000 * session.config().hours() <= at {
        return Err(Fail::from("no such rule or tenth"));
    }
    Ok(session.pairs(1, at, reads)?)
}

// The line of the green's end.
const OPEN: AuditLine = AuditLine {
    rule: 1,
    at: 1200,
    place: Place::BeforeRow(1),
    verdict: Verdict::Undecided,
    window: None,
};

// Whether these are strands of the line with which the rule is kept, or isn't.
fn checks(
    session: &Session<Mark>,
    store: &HourStore<Mark>,
    strands: &Strands,
    kept: bool,
    reads: &mut Reads<Mark>,
) -> Result<bool, Fail> {
    let rules = session.rules();
    if !is_line(rules, store, &OPEN, reads) {
        return Err(Fail::from("no line"));
    }
    Ok(check_strands(session.config(), rules, store, &OPEN, strands, kept, reads))
}

// Whether one part of the pair keeps the rule and the other one breaks it, and neither does both.
fn are_told_apart(
    session: &Session<Mark>,
    store: &HourStore<Mark>,
    pair: &Pair,
    reads: &mut Reads<Mark>,
) -> Result<bool, Fail> {
    for (strands, kept) in [(&pair.keeps, true), (&pair.breaks, false)] {
        if !checks(session, store, strands, kept, reads)? {
            return Ok(false);
        }
        if checks(session, store, strands, !kept, reads)? {
            return Ok(false);
        }
    }
    Ok(true)
}

// How many pairs there are one tenth before the green's end and at it, and whether the first one is
// told apart.
fn pairs_of_a_hole(alloc: Global, session: &mut Session<Mark>) -> Result<([usize; 2], bool), Fail> {
    let mut reads = Reads::new(Mark);
    hold_a_hole(alloc, session, &mut reads)?;
    let before = pairs_at(session, 1199, &mut reads)?.list().len();
    let pairs = pairs_at(session, 1200, &mut reads)?;
    let store = store_with_a_hole(alloc)?;
    let first = pairs.list().first().ok_or("no pair")?;
    let is_apart = are_told_apart(session, &store, first, &mut reads)?;
    Ok(([before, pairs.list().len()], is_apart))
}

// The same in a session that holds nothing.
fn pairs_of_a_session(alloc: Global) -> Result<([usize; 2], bool), Fail> {
    let mut session = started(alloc, ONE_INTERVAL)?;
    pairs_of_a_hole(alloc, &mut session)
}

// The line says undecided at the green's end, and at no other tenth.
#[test]
fn a_pair_of_an_undecided_line(rt: HostRuntime) -> Result<(), Fail> {
    assert_eq!(rt; pairs_of_a_session(rt.alloc())?, ([0, 1], true));
    Ok(())
}
