ghost use Rattle.std.specs.Prelude.{◌≡◌, length};
ghost use Rattle.channel_tables.specs.Spec.{IsSpec};

use board::{
    Aheads, Clause, HourView, Pasts, PastsError, Term, aheads_hour, clause_verdict, pasts_hour,
};
use channel_tables::Spec;
use colour_machine::Mask;
use event_codes::{Channel, Kind};
use gap_map::Stretch;
use reach::{AgeBound, Seen, Test, possible};
use sig_base::{Row, Verdict};
use std::test::Fail;

// A channel without floors.
fn free(kind: Kind, number: u8) -> Spec
    ensures fit { IsSpec result }
    ensures channel { result.channel ≡ record { kind = kind; number = number } }
{
    Spec {
        channel: Channel { kind, number },
        floors: [0; 16],
    }
}

fn row(at: u32, code: u8) -> Row
    ensures { result ≡ record { at = at; code = code; param = 2 } }
{
    Row { at, code, param: 2 }
}

fn stretch(from: u32, to: u32, known: bool) -> Stretch
    ensures { result ≡ record { from = from; to = to; known = known } }
{
    Stretch { from, to, known }
}

// Before the window a detector may be off or on, and for how long is open.
#[test]
fn nothing_is_known_before_the_window(rt: HostRuntime) -> Result<(), Fail> {
    let specs = [free(Kind::Detector, 1)];
    let before = Pasts::start(rt.alloc(), &specs)?;
    let after = Aheads::end(rt.alloc(), &specs, 0)?;
    let on = Test {
        colours: Mask::none().with(1),
        bound: AgeBound::AtLeast(5),
        at: 0,
    };
    let seen = possible(before.at(0), after.at(0), &on);
    assert!(rt; seen.some_true && seen.some_false);
    Ok(())
}

#[test]
fn no_two_terms_of_one_channel(rt: HostRuntime) -> Result<(), Fail> {
    let term = Term {
        spec: 3,
        colours: Mask::none().with(2),
    };
    let other = Term { spec: 4, ..term };
    assert!(rt; Clause::new(vec![in rt.alloc(); term, term]?).is_none());
    assert!(rt; Clause::new(vec![in rt.alloc(); term, other]?).is_some());
    Ok(())
}

// A phase that begins green at 1000, and its yellow at 1110, with a gap from 1050 up to 1070.
// Before the yellow it is green, or its green was terminated in the gap.
#[test]
fn phase_with_a_gap(rt: HostRuntime) -> Result<(), Fail> {
    let specs = [free(Kind::Phase, 2)];
    let rows = [row(1000, 1), row(1110, 8)];
    let stretches = [
        stretch(0, 1050, true),
        stretch(1050, 1070, false),
        stretch(1070, 36_000, true),
    ];
    let before = Pasts::start(rt.alloc(), &specs)?;
    let after = Aheads::end(rt.alloc(), &specs, 36_000)?;
    let view = HourView::new(rt.alloc(), &specs, &before, &rows, &stretches, &after)?;
    assert_eq!(rt; view.channels(), 1);
    let green = Test {
        colours: Mask::none().with(2),
        bound: AgeBound::Any,
        at: 1110,
    };
    let seen = view.seen_before_row(1, 0, &green);
    assert!(rt; seen.some_true && seen.some_false);
    for (at, first, second, verdict) in [
        (1049, 2, 2, Verdict::Kept),
        (1070, 2, 2, Verdict::Undecided),
        (1070, 2, 3, Verdict::Kept),
        (1070, 0, 4, Verdict::Broken),
        (1110, 4, 4, Verdict::Kept),
    ] {
        let term = Term {
            spec: 0,
            colours: Mask::none().with(first).with(second),
        };
        if let Some(clause) = Clause::new(vec![in rt.alloc(); term]?) {
            assert_eq!(rt; clause_verdict(&view, at, &clause), verdict);
        }
    }
    Ok(())
}

// A phase can't be inactive directly from green.
#[test]
fn the_row_that_contradicts(rt: HostRuntime) -> Result<(), Fail> {
    let specs = [free(Kind::Phase, 2)];
    let rows = [row(1000, 1), row(1049, 12)];
    let stretches = [stretch(0, 36_000, true)];
    let before = Pasts::start(rt.alloc(), &specs)?;
    match pasts_hour(rt.alloc(), &specs, &before, &rows, &stretches) {
        Err(PastsError::NoState(row)) => assert_eq!(rt; row.at, 1049),
        Err(PastsError::Memory) => {}
        Ok(_pasts) => assert!(rt; false),
    }
    let after = Aheads::end(rt.alloc(), &specs, 36_000)?;
    let aheads = aheads_hour(rt.alloc(), &specs, &after, &rows, &stretches)?;
    let any = Test {
        colours: Mask::none().with(2),
        bound: AgeBound::Any,
        at: 0,
    };
    assert_eq!(rt;
        possible(before.at(0), aheads.at(0), &any),
        Seen {
            some_true: false,
            some_false: false,
        }
    );
    Ok(())
}
