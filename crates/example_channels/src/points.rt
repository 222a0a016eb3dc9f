ghost use Rattle.std.specs.Prelude.{◌≡◌, IfOk};
ghost use Rattle.event_codes.specs.declared.channels.Kind.TheVariants.{Phase};
ghost use Rattle.channel_tables.specs.Spec.{IsSpec};
ghost use Rattle.board.specs.Channels.{AreSpecs};
ghost use Rattle.board.specs.Logs.{end_tenth};
ghost use Rattle.board.specs.Stops.{AreBefore};
ghost use Rattle.board.specs.Places.{AllEarly};

use board::{Aheads, Pasts, PastsError};
use channel_tables::Spec;
use colour_machine::Mask;
use event_codes::{Channel, Kind};
use reach::{AgeBound, Seen, Test, possible};
use sig_base::Row;
use signal_log::{aheads_before, pasts_after};
use span_set::SpanSet;
use std::alloc::Global;
use std::test::Fail;

// A phase without floors.
fn phase(number: u8) -> Spec
    ensures fit { IsSpec result }
    ensures channel { result.channel ≡ record { kind = Phase; number = number } }
{
    Spec {
        channel: Channel {
            kind: Kind::Phase,
            number,
        },
        floors: [0; 16],
    }
}

fn row(at: u32, code: u8) -> Row
    ensures { result ≡ record { at = at; code = code; param = 2 } }
{
    Row { at, code, param: 2 }
}

// The states after a first hour in which phase 2 begins green 50 tenths before its end.
fn after_green(alloc: Global, specs: &[Spec]) -> Result<Pasts, PastsError>
    requires { AreSpecs specs.now }
    ensures shape { IfOk result (λ p. AreBefore specs.now p × AllEarly (end_tenth 0) p) }
{
    let start = Pasts::start(alloc, specs)?;
    let rows = [row(35_950, 1)];
    pasts_after(alloc, specs, 0, &start, Some(&rows), &SpanSet::new(alloc))
}

const ALWAYS: Seen = Seen {
    some_true: true,
    some_false: false,
};

// Its yellow begins in the second hour: it is green before that hour, and yellow after it.
#[test]
fn yellow_in_the_next_hour(rt: HostRuntime) -> Result<(), Fail> {
    let specs = [phase(2)];
    let Ok(before) = after_green(rt.alloc(), &specs) else {
        assert!(rt; false);
        return Ok(());
    };
    let rows = [row(36_100, 8)];
    let blanked = SpanSet::new(rt.alloc());
    let end = Aheads::end(rt.alloc(), &specs, 72_000)?;
    let aheads = aheads_before(rt.alloc(), &specs, 1, &end, Some(&rows), &blanked)?;
    let green = Test {
        colours: Mask::none().with(2),
        bound: AgeBound::AtLeast(50),
        at: 36_000,
    };
    assert_eq!(rt; possible(before.at(0), aheads.at(0), &green), ALWAYS);
    let Ok(after) = pasts_after(rt.alloc(), &specs, 1, &before, Some(&rows), &blanked) else {
        assert!(rt; false);
        return Ok(());
    };
    let yellow = Test {
        colours: Mask::none().with(4),
        bound: AgeBound::AtMost(35_900),
        at: 72_000,
    };
    assert_eq!(rt; possible(after.at(0), end.at(0), &yellow), ALWAYS);
    Ok(())
}

// The second hour isn't held: after it the phase may be green or not.
#[test]
fn the_next_hour_is_not_held(rt: HostRuntime) -> Result<(), Fail> {
    let specs = [phase(2)];
    let Ok(before) = after_green(rt.alloc(), &specs) else {
        assert!(rt; false);
        return Ok(());
    };
    let blanked = SpanSet::new(rt.alloc());
    let Ok(after) = pasts_after(rt.alloc(), &specs, 1, &before, None, &blanked) else {
        assert!(rt; false);
        return Ok(());
    };
    let end = Aheads::end(rt.alloc(), &specs, 72_000)?;
    let green = Test {
        colours: Mask::none().with(2),
        bound: AgeBound::Any,
        at: 72_000,
    };
    let seen = possible(after.at(0), end.at(0), &green);
    assert!(rt; seen.some_true && seen.some_false);
    Ok(())
}

// A phase can't be inactive directly from green.
#[test]
fn a_row_contradicts_the_hour_before(rt: HostRuntime) -> Result<(), Fail> {
    let specs = [phase(2)];
    let Ok(before) = after_green(rt.alloc(), &specs) else {
        assert!(rt; false);
        return Ok(());
    };
    let rows = [row(36_100, 12)];
    let blanked = SpanSet::new(rt.alloc());
    match pasts_after(rt.alloc(), &specs, 1, &before, Some(&rows), &blanked) {
        Err(PastsError::NoState(row)) => assert_eq!(rt; row.at, 36_100),
        Err(PastsError::Memory) => {}
        Ok(_pasts) => assert!(rt; false),
    }
    Ok(())
}
