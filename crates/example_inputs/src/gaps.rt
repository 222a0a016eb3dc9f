use gap_map::{Stretch, stretches};
use span_set::SpanSet;
use std::alloc::Global;
use std::test::Fail;

// Hour 0, where the tenths from 1,050 up to 1,070 are blanked.
fn cut(alloc: Global, held: bool) -> Result<Vec<Stretch>, Fail> {
    let mut blanked = SpanSet::new(alloc);
    blanked.add(1_050, 1_070)?;
    let parts = stretches(alloc, 0, held, &blanked)?;
    Ok(parts)
}

fn stretch(from: u32, to: u32, known: bool) -> Stretch {
    Stretch { from, to, known }
}

#[test]
fn a_held_hour(rt: HostRuntime) -> Result<(), Fail> {
    let parts = [
        stretch(0, 1_050, true),
        stretch(1_050, 1_070, false),
        stretch(1_070, 36_000, true),
    ];
    assert_eq!(rt; cut(rt.alloc(), true)?.as_slice(), parts.as_slice());
    Ok(())
}

#[test]
fn an_hour_that_is_not_held(rt: HostRuntime) -> Result<(), Fail> {
    let whole = [stretch(0, 36_000, false)];
    assert_eq!(rt; cut(rt.alloc(), false)?.as_slice(), whole.as_slice());
    Ok(())
}
