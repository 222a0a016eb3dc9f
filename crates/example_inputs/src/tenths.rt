use span_set::{Span, SpanSet};
use std::test::Fail;

// Touching ranges are one range, a cut makes two, and what lies below a limit moves to it.
#[test]
fn adds_cuts_and_clamps(rt: HostRuntime) -> Result<(), Fail> {
    let mut set = SpanSet::new(rt.alloc());
    set.add(3, 6)?;
    set.add(6, 9)?;
    assert_eq!(rt; set.ranges(), [Span { from: 3, to: 9 }].as_slice());
    set.remove(5, 6)?;
    let cut = [Span { from: 3, to: 5 }, Span { from: 6, to: 9 }];
    assert_eq!(rt; set.ranges(), cut.as_slice());
    let mut copy = set.copy()?;
    assert_eq!(rt; copy.ranges(), cut.as_slice());
    copy.clamp_below(4);
    let clamped = [Span { from: 4, to: 5 }, Span { from: 6, to: 9 }];
    assert_eq!(rt; copy.ranges(), clamped.as_slice());
    assert_eq!(rt; set.ranges(), cut.as_slice());
    Ok(())
}
