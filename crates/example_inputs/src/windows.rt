use sig_base::{HourRows, Reads, Row, Window};
use std::test::Fail;

#[derive(Drop)]
struct Mark;

fn row(at: u32) -> Row {
    Row {
        at,
        code: 8,
        param: 2,
    }
}

// So many rows, how often they repeat, and how often the first two hours were opened when they are
// handed out.
fn shown(rows: &HourRows<Mark>) -> (usize, u32, [u64; 2]) {
    let mut reads = Reads::new(Mark);
    let count = rows.show(&mut reads).len();
    (count, rows.repeats(), [reads.count(0), reads.count(1)])
}

#[test]
fn rows_are_handed_out_and_counted(rt: HostRuntime) -> Result<(), Fail> {
    let equal = vec![in rt.alloc(); row(36_000), row(36_000)]?;
    let rows = HourRows::new(1, equal, 3).ok_or("rows")?;
    assert_eq!(rt; shown(&rows), (2, 3, [0, 1]));
    Ok(())
}

#[test]
fn rows_out_of_order(rt: HostRuntime) -> Result<(), Fail> {
    let mixed = vec![in rt.alloc(); row(5), row(4)]?;
    let rows: Option<HourRows<Mark>> = HourRows::new(0, mixed, 0);
    assert!(rt; rows.is_none());
    Ok(())
}

// Day 19786 is 2024-03-04, and 2932896 is 9999-12-31.
#[test]
fn stamps_of_a_window(rt: HostRuntime) {
    for (day, hour, hours, at, stamp) in [
        (19_786, 6, 2, 1149, b"2024-03-04T06:01:54.9"),
        (19_786, 6, 24, 647_999, b"2024-03-04T23:59:59.9"),
        (19_786, 6, 24, 648_000, b"2024-03-05T00:00:00.0"),
        (-719_528, 0, 1, 0, b"0000-01-01T00:00:00.0"),
        (2_932_896, 23, 1, 35_999, b"9999-12-31T23:59:59.9"),
    ] {
        if let Some(window) = Window::new(day, hour, hours)
            && at < 36_000 * window.hours()
        {
            assert_eq!(rt; &window.stamp(at), stamp);
        } else {
            assert!(rt; false);
        }
    }
    assert!(rt; Window::new(2_932_896, 23, 2).is_none());
}
