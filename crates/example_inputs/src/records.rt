// Stamps, files and refusals as they are known from the field, and calls that find enough memory.
use row_reader::{RowError, count_code, read_hour_stamp, read_rows, read_stamp};
use sig_base::{HourRows, Reads, Row, Window};
use std::alloc::Global;
use std::test::Fail;

const DAY: i64 = 19_786;

#[test]
fn stamps(rt: HostRuntime) -> Result<(), Fail> {
    assert_eq!(rt; read_hour_stamp(b"2024-03-04T06"), Some((DAY, 6)));
    let window = Window::new(DAY, 6, 1).ok_or("window")?;
    let cases: [(&[u8], Option<i64>); 21] = [
        (b"2024-03-04 06:12:30.5", Some(7_505)),
        (b"2024-03-04 06:12:31", Some(7_510)),
        (b"2024-03-04 06:12:60", None),
        (b"2024-03-05 06:12:31", Some(871_510)),
        (b"2024-03-05T06:12:31", Some(871_510)),
        (b"3/4/2024 6:00:00.05", Some(0)),
        (b"2024-03-04T06:59:59.999999999", Some(35_999)),
        (b"2024-03-04 07:00:00", Some(36_000)),
        (b"12/31/2023 23:59:59.9", Some(-54_648_001)),
        (b"2024-02-30 06:00:00.0", None),
        (b"2024-03-04 06:00:10.0 AM", None),
        (b"13/4/2024 6:00:00", None),
        (b"2024-03-04 24:00:00", None),
        (b"2024-03-04 23:59:60", None),
        (b"2024-03-04  06:00:00", None),
        (b"2024-03-04 06:00:00.", None),
        (b"2024-03-04 06:00:00.1234567890", None),
        (b"2024-3-4 06:00:00", None),
        (b"3/4/24 6:00:00", None),
        (b"2024-03-04t06:00:00", None),
        (b"", None),
    ];
    for (text, want) in cases {
        assert_eq!(rt; read_stamp(text, &window), want, "at {text:?}");
    }
    Ok(())
}

#[test]
fn files(rt: HostRuntime) -> Result<(), Fail> {
    let window = Window::new(DAY, 6, 1).ok_or("window")?;
    let cases: [(&[u8], u32, u32); 5] = [
        (
            b"\xEF\xBB\xBFSignalID,Timestamp,EventCode,EventParam\r\n7,2024-03-04 06:00:00.0,1,2\r\n7,2024-03-04 06:00:30.5,8,2\r\n7,2024-03-04 06:00:30.5,8,2\r\n",
            2,
            1,
        ),
        (
            b"7,2024-03-04 06:00:30.5,8,2\n7,2024-03-04 06:00:30.5,7,2\n7,2024-03-04 06:00:30.5,8,2\n",
            3,
            0,
        ),
        (
            b"7,3/4/2024 6:00:30.5,8,2\n7,3/4/2024 6:00:30.5,8,4\n7,3/4/2024 6:00:30.5,8,2\n",
            2,
            1,
        ),
        (
            b"\"locationidentifier \"\n 7 , 2024-03-04T06:00:01 , 8 , 2 \n7,2024-03-04T06:00:00,1,2\n",
            2,
            0,
        ),
        (b"", 0, 0),
    ];
    for (bytes, len, repeats) in cases {
        let rows: HourRows<()> = read_rows(rt.alloc(), bytes, "7", 0, &window)?;
        let found = (rows.len(), rows.repeats());
        assert_eq!(rt; found, (len, repeats), "in {bytes:?}");
    }
    Ok(())
}

const MIXED: &[u8] = b"7,3/4/2024 6:00:01,8,2\n7,3/4/2024 6:00:00,1,2\n7,3/4/2024 6:00:01,7,2\n";

// The rows stand in the order of their tenths, and else in that of the file.
#[test]
fn rows_in_order(rt: HostRuntime) -> Result<(), Fail> {
    let window = Window::new(DAY, 6, 1).ok_or("window")?;
    let rows: HourRows<()> = read_rows(rt.alloc(), MIXED, "7", 0, &window)?;
    let mut reads = Reads::new(());
    let shown = rows.show(&mut reads);
    let found = (shown, count_code(shown, 8));
    let want = [row(0, 1, 2), row(10, 8, 2), row(10, 7, 2)];
    assert_eq!(rt; found, (want.as_slice(), 1));
    Ok(())
}

fn row(at: u32, code: u8, param: u16) -> Row {
    Row { at, code, param }
}

fn refusal(alloc: Global, bytes: &[u8], window: &Window) -> Option<RowError> {
    match read_rows::<()>(alloc, bytes, "7", 0, window) {
        Ok(_) => None,
        Err(error) => Some(error),
    }
}

#[test]
fn refusals(rt: HostRuntime) -> Result<(), Fail> {
    let window = Window::new(DAY, 6, 1).ok_or("window")?;
    let cases: [(&[u8], RowError); 10] = [
        (b"7,2024-03-04 06:00:10.0,1", RowError::Fields(1)),
        (b"7,2024-03-04 07:00:00.0,1,2", RowError::OutsideHour(1)),
        (b"8,2024-03-04 06:00:00.0,1,2", RowError::WrongSignal(1)),
        (b"7,2024-02-30 06:00:00.0,1,2", RowError::Stamp(1)),
        (b"7,2024-03-04 06:00:00.0,256,65536", RowError::Code(1)),
        (b"7,2024-03-04 06:00:00.0,-1,2", RowError::Code(1)),
        (b"7,2024-03-04 06:00:00.0,8,65536", RowError::Param(1)),
        (b"signalid\nSignalID,,,\n", RowError::WrongSignal(2)),
        (
            b"7,2024-03-04 06:12:30.5,1,2\n7,2024-03-04 06:12:3x,1,2\n",
            RowError::Stamp(2),
        ),
        (
            b"7,2024-03-04 06:12:30.5,1,2\n7,2024-03-05 06:12:30.5,1,2\n",
            RowError::OutsideHour(2),
        ),
    ];
    for (bytes, want) in cases {
        assert_eq!(rt;
            refusal(rt.alloc(), bytes, &window),
            Some(want),
            "in {bytes:?}"
        );
    }
    Ok(())
}

// So many lines of one row.
fn lines(alloc: Global, count: u32) -> Result<Vec<u8>, Fail> {
    let mut bytes = Vec::new(alloc);
    for _ in 0..count {
        bytes.extend_from_slice(b"7,3/4/2024 6:00:00,1,2\n")?;
    }
    Ok(bytes)
}

#[test]
fn too_many_rows(rt: HostRuntime) -> Result<(), Fail> {
    let window = Window::new(DAY, 6, 1).ok_or("window")?;
    let bytes = lines(rt.alloc(), 400_001)?;
    let found = refusal(rt.alloc(), &bytes, &window);
    assert_eq!(rt; found, Some(RowError::TooManyRows));
    Ok(())
}
