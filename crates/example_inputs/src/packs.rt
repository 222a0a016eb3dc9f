// Packed hours as they stand in archives, byte for byte, and what is refused.
use hour_pack::{PackError, has_repeat, pack, unpack};
use sig_base::{HourRows, Reads, Row, Window};
use std::alloc::Global;
use std::test::Fail;

#[derive(Drop)]
struct Mark;

// The day 2024-03-04.
const DAY: i64 = 19_786;

fn row(at: u32, code: u8, param: u16) -> Row {
    Row { at, code, param }
}

// The rows 0 and 128 tenths after the start, 16,384 tenths later, and at once: their bytes and
// those of their parameters are one, two and three.
const BYTES: &[u8] =
    b"\0SGP\x0172024-03-04T07\0\0\0\x04\0\x01\x02\x80\x01R\x7F\x80\x80\x01\xFF\xFF\x7F\0\0\xFF\xFF\x03";

// The hour of these rows.
fn hour_of_four(alloc: Global) -> Result<HourRows<Mark>, Fail> {
    let rows = vec![in alloc;
        row(36_000, 1, 2),
        row(36_128, 82, 127),
        row(52_512, 255, 16_383),
        row(52_512, 0, 65_535),
    ]?;
    let hour = HourRows::new(1, rows, 3).ok_or("rows")?;
    Ok(hour)
}

#[test]
fn rows_are_packed(rt: HostRuntime) -> Result<(), Fail> {
    let window = Window::new(DAY, 6, 2).ok_or("window")?;
    let hour = hour_of_four(rt.alloc())?;
    let mut reads = Reads::new(Mark);
    if hour.hour() >= window.hours() || has_repeat(&hour, &mut reads) {
        return Err(Fail::from("rows"));
    }
    let bytes = pack(rt.alloc(), "7", &window, &hour, &mut reads)?;
    assert_eq!(rt; bytes.as_slice(), BYTES);
    assert_eq!(rt; reads.count(1), 2);
    Ok(())
}

#[test]
fn rows_are_unpacked(rt: HostRuntime) -> Result<(), Fail> {
    let window = Window::new(DAY, 6, 2).ok_or("window")?;
    if !window.has_hour(1) {
        return Err(Fail::from("window"));
    }
    let hour = hour_of_four(rt.alloc())?;
    let mut reads = Reads::new(Mark);
    let back: HourRows<Mark> = unpack(rt.alloc(), BYTES, "7", 1, &window)?;
    assert_eq!(rt; back.show(&mut reads), hour.show(&mut reads));
    assert_eq!(rt; back.repeats(), 0);
    Ok(())
}

// Packed hours, and how many rows they have or why they have none.
const FAULTS: [(&[u8], Result<u32, PackError>); 20] = [
    (b"\0SGP\x0172024-03-04T07\0\0\0\0", Ok(0)),
    (BYTES, Ok(4)),
    // The first of two states of one phase comes again behind the second one.
    (
        b"\0SGP\x0172024-03-04T07\0\0\0\x03\0\x01\x02\0\x08\x02\0\x01\x02",
        Ok(3),
    ),
    (b"\0SG", Err(PackError::NotPacked)),
    (
        b"\0SGQ\x0172024-03-04T07\0\0\0\0",
        Err(PackError::NotPacked),
    ),
    (b"\0SGP", Err(PackError::Short)),
    (b"\0SGP\x0172024-03-04T0", Err(PackError::Short)),
    (b"\0SGP\x0172024-03-04T07\0\x06\x1A", Err(PackError::Short)),
    (
        b"\0SGP\x0172024-03-04T07\0\0\0\x01\0\x01\x80\x80",
        Err(PackError::Short),
    ),
    (
        b"\0SGP\x02772024-03-04T07\0\0\0\0",
        Err(PackError::WrongSignal),
    ),
    (b"\0SGP\x018", Err(PackError::WrongSignal)),
    (
        b"\0SGP\x0172024-03-04T06\0\0\0\0",
        Err(PackError::WrongHour),
    ),
    (
        b"\0SGP\x0172024-03-04T07\0\x06\x1A\x81",
        Err(PackError::TooManyRows),
    ),
    // A third byte of 0x80, a last byte 0 that isn't alone, the tenth 36,000, the parameter
    // 65,536, a row that comes twice.
    (
        b"\0SGP\x0172024-03-04T07\0\0\0\x01\x80\x80\x80",
        Err(PackError::Row(1)),
    ),
    (
        b"\0SGP\x0172024-03-04T07\0\0\0\x01\x80\0\x01\x02",
        Err(PackError::Row(1)),
    ),
    (
        b"\0SGP\x0172024-03-04T07\0\0\0\x02\0\x01\x02\xA0\x99\x02",
        Err(PackError::Row(2)),
    ),
    (
        b"\0SGP\x0172024-03-04T07\0\0\0\x01\xA0\x98\x02\x01\x80\x80\x04",
        Err(PackError::Row(1)),
    ),
    (
        b"\0SGP\x0172024-03-04T07\0\0\0\x02\0\x01\x02\0\x01\x02",
        Err(PackError::Row(2)),
    ),
    (b"\0SGP\x0172024-03-04T07\0\0\0\0\0", Err(PackError::Extra)),
    (
        b"\0SGP\x0172024-03-04T07\0\0\0\x01\0\x01\x02\0",
        Err(PackError::Extra),
    ),
];

#[test]
fn faults(rt: HostRuntime) -> Result<(), Fail> {
    let window = Window::new(DAY, 6, 2).ok_or("window")?;
    if !window.has_hour(1) {
        return Err(Fail::from("window"));
    }
    for (bytes, want) in FAULTS {
        let got: Result<HourRows<Mark>, PackError> = unpack(rt.alloc(), bytes, "7", 1, &window);
        assert_eq!(rt; got.map(|rows| rows.len()), want, "at {bytes:?}");
    }
    Ok(())
}
