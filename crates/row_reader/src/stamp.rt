// The stamp of a row and of an hour.
ghost use Rattle.std.specs.Prelude.{◌≡◌, ◌<◌, ◌≤◌, ◌==◌, ◌↔◌, ℕ, ℤ, IfSome, Some, length, option_map, position};
ghost use Rattle.std.specs.Option.{option_or};
ghost use Rattle.sig_base.specs.Window.{IsDay};
ghost use Rattle.row_reader.specs.Forms.{IsHourStamp, NamesTenth};
ghost use Rattle.row_reader.specs.Number.{number_of};
ghost use Rattle.row_reader.specs.Stamp.{civil_day, cut, dashed_date, dashed_month, date_of, day_of, first_digit, hour_stamp_of, minutes_of, seconds_of, slashed_date, slashed_day, stamp_in, stamp_of, tenth_of_day, tenths, time_of};

use crate::number::{digit, read_number};
use jiff::civil::Date;
use sig_base::{Tenth, Window};

// The place of the first such byte.
fn find(text: &[u8], mark: u8) -> Option<usize>
    ensures value { result ≡ position (λ b. b == mark) text.now }
    ensures within { IfSome result (λ i. i < length text.now) }
{
    text.iter().position(|b| *b == mark)
}

// The text before the first such byte, and the text after it.
pub(crate) fn cut(text: &[u8], mark: u8) -> Option<(&[u8], &[u8])>
    ensures { option_map (λ p. (p.0.now, p.1.now)) result ≡ cut mark text.now }
{
    match find(text, mark) {
        Some(at) => Some((&text[..at], &text[at + 1..])),
        None => None,
    }
}

// The day number of a date, where the calendar has it.
fn civil_day(year: u32, month: u32, day: u32) -> Option<i64>
    requires year { year ≤ 9999 }
    requires month { month ≤ 99 }
    requires day { day ≤ 99 }
    ensures value { result ≡ civil_day year month day }
    ensures bound { IfSome result IsDay }
{
    match Date::new(year as i16, month as i8, day as i8) {
        Ok(date) => Some(date.to_plain().to_unix_epoch_day() as i64),
        Err(_) => None,
    }
}

fn day_of(year: Option<u32>, month: Option<u32>, day: Option<u32>) -> Option<i64>
    requires year { IfSome year (λ n. n ≤ 9999) }
    requires month { IfSome month (λ n. n ≤ 99) }
    requires day { IfSome day (λ n. n ≤ 99) }
    ensures value { result ≡ day_of year month day }
    ensures bound { IfSome result IsDay }
{
    match (year, month, day) {
        (Some(year), Some(month), Some(day)) => civil_day(year, month, day),
        _ => None,
    }
}

// MM-DD of a year.
fn dashed_month(year: &[u8], rest: &[u8]) -> Option<i64>
    ensures value { result ≡ dashed_month year.now rest.now }
    ensures bound { IfSome result IsDay }
{
    let (month, day) = cut(rest, b'-')?;
    day_of(
        read_number(year, 4, 4, 9999),
        read_number(month, 2, 2, 99),
        read_number(day, 2, 2, 99),
    )
}

// YYYY-MM-DD.
fn dashed_date(text: &[u8]) -> Option<i64>
    ensures value { result ≡ dashed_date text.now }
    ensures bound { IfSome result IsDay }
{
    let (year, rest) = cut(text, b'-')?;
    dashed_month(year, rest)
}

// D/YYYY of a month.
fn slashed_day(month: &[u8], rest: &[u8]) -> Option<i64>
    ensures value { result ≡ slashed_day month.now rest.now }
    ensures bound { IfSome result IsDay }
{
    let (day, year) = cut(rest, b'/')?;
    day_of(
        read_number(year, 4, 4, 9999),
        read_number(month, 1, 2, 99),
        read_number(day, 1, 2, 99),
    )
}

// M/D/YYYY.
fn slashed_date(text: &[u8]) -> Option<i64>
    ensures value { result ≡ slashed_date text.now }
    ensures bound { IfSome result IsDay }
{
    let (month, rest) = cut(text, b'/')?;
    slashed_day(month, rest)
}

pub(crate) fn date_of(text: &[u8]) -> Option<i64>
    ensures value { result ≡ date_of text.now }
    ensures bound { IfSome result IsDay }
{
    dashed_date(text).or_else(|| slashed_date(text))
}

// The first of one to nine digits.
fn first_digit(text: &[u8]) -> Option<u32>
    ensures value { result ≡ first_digit text.now }
    ensures bound { IfSome result (λ n. n ≤ 9) }
{
    match read_number(text, 1, 9, 999_999_999) {
        Some(_) => Some(digit(text[0])),
        None => None,
    }
}

fn tenths(second: Option<u32>, tenth: Option<u32>) -> Option<u32>
    requires second { IfSome second (λ n. n ≤ 59) }
    requires tenth { IfSome tenth (λ n. n ≤ 9) }
    ensures value { result ≡ tenths second tenth }
    ensures bound { IfSome result (λ n. n < 600) }
{
    match (second, tenth) {
        (Some(second), Some(tenth)) => Some(10 * second + tenth),
        _ => None,
    }
}

// SS.f of three digits, as tenths, or none.
fn short_seconds(text: &[u8]) -> Option<u32>
    ensures value { IfSome result (λ n. seconds_of (cut 46 text.now) text.now ≡ Some n) }
    ensures bound { IfSome result (λ n. n < 600) }
{
    let [a, b, b'.', c] = text else {
        return None;
    };
    if *a < 48 || *a > 53 || *b < 48 || *b > 57 || *c < 48 || *c > 57 {
        return None;
    }
    Some(100 * digit(*a) + 10 * digit(*b) + digit(*c))
}

// SS or SS.f of any length, as tenths.
#[inline(never)]
fn long_seconds(text: &[u8]) -> Option<u32>
    ensures value { result ≡ seconds_of (cut 46 text.now) text.now }
    ensures bound { IfSome result (λ n. n < 600) }
{
    match cut(text, b'.') {
        Some((second, fraction)) => tenths(read_number(second, 2, 2, 59), first_digit(fraction)),
        None => tenths(read_number(text, 2, 2, 59), Some(0)),
    }
}

// SS or SS.f, as tenths.
pub(crate) fn seconds_of(text: &[u8]) -> Option<u32>
    ensures value { result ≡ seconds_of (cut 46 text.now) text.now }
    ensures bound { IfSome result (λ n. n < 600) }
{
    match short_seconds(text) {
        Some(short) => Some(short),
        None => long_seconds(text),
    }
}

fn tenth_of_day(hour: Option<u32>, minute: Option<u32>, second: Option<u32>) -> Option<u32>
    requires hour { IfSome hour (λ n. n ≤ 23) }
    requires minute { IfSome minute (λ n. n ≤ 59) }
    requires second { IfSome second (λ n. n < 600) }
    ensures value { result ≡ tenth_of_day hour minute second }
    ensures bound { IfSome result (λ n. n < 864000) }
{
    match (hour, minute, second) {
        (Some(hour), Some(minute), Some(second)) => Some(36_000 * hour + 600 * minute + second),
        _ => None,
    }
}

// MM:SS or MM:SS.f of an hour.
fn minutes_of(hour: &[u8], rest: &[u8]) -> Option<u32>
    ensures value { result ≡ minutes_of hour.now rest.now }
    ensures bound { IfSome result (λ n. n < 864000) }
{
    let (minute, second) = cut(rest, b':')?;
    tenth_of_day(
        read_number(hour, 1, 2, 23),
        read_number(minute, 2, 2, 59),
        seconds_of(second),
    )
}

// H:MM:SS or H:MM:SS.f.
fn time_of(text: &[u8]) -> Option<u32>
    ensures value { result ≡ time_of text.now }
    ensures bound { IfSome result (λ n. n < 864000) }
{
    let (hour, rest) = cut(text, b':')?;
    minutes_of(hour, rest)
}

// The date and the time of a stamp: what is before and what is after its space or its `T`.
pub(crate) fn halves(text: &[u8]) -> Option<(&[u8], &[u8])>
    ensures { option_map (λ p. (p.0.now, p.1.now)) result
        ≡ option_or (cut 32 text.now) (cut 84 text.now) }
{
    cut(text, b' ').or_else(|| cut(text, b'T'))
}

// The day of a stamp, counted from 1970-01-01, and the tenth of that day.
fn stamp_of(text: &[u8]) -> Option<(i64, u32)>
    ensures value { result ≡ stamp_of text.now }
    ensures day { IfSome result (λ s. IsDay s.0) }
    ensures tenth { IfSome result (λ s. s.1 < 864000) }
{
    let (date, time) = halves(text)?;
    match (date_of(date), time_of(time)) {
        (Some(day), Some(tenth)) => Some((day, tenth)),
        _ => None,
    }
}

/// The tenth of the window that a stamp names, which may lie outside the window; `None` where the
/// text is no stamp. A stamp is a date, one space or `T`, and a time. The date is `YYYY-MM-DD` or
/// `M/D/YYYY`, the time `H:MM:SS` with an hour of one or two digits, or `H:MM:SS.f` with one to
/// nine digits after the dot, of which the first counts.
pub fn read_stamp(text: &[u8], window: &Window) -> Option<Tenth>
    ensures value { result ≡ stamp_in window.now text.now }
    ensures forms { (at : ℤ) → (result ≡ Some at) ↔ NamesTenth window.now text.now at }
{
    match stamp_of(text) {
        Some((day, tenth)) => Some(window.tenth_of(day, tenth)),
        None => None,
    }
}

/// The day, counted from 1970-01-01, and the hour, 0 to 23, of `YYYY-MM-DDTHH`; `None` where the
/// text isn't of this form or there is no such day or hour.
pub fn read_hour_stamp(text: &[u8]) -> Option<(i64, u8)>
    ensures value { result ≡ hour_stamp_of text.now }
    ensures day { IfSome result (λ s. IsDay s.0) }
    ensures hour { IfSome result (λ s. s.1 < 24) }
    ensures forms { (day : ℤ) → (hour : ℕ) → (result ≡ Some (day, hour))
        ↔ IsHourStamp text.now day hour }
{
    let (date, hour) = cut(text, b'T')?;
    match (dashed_date(date), read_number(hour, 2, 2, 23)) {
        (Some(day), Some(hour)) => Some((day, hour as u8)),
        _ => None,
    }
}
