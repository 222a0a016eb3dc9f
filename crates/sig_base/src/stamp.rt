// The date and the text of a tenth.
ghost use Rattle.std.specs.Prelude.{◌≡◌, pos};
ghost use Rattle.jiff_core.specs.Calendar.{IsCivilDate, days_from_civil};
ghost use Rattle.sig_base.specs.Window.{IsDay};
ghost use Rattle.sig_base.specs.Stamp.{IsDateOf, civil_of, decimal_end, stamp_text};

use jiff_core::civil::Date;

// A day of the calendar.
#[derive(Clone, Copy)]
pub(crate) struct Civil {
    year: u32,
    month: u32,
    day: u32,
}

// The date of a day of the years 0000 to 9999, counted from 1970-01-01.
pub(crate) fn date_at(day: i64) -> Civil
    requires { IsDay day }
    ensures value { result ≡ civil_of day }
    ensures date { IsDateOf day result }
{
    date_by_calendar(day)
}

fn date_by_calendar(day: i64) -> Civil
    requires { IsDay day }
    ensures civil { IsCivilDate (pos result.year) result.month result.day }
    ensures day { days_from_civil (pos result.year) result.month result.day ≡ day }
{
    let Ok(date) = Date::from_unix_epoch_day(day) else {
        unreachable!()
    };
    Civil {
        year: date.year as u32,
        month: date.month as u32,
        day: date.day as u32,
    }
}

fn last_digit(number: u32) -> u8
    ensures { result ≡ decimal_end number }
{
    b'0' + (number % 10) as u8
}

// The text `YYYY-MM-DDTHH:MM:SS.f` of a date and a tenth of its day.
pub(crate) fn stamp_of(date: Civil, tenth: u32) -> [u8; 21]
    ensures { result ≡ stamp_text date tenth }
{
    let (minute, second) = (tenth / 600 % 60, tenth / 10 % 60);
    [
        last_digit(date.year / 1000),
        last_digit(date.year / 100),
        last_digit(date.year / 10),
        last_digit(date.year),
        b'-',
        last_digit(date.month / 10),
        last_digit(date.month),
        b'-',
        last_digit(date.day / 10),
        last_digit(date.day),
        b'T',
        last_digit(tenth / 360_000),
        last_digit(tenth / 36_000),
        b':',
        last_digit(minute / 10),
        last_digit(minute),
        b':',
        last_digit(second / 10),
        last_digit(second),
        b'.',
        last_digit(tenth),
    ]
}
