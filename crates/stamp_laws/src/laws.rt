// Which texts are read as numbers and as stamps.
ghost use Rattle.stamp_laws.specs.Dates.{DatesAreRead};
ghost use Rattle.stamp_laws.specs.Numbers.{NumbersAreRead};
ghost use Rattle.stamp_laws.specs.Stamps.{HoursAreRead, StampsAreRead, TenthsAreRead};
ghost use Rattle.stamp_laws.specs.Times.{TimesAreRead};

/// Law: a text is read as a number exactly where it is that number in decimal, after zeros or none,
/// has as many digits as are asked for, and the number is within the limit.
pub fn numbers_are_read()
    ensures numbers { NumbersAreRead }
{}

/// Law: a text is read as a date exactly where it is `YYYY-MM-DD` or `M/D/YYYY` with one or two
/// digits of month and day, and the calendar has it.
pub fn dates_are_read()
    ensures dates { DatesAreRead }
{}

/// Law: a text is read as a time exactly where it is `H:MM:SS` with an hour of one or two digits
/// from 0 to 23, and then nothing or a dot and one to nine digits, of which the first counts. An
/// hour has 36,000 tenths, a minute 600 and a second 10.
pub fn times_are_read()
    ensures times { TimesAreRead }
{}

/// Law: a text is read as a stamp exactly where it is a date, one space or `T`, and a time. It is
/// read as the tenth of a window that is so many tenths after the window's first one, where 864,000
/// tenths are a day.
pub fn stamps_are_read()
    ensures stamps { StampsAreRead }
    ensures windows { TenthsAreRead }
{}

/// Law: a text is read as the stamp of an hour exactly where it is `YYYY-MM-DDTHH`, a day of the
/// calendar and an hour from 0 to 23.
pub fn hours_are_read()
    ensures hours { HoursAreRead }
{}
