//! The text of a second.

ghost use Rattle.std.specs.Prelude.{◌≡◌, ◌≤◌, pos};
ghost use Rattle.flow_dates.specs.Dates.{day_after, digit, time_text};

use jiff_core::civil::Date;

/// The octets of a time's text.
pub const TIME_TEXT: usize = 20;

/// The seconds of a day.
const DAY: u32 = 86_400;

/// The number of 1970-01-01, counted from the first day that the calendar of the crate jiff has.
const EPOCH: u32 = 4_371_587;

/// The day so many days after 1970-01-01.
fn date_of(days: u32) -> Date
    requires { days ≤ 49710 }
    ensures year { result.year ≡ pos (day_after days).year }
    ensures month { result.month ≡ (day_after days).month }
    ensures day { result.day ≡ (day_after days).day }
{
    Date::from_days_since_min(EPOCH + days)
}

/// The last digit of a number, as an octet of text.
fn digit(number: u32) -> u8
    ensures { result ≡ digit number }
{
    b'0' + (number % 10) as u8
}

/// The text of a second since 1970-01-01 00:00 UTC: YYYY-MM-DDTHH:MM:SSZ (RFC 3339).
pub fn time_text(second: u32) -> [u8; TIME_TEXT]
    ensures { result ≡ time_text second }
{
    let date = date_of(second / DAY);
    let (year, month, day) = (date.year as u32, date.month as u32, date.day as u32);
    let (hour, minute) = (second % DAY / 3_600, second % DAY / 60 % 60);
    let second = second % 60;
    [
        digit(year / 1_000),
        digit(year / 100),
        digit(year / 10),
        digit(year),
        b'-',
        digit(month / 10),
        digit(month),
        b'-',
        digit(day / 10),
        digit(day),
        b'T',
        digit(hour / 10),
        digit(hour),
        b':',
        digit(minute / 10),
        digit(minute),
        b':',
        digit(second / 10),
        digit(second),
        b'Z',
    ]
}
