//! Words that are moments.

ghost use Rattle.std.specs.Prelude.{◌≡◌, ◌<◌, ◌≤◌, ◌^◌, IfSome};
ghost use Rattle.flow_moments.specs.Moments.{ago, clock_of, date_of, day_of, minute_of, moment_of};
ghost use Rattle.flow_moments.specs.Moments.{second_in_minute, second_of};

use crate::moment::Moment;
use flow_report::number_between;
use jiff_core::civil::{Date, days_in_month};

/// The seconds of a minute, an hour and a day.
const MINUTE: u64 = 60;

const HOUR: u64 = 3_600;

const DAY: u64 = 86_400;

/// The most days or hours ago.
const MOST: u64 = 4_294_967_296;

/// The number of a day since 1970-01-01, where the calendar has this day.
fn day_of(year: u64, month: u64, day: u64) -> Option<u64>
    requires year { (1970 ≤ year) × (year ≤ 2106) }
    requires month { (1 ≤ month) × (month ≤ 12) }
    requires day { (1 ≤ day) × (day ≤ 31) }
    ensures value { result ≡ day_of year month day }
    ensures most { IfSome result (λ n. n < 2 ^ 31) }
{
    let (year, month, day) = (year as i16, month as u8, day as u8);
    if day > days_in_month(year, month) {
        return None;
    }
    let number = Date::constrain(year, month, day).to_unix_epoch_day();
    Some(number.unsigned_abs() as u64)
}

/// The number of the day that YYYY-MM-DD is.
fn date_of(word: &[u8]) -> Option<u64>
    ensures value { result ≡ date_of word.now }
    ensures most { IfSome result (λ n. n < 2 ^ 31) }
{
    if word.len() != 10 || word[4] != b'-' || word[7] != b'-' {
        return None;
    }
    let year = number_between(1970, 2106, &word[0..4])?;
    let month = number_between(1, 12, &word[5..7])?;
    let day = number_between(1, 31, &word[8..10])?;
    day_of(year, month, day)
}

/// The second of a day that THH:MM is.
fn minute_of(word: &[u8]) -> Option<u64>
    ensures value { result ≡ minute_of word.now }
    ensures most { IfSome result (λ n. n ≤ 86340) }
{
    if word.len() != 6 || word[0] != b'T' || word[3] != b':' {
        return None;
    }
    let hour = number_between(0, 23, &word[1..3])?;
    let minute = number_between(0, 59, &word[4..6])?;
    Some(hour * HOUR + minute * MINUTE)
}

/// The second of a minute that :SSZ is, or nothing at all.
fn second_in_minute(word: &[u8]) -> Option<u64>
    ensures value { result ≡ second_in_minute word.now }
    ensures most { IfSome result (λ n. n < 60) }
{
    if word.is_empty() {
        return Some(0);
    }
    if word.len() != 4 || word[0] != b':' || word[3] != b'Z' {
        return None;
    }
    number_between(0, 59, &word[1..3])
}

/// The second of a day that THH:MM or THH:MM:SSZ is, or nothing at all.
fn clock_of(word: &[u8]) -> Option<u64>
    ensures value { result ≡ clock_of word.now }
    ensures most { IfSome result (λ n. n < 86400) }
{
    if word.is_empty() {
        return Some(0);
    }
    if word.len() < 6 {
        return None;
    }
    let (minute, rest) = word.split_at(6);
    let minute = minute_of(minute)?;
    let second = second_in_minute(rest)?;
    Some(minute + second)
}

/// The second that a day is, or a minute or a second of it.
fn second_of(word: &[u8]) -> Option<u64>
    ensures { result ≡ second_of word.now }
{
    if word.len() < 10 {
        return None;
    }
    let (date, clock) = word.split_at(10);
    let day = date_of(date)?;
    let second = clock_of(clock)?;
    Some(day * DAY + second)
}

/// So many days or hours ago.
fn ago(unit: u64, count: &[u8]) -> Option<Moment>
    requires { unit ≤ 86400 }
    ensures { result ≡ ago unit count.now }
{
    Some(Moment::Ago(unit * number_between(0, MOST, count)?))
}

/// The moment that a word is: a day as 2026-11-25, that is its first second; a minute as 2026-11-25T06:00, or a second
/// as 2026-11-25T06:00:00Z, in UTC, from 1970 to 2106; so many days or hours ago, as 1d or 6h; or now.
pub fn moment_of(word: &str) -> Option<Moment>
    ensures { result ≡ moment_of word.now }
{
    if word == "now" {
        return Some(Moment::Ago(0));
    }
    let octets = word.as_bytes();
    let (unit, count) = octets.split_last()?;
    match unit {
        b'd' => ago(DAY, count),
        b'h' => ago(HOUR, count),
        _ => Some(Moment::Second(second_of(octets)?)),
    }
}
