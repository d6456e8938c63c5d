//! Moments as texts.

ghost use Rattle.std.specs.Prelude.{◌≡◌, ◌<◌, ◌≤◌, ◌==◌, true, Some, length, take, codes, slice_index, IsTrue, IfSome};
ghost use Rattle.std.specs.Char.{is_ascii_digit};
ghost use Rattle.std.specs.List.{list_all};
ghost use Rattle.op_time.specs.Digits.{fits};
ghost use Rattle.op_time.specs.MomentTexts.{moment_of, moment_text, digit, moment_in, moment_with, moment_at, has_shape, clock_of, fraction_of, zone_of, is_fraction, is_zone, day_in, time_in, offset_in, milliseconds_of, in_utc};

use crate::Moment;
use crate::calendar::{self, DAY, EPOCH_DAY};
use crate::digits::{digits_of, fits, number, number_at};
use thiserror::Error;

/// A date and a time of day.
const CLOCK: &[u8; 19] = b"dddd-dd-ddTdd:dd:dd";

/// An offset from UTC.
const OFFSET: &[u8; 6] = b"sdd:dd";

/// Why a text names no moment.
#[derive(Clone, Copy, Debug, PartialEq, Eq, Error)]
pub enum MomentFault {
    /// Digits, letters or signs do not stand in their places.
    #[error("the digits, letters and signs of a moment are not in their places")]
    Shape,
    /// A part is no date, time or offset, or the moment lies before 1970 or after the year 9999.
    #[error("a part is no date, time or offset, or the moment is not in the years 1970 to 9999")]
    Range,
}

/// The moment that a text names: a date, `T` or `t`, a time with seconds, a fraction of one to nine
/// digits or none, and `Z`, `z` or an offset (RFC 3339, section 5.6). It is rounded down to
/// milliseconds.
pub fn read_moment(text: &str) -> Result<Moment, MomentFault>
    ensures { result ≡ moment_in text.now }
{
    moment_in(text.as_bytes())
}

/// The same of the text's bytes.
pub(crate) fn moment_in(text: &[u8]) -> Result<Moment, MomentFault>
    ensures { result ≡ moment_in text.now }
{
    if !has_shape(text) {
        return Err(MomentFault::Shape);
    }
    match moment_with(&text[..19], fraction_of(text), zone_of(text)) {
        Some(moment) => Ok(moment),
        None => Err(MomentFault::Range),
    }
}

fn has_shape(text: &[u8]) -> bool
    ensures { result ≡ has_shape text.now }
{
    if text.len() < 19 {
        return false;
    }
    fits(CLOCK, &text[..19]) && is_fraction(text) && is_zone(zone_of(text))
}

/// Whether a fraction stands behind the time of day.
fn has_point(text: &[u8]) -> bool
    ensures { result ≡ (slice_index text.now 19 == 46) }
{
    text.len() > 19 && text[19] == b'.'
}

fn fraction_of(text: &[u8]) -> &[u8]
    ensures value { result.now ≡ fraction_of text.now }
    ensures digits { IsTrue (list_all is_ascii_digit result.now) }
{
    if has_point(text) {
        digits_of(&text[20..])
    } else {
        &text[..0]
    }
}

fn is_fraction(text: &[u8]) -> bool
    ensures { result ≡ is_fraction text.now }
{
    if has_point(text) {
        let places = fraction_of(text).len();
        1 <= places && places <= 9
    } else {
        true
    }
}

fn zone_of(text: &[u8]) -> &[u8]
    requires { 19 ≤ length text.now }
    ensures { result.now ≡ zone_of text.now }
{
    if has_point(text) {
        &text[20 + fraction_of(text).len()..]
    } else {
        &text[19..]
    }
}

fn is_zone(zone: &[u8]) -> bool
    ensures { result ≡ is_zone zone.now }
{
    fits(b"Z", zone) || fits(OFFSET, zone)
}

fn moment_with(clock: &[u8], fraction: &[u8], zone: &[u8]) -> Option<Moment>
    requires clock { fits CLOCK.now clock.now ≡ true }
    requires fraction { IsTrue (list_all is_ascii_digit fraction.now) }
    requires zone { is_zone zone.now ≡ true }
    ensures { result ≡ moment_with clock.now fraction.now zone.now }
{
    let day = day_in(clock)?;
    let time = time_in(clock)?;
    let offset = offset_in(zone)?;
    let local = (day * 86_400 + time) * 1000 + milliseconds_of(fraction);
    moment_at(in_utc(zone[0], offset, local))
}

fn day_in(clock: &[u8]) -> Option<u64>
    requires { fits CLOCK.now clock.now ≡ true }
    ensures value { result ≡ day_in clock.now }
    ensures bound { IfSome result (λ day. day < 3652425) }
{
    let year = number_at(CLOCK, clock, 0, 4) as u16;
    let month = number_at(CLOCK, clock, 5, 2) as u8;
    let day = number_at(CLOCK, clock, 8, 2) as u8;
    calendar::day_of(year, month, day)
}

fn time_in(clock: &[u8]) -> Option<u64>
    requires { fits CLOCK.now clock.now ≡ true }
    ensures value { result ≡ time_in clock.now }
    ensures bound { IfSome result (λ time. time < 86400) }
{
    let hour = number_at(CLOCK, clock, 11, 2);
    let minute = number_at(CLOCK, clock, 14, 2);
    let second = number_at(CLOCK, clock, 17, 2);
    if hour <= 23 && minute <= 59 && second <= 59 {
        Some((hour * 60 + minute) * 60 + second)
    } else {
        None
    }
}

fn offset_in(zone: &[u8]) -> Option<u64>
    requires { is_zone zone.now ≡ true }
    ensures value { result ≡ offset_in zone.now }
    ensures bound { IfSome result (λ offset. offset < 1440) }
{
    if zone.len() == 1 {
        return Some(0);
    }
    let hour = number_at(OFFSET, zone, 1, 2);
    let minute = number_at(OFFSET, zone, 4, 2);
    if hour <= 23 && minute <= 59 {
        Some(hour * 60 + minute)
    } else {
        None
    }
}

fn milliseconds_of(fraction: &[u8]) -> u64
    requires { IsTrue (list_all is_ascii_digit fraction.now) }
    ensures value { result ≡ milliseconds_of fraction.now }
    ensures bound { result < 1000 }
{
    let kept = &fraction[..fraction.len().min(3)];
    number(kept) * 10u64.pow(3 - kept.len() as u32)
}

fn in_utc(sign: u8, offset: u64, local: u64) -> u64
    requires offset { offset < 1440 }
    requires local { local < 1000000000000000 }
    ensures { result ≡ in_utc sign offset local }
{
    if sign == b'-' {
        local + offset * 60_000
    } else {
        local.saturating_sub(offset * 60_000)
    }
}

fn moment_at(ms: u64) -> Option<Moment>
    ensures { result ≡ moment_at ms }
{
    if ms < EPOCH_DAY * DAY {
        return None;
    }
    Moment::checked(ms - EPOCH_DAY * DAY)
}

/// A moment's text, as `2024-03-01T12:00:00.000Z`: in UTC, with milliseconds.
pub fn print_moment(moment: Moment) -> [u8; 24]
    ensures value { result ≡ moment_text moment }
    ensures reads_back { moment_of result ≡ Some moment }
{
    let ms = moment.ms();
    let date = calendar::date_of((ms / DAY) as u32);
    let year = u64::from(date.year.unsigned_abs());
    let (month, day) = (u64::from(date.month), u64::from(date.day));
    let time = ms % DAY;
    let (hour, minute, second) = (time / 3_600_000, time / 60_000 % 60, time / 1000 % 60);
    [
        digit(year / 1000),
        digit(year / 100),
        digit(year / 10),
        digit(year),
        b'-',
        digit(month / 10),
        digit(month),
        b'-',
        digit(day / 10),
        digit(day),
        b'T',
        digit(hour / 10),
        digit(hour),
        b':',
        digit(minute / 10),
        digit(minute),
        b':',
        digit(second / 10),
        digit(second),
        b'.',
        digit(time % 1000 / 100),
        digit(time % 1000 / 10),
        digit(time % 1000),
        b'Z',
    ]
}

/// The last decimal digit of a number.
fn digit(number: u64) -> u8
    ensures { result ≡ digit number }
{
    b'0' + (number % 10) as u8
}
