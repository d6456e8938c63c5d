//! Repeating intervals as texts.

ghost use Rattle.std.specs.Prelude.{◌≡◌, ◌<◌, ◌==◌, length, slice_index, option_map, IfSome};
ghost use Rattle.std.specs.Bool.{OnTrue};
ghost use Rattle.op_time.specs.Texts.{part, parts, weeks_in, times_in, calendar_in, parts_in, duration_of, lasting, is_count, count_of, has_parts, head_of, tail_of, interval_of_parts, interval_in};

use crate::Interval;
use crate::cuts::{after_first, before_first, contains};
use crate::digits::{all_digits, digits_of, number};
use crate::moments::moment_in;
use thiserror::Error;

/// The largest count.
const COUNT_LIMIT: u64 = 1_000_000_000;

/// Why a text names no repeating interval. The first that holds is told.
#[derive(Clone, Copy, Debug, PartialEq, Eq, Error)]
pub enum IntervalFault {
    /// It is not three parts, cut by two slashes, the first of which begins with `R`.
    #[error("an interval is three parts, cut by slashes, and begins with `R`")]
    Shape,
    /// The second part is no moment.
    #[error("the second part of the interval is no moment")]
    Start,
    /// The third part is no duration.
    #[error("the third part of the interval is no duration")]
    Duration,
    /// What is behind the `R` is no count.
    #[error("behind the `R` of an interval is a count from 1 to {COUNT_LIMIT}, or nothing")]
    Count,
}

/// How long an interval lasts.
#[derive(Clone, Copy)]
struct Duration {
    months: u64,
    seconds: u64,
}

/// The repeating interval that a text names: `R` and a count or none, a start and a duration, cut
/// by slashes (ISO 8601-1:2019, section 5.6). A duration has numbers of one to six digits.
pub fn read_interval(text: &str) -> Result<Interval, IntervalFault>
    ensures { result ≡ interval_in text.now }
{
    let text = text.as_bytes();
    if !has_parts(text) {
        return Err(IntervalFault::Shape);
    }
    let rest = tail_of(text);
    interval_of_parts(&head_of(text)[1..], head_of(rest), tail_of(rest))
}

fn head_of(text: &[u8]) -> &[u8]
    ensures { result.now ≡ head_of text.now }
{
    before_first(text, b'/')
}

fn tail_of(text: &[u8]) -> &[u8]
    ensures { result.now ≡ tail_of text.now }
{
    after_first(text, b'/')
}

fn has_parts(text: &[u8]) -> bool
    ensures { result ≡ has_parts text.now }
{
    let rest = tail_of(text);
    contains(text, b'/')
        && contains(rest, b'/')
        && !contains(tail_of(rest), b'/')
        && head_of(text).starts_with(b"R")
}

fn interval_of_parts(count: &[u8], start: &[u8], duration: &[u8]) -> Result<Interval, IntervalFault>
    ensures { result ≡ interval_of_parts count.now start.now duration.now }
{
    let Ok(start) = moment_in(start) else {
        return Err(IntervalFault::Start);
    };
    let Some(duration) = duration_of(duration) else {
        return Err(IntervalFault::Duration);
    };
    let Some(count) = count_of(count) else {
        return Err(IntervalFault::Count);
    };
    Ok(Interval {
        count,
        start,
        months: duration.months,
        seconds: duration.seconds,
    })
}

fn count_of(digits: &[u8]) -> Option<Option<u64>>
    ensures { result ≡ count_of digits.now }
{
    if digits.is_empty() {
        return Some(None);
    }
    if is_count(digits) {
        Some(Some(number(digits)))
    } else {
        None
    }
}

fn is_count(digits: &[u8]) -> bool
    requires { 0 < length digits.now }
    ensures { result ≡ is_count digits.now }
{
    all_digits(digits) && digits[0] > b'0' && digits.len() <= 10 && number(digits) <= COUNT_LIMIT
}

fn duration_of(text: &[u8]) -> Option<Duration>
    ensures { result ≡ duration_of text.now }
{
    if !text.starts_with(b"P") {
        return None;
    }
    lasting(parts_in(&text[1..])?)
}

/// The duration, where it takes time.
fn lasting(duration: Duration) -> Option<Duration>
    ensures { result ≡ lasting duration }
{
    if duration.months.max(duration.seconds) > 0 {
        Some(duration)
    } else {
        None
    }
}

fn parts_in(text: &[u8]) -> Option<Duration>
    ensures { result ≡ parts_in text.now }
{
    if contains(text, b'W') {
        weeks_in(text)
    } else {
        calendar_in(text)
    }
}

fn weeks_in(text: &[u8]) -> Option<Duration>
    ensures { result ≡ weeks_in text.now }
{
    let (weeks, rest) = part(b'W', text)?;
    if !rest.is_empty() {
        return None;
    }
    Some(Duration {
        months: 0,
        seconds: weeks * 604_800,
    })
}

fn calendar_in(text: &[u8]) -> Option<Duration>
    ensures { result ≡ calendar_in text.now }
{
    let (years, months, days) = parts(b'Y', b'M', b'D', before_first(text, b'T'))?;
    let (hours, minutes, seconds) = times_in(text)?;
    Some(Duration {
        months: 12 * years + months,
        seconds: ((days * 24 + hours) * 60 + minutes) * 60 + seconds,
    })
}

fn times_in(text: &[u8]) -> Option<(u64, u64, u64)>
    ensures value { result ≡ times_in text.now }
    ensures bound { IfSome result (λ n. (n.0 < 1000000) × (n.1 < 1000000) × (n.2 < 1000000)) }
{
    let time = after_first(text, b'T');
    if contains(text, b'T') && time.is_empty() {
        return None;
    }
    parts(b'H', b'M', b'S', time)
}

fn parts(a: u8, b: u8, c: u8, text: &[u8]) -> Option<(u64, u64, u64)>
    requires { (0 < a) × (0 < b) × (0 < c) }
    ensures value { result ≡ parts a b c text.now }
    ensures bound { IfSome result (λ n. (n.0 < 1000000) × (n.1 < 1000000) × (n.2 < 1000000)) }
{
    let (x, rest) = part(a, text)?;
    let (y, rest) = part(b, rest)?;
    let (z, rest) = part(c, rest)?;
    if rest.is_empty() {
        Some((x, y, z))
    } else {
        None
    }
}

/// A number with its letter, and what is behind them; 0 where the part is left out.
fn part(letter: u8, text: &[u8]) -> Option<(u64, &[u8])>
    requires { 0 < letter }
    ensures value { option_map (λ p. (p.0, p.1.now)) result ≡ part letter text.now }
    ensures bound { IfSome result (λ p. p.0 < 1000000) }
{
    let digits = digits_of(text);
    if !has_at(text, digits.len(), letter) {
        return Some((0, text));
    }
    if digits.is_empty() || digits.len() > 6 {
        return None;
    }
    Some((number(digits), &text[digits.len() + 1..]))
}

fn has_at(text: &[u8], at: usize, letter: u8) -> bool
    requires { 0 < letter }
    ensures value { result ≡ (slice_index text.now at == letter) }
    ensures within { OnTrue result (at < length text.now) }
{
    at < text.len() && text[at] == letter
}
