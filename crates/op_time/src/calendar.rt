//! Days by number, from the first of January of the year 0.

ghost use Rattle.std.specs.Prelude.{◌≡◌, ◌+◌, ◌<◌, ◌≤◌, pos, ◌≤ℤ◌, MatchOption, IfSome};
ghost use Rattle.op_time.specs.Calendar.{day_number, date_of, epoch, plain, day_of_month, day_of_date, months_later, past_last_day};

use jiff_core::civil::Date;

/// The number of the first of January 1970.
pub const EPOCH_DAY: u64 = 719_528;

/// The last day's number, after 1970.
const LAST_DAY: u32 = 2_932_896;

/// The milliseconds of a day.
pub const DAY: u64 = 86_400_000;

/// The number of a date's day.
pub fn day_number(date: Date) -> u64
    requires { pos 0 ≤ℤ date.year }
    ensures value { result ≡ day_number (plain date) }
    ensures bound { result < past_last_day }
{
    (date.to_unix_epoch_day() + EPOCH_DAY as i32) as u64
}

/// The date of a day that is counted from 1970.
pub fn date_of(day: u32) -> Date
    requires { day ≤ LAST_DAY }
    ensures from_year_zero { pos 0 ≤ℤ result.year }
    ensures value { plain result ≡ date_of (epoch + day) }
{
    match Date::from_unix_epoch_day(i64::from(day)) {
        Ok(date) => date,
        Err(_) => unreachable!(),
    }
}

/// The months of the years 0 to 9999.
const MONTHS: u32 = 120_000;

/// The number of the same day some months later, or of the last day of a shorter month. `None`
/// only where that day lies past the year 9999.
pub fn months_later(date: Date, months: u128) -> Option<u64>
    requires { pos 0 ≤ℤ date.year }
    ensures { MatchOption result (past_last_day ≤ day_number (months_later (plain date) months))
        (λ day. (day ≡ day_number (months_later (plain date) months)) × (day < past_last_day)) }
{
    if months >= u128::from(MONTHS) {
        return None;
    }
    let month = 12 * u32::from(date.year.unsigned_abs())
        + u32::from(date.month - 1)
        + months as u32;
    if month >= MONTHS {
        return None;
    }
    Some(day_in_month(month, date.day))
}

/// The number of a day in a month that is given by its number, 12 times the year plus the month
/// less 1, or of that month's last day where it is shorter.
fn day_in_month(month: u32, day: u8) -> u64
    requires month { month < MONTHS }
    requires day { 1 ≤ day }
    ensures value { result ≡ day_number (day_of_month month day) }
    ensures bound { result < past_last_day }
{
    let date = Date::constrain((month / 12) as i16, (month % 12 + 1) as u8, day);
    day_number(date)
}

/// The number of a date's day. `None` exactly where the calendar has no such date.
pub fn day_of(year: u16, month: u8, day: u8) -> Option<u64>
    requires { (year < 10000) × (month < 100) × (day < 100) }
    ensures value { result ≡ day_of_date (record { year = year; month = month; day = day }) }
    ensures bound { IfSome result (λ number. number < past_last_day) }
{
    match Date::new(year as i16, month as i8, day as i8) {
        Ok(date) => Some(day_number(date)),
        Err(_) => None,
    }
}
