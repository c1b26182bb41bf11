// Clock times of slots, in UTC.
ghost use Rattle.std.specs.Prelude.{◌≡◌, ◌<◌, ◌≤◌, ◌^◌};
ghost use Rattle.tetri_svg.specs.Clock.{date_of, day_of, era_year, march_month, minute_of, month_day, month_of, time_of, year_day, year_of};

/// When slots are: the seconds since 1970 in UTC as slot 0 begins, and how many seconds a slot has.
#[derive(Clone, Copy, Debug, PartialEq, Eq)]
pub struct Clock {
    pub epoch: u64,
    pub slot_seconds: u64,
}

/// A date.
#[derive(Clone, Copy, Debug, PartialEq, Eq)]
pub(crate) struct Date {
    pub year: u128,
    pub month: u64,
    pub day: u64,
}

/// The seconds since 1970 as a slot begins.
pub(crate) fn time_of(clock: Clock, slot: u32) -> u128
    ensures value { result ≡ time_of clock slot }
    ensures small { result ≤ 2 ^ 100 }
{
    u128::from(clock.epoch) + u128::from(slot) * u128::from(clock.slot_seconds)
}

/// The day since 1970.
pub(crate) fn day_of(time: u128) -> u128
    ensures value { result ≡ day_of time }
    ensures small { result ≤ time }
{
    time / 86400
}

/// The minute of the day.
pub(crate) fn minute_of(time: u128) -> u64
    ensures value { result ≡ minute_of time }
    ensures small { result < 1440 }
{
    (time % 86400 / 60) as u64
}

// The year of an era, which begins in March, of a day of it.
fn era_year(day: u64) -> u64
    requires { day < 146097 }
    ensures value { result ≡ era_year day }
    ensures small { result ≤ 400 }
{
    ((day - day / 1460 + day / 36524).saturating_sub(day / 146096)) / 365
}

// The day of that year.
fn year_day(day: u64) -> u64
    requires { day < 146097 }
    ensures value { result ≡ year_day day }
    ensures small { result < 146097 }
{
    let year = era_year(day);
    day.saturating_sub((year * 365 + year / 4).saturating_sub(year / 100))
}

// The month of that year, of which March is 0, of a day of it.
fn march_month(day: u64) -> u64
    requires { day < 146097 }
    ensures value { result ≡ march_month day }
    ensures small { result < 5000 }
{
    (day * 5 + 2) / 153
}

// The month of the calendar.
fn month_of(month: u64) -> u64
    requires { month < 5000 }
    ensures value { result ≡ month_of month }
    ensures small { result < 5000 }
{
    if month < 10 { month + 3 } else { month - 9 }
}

// The day of the month, of a day of the year that begins in March.
fn month_day(day: u64) -> u64
    requires { day < 146097 }
    ensures value { result ≡ month_day day }
{
    day.saturating_sub((march_month(day) * 153 + 2) / 5) + 1
}

// The year of the calendar, of a year that begins in March and a month of the calendar.
fn year_of(year: u128, month: u64) -> u128
    requires { year ≤ 2 ^ 110 }
    ensures { result ≡ year_of year month }
{
    if month <= 2 { year + 1 } else { year }
}

/// The date of a day since 1970, by the Gregorian calendar.
pub(crate) fn date_of(day: u128) -> Date
    requires { day ≤ 2 ^ 100 }
    ensures { result ≡ date_of day }
{
    let shifted = day + 719_468;
    let within = (shifted % 146_097) as u64;
    let days = year_day(within);
    let month = month_of(march_month(days));
    Date {
        year: year_of(
            shifted / 146_097 * 400 + u128::from(era_year(within)),
            month,
        ),
        month,
        day: month_day(days),
    }
}
