// The seconds of a date.
ghost use Rattle.std.specs.Prelude.{◌≡◌, ◌^◌, ◌<◌, ◌≤◌, true};
ghost use Rattle.tetri_logs.specs.Calendar.{days_before_month, days_before_year, is_date, is_day, is_leap, is_time, leaps, month_length, seconds_of};

/// A moment of a day.
#[derive(Clone, Copy)]
pub(crate) struct Date {
    pub(crate) year: u64,
    pub(crate) month: u64,
    pub(crate) day: u64,
    pub(crate) hour: u64,
    pub(crate) minute: u64,
    pub(crate) second: u64,
}

// The days of a common year before each month.
const BEFORE: [u64; 12] = [0, 31, 59, 90, 120, 151, 181, 212, 243, 273, 304, 334];

// The days from the year 0 to the year 1970.
const BEFORE_1970: u64 = 719_527;

fn is_leap(year: u64) -> bool
    ensures { result ≡ is_leap year }
{
    (year % 4 == 0 && year % 100 != 0) || year % 400 == 0
}

fn month_length(year: u64, month: u64) -> u64
    ensures { result ≡ month_length year month }
{
    if month == 2 {
        if is_leap(year) { 29 } else { 28 }
    } else if month == 4 || month == 6 || month == 9 || month == 11 {
        30
    } else {
        31
    }
}

fn is_day(date: Date) -> bool
    ensures { result ≡ is_day date }
{
    1970 <= date.year
        && date.year <= 9999
        && 1 <= date.month
        && date.month <= 12
        && 1 <= date.day
        && date.day <= month_length(date.year, date.month)
}

fn is_time(date: Date) -> bool
    ensures { result ≡ is_time date }
{
    date.hour < 24 && date.minute < 60 && date.second < 60
}

/// Whether there is such a moment, from 1970 on.
pub(crate) fn is_date(date: Date) -> bool
    ensures { result ≡ is_date date }
{
    is_day(date) && is_time(date)
}

// How many leap years there are up to a year.
fn leaps(year: u64) -> u64
    requires { year ≤ 9999 }
    ensures value { result ≡ leaps year }
    ensures most { result ≤ 4998 }
{
    year / 4 + year / 400 - year / 100
}

// The days from the year 0 to a year.
fn days_before_year(year: u64) -> u64
    requires some { 1 ≤ year }
    requires most { year ≤ 9999 }
    ensures value { result ≡ days_before_year year }
    ensures most { result ≤ 4000000 }
{
    365 * year + leaps(year - 1)
}

// The days of a year before a month.
fn days_before_month(year: u64, month: u64) -> u64
    requires some { 1 ≤ month }
    requires most { month ≤ 12 }
    ensures value { result ≡ days_before_month year month }
    ensures most { result ≤ 335 }
{
    let days = BEFORE[(month - 1) as usize];
    if is_leap(year) && 2 < month {
        days + 1
    } else {
        days
    }
}

/// The seconds from 1970 to a date.
pub(crate) fn seconds_of(date: Date) -> u64
    requires { is_date date ≡ true }
    ensures value { result ≡ seconds_of date }
    ensures early { result < 2 ^ 40 }
{
    let days = days_before_year(date.year) + days_before_month(date.year, date.month) + date.day;
    let hours = (days - 1 - BEFORE_1970) * 24 + date.hour;
    (hours * 60 + date.minute) * 60 + date.second
}
