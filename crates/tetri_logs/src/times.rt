// The moment that a text is.
ghost use Rattle.std.specs.Prelude.{◌≡◌, ◌↔◌, ◌+◌, ◌^◌, ◌≤◌, ◌<◌, length, take, IfSome, IsTrue};
ghost use Rattle.std.specs.Int.{from_le_bytes, to_le_bytes, w16, w64};
ghost use Rattle.std.specs.List.{slice_range};
ghost use Rattle.tetri_logs.specs.Times.{IsDay, below_100, day_start, digit_or_100, has_marks, midnight, on_clock, on_day, part, seconds_in, small};

use crate::calendar::{Date, is_date, seconds_of};
use tetri_io::digits_below;

// Of each byte what it is as a digit, or 100.
static DIGITS: [u8; 256] = [
    100, 100, 100, 100, 100, 100, 100, 100, 100, 100, 100, 100, 100, 100, 100, 100, 100, 100, 100,
    100, 100, 100, 100, 100, 100, 100, 100, 100, 100, 100, 100, 100, 100, 100, 100, 100, 100, 100,
    100, 100, 100, 100, 100, 100, 100, 100, 100, 100, 0, 1, 2, 3, 4, 5, 6, 7, 8, 9, 100, 100, 100,
    100, 100, 100, 100, 100, 100, 100, 100, 100, 100, 100, 100, 100, 100, 100, 100, 100, 100, 100,
    100, 100, 100, 100, 100, 100, 100, 100, 100, 100, 100, 100, 100, 100, 100, 100, 100, 100, 100,
    100, 100, 100, 100, 100, 100, 100, 100, 100, 100, 100, 100, 100, 100, 100, 100, 100, 100, 100,
    100, 100, 100, 100, 100, 100, 100, 100, 100, 100, 100, 100, 100, 100, 100, 100, 100, 100, 100,
    100, 100, 100, 100, 100, 100, 100, 100, 100, 100, 100, 100, 100, 100, 100, 100, 100, 100, 100,
    100, 100, 100, 100, 100, 100, 100, 100, 100, 100, 100, 100, 100, 100, 100, 100, 100, 100, 100,
    100, 100, 100, 100, 100, 100, 100, 100, 100, 100, 100, 100, 100, 100, 100, 100, 100, 100, 100,
    100, 100, 100, 100, 100, 100, 100, 100, 100, 100, 100, 100, 100, 100, 100, 100, 100, 100, 100,
    100, 100, 100, 100, 100, 100, 100, 100, 100, 100, 100, 100, 100, 100, 100, 100, 100, 100, 100,
    100, 100, 100, 100, 100, 100, 100, 100, 100, 100, 100, 100, 100, 100, 100, 100, 100, 100, 100,
    100, 100, 100, 100, 100,
];

/// The number that the digits of a part of a text are.
pub(crate) fn part(text: &[u8], from: usize, to: usize) -> Option<u64>
    requires order { from ≤ to }
    requires inside { to ≤ length text.now }
    ensures { result ≡ part text.now from to }
{
    digits_below(10_000, &text[from..to])
}

// Whether the marks of `2024-05-01T12:34:56` stand where they belong.
#[inline(always)]
fn has_marks(text: &[u8]) -> bool
    ensures { result ≡ has_marks text.now }
{
    text.len() == 19
        && text[4] == b'-'
        && text[7] == b'-'
        && text[10] == b'T'
        && text[13] == b':'
        && text[16] == b':'
}

// The number that two digits are.
#[inline(always)]
#[tactic(auto, using(crate::proofs::TimeLemmas::is_pair, crate::proofs::TimeLemmas::no_first, crate::proofs::TimeLemmas::no_second))]
fn pair(text: &[u8], from: usize) -> Option<u64>
    requires { from + 2 ≤ length text.now }
    ensures value { result ≡ part text.now from (from + 2) }
    ensures small { IfSome result (λ n. n < 100) }
{
    let (tens, ones) = (text[from], text[from + 1]);
    if tens.is_ascii_digit() && ones.is_ascii_digit() {
        Some(u64::from(tens - b'0') * 10 + u64::from(ones - b'0'))
    } else {
        None
    }
}

// The number that the four digits of a year are.
fn year_in(text: &[u8]) -> Option<u64>
    requires { 4 ≤ length text.now }
    ensures { result ≡ part text.now 0 4 }
{
    let century = pair(text, 0)?;
    let year = pair(text, 2)?;
    Some(century * 100 + year)
}

// Seconds, if there are less than 2^32.
#[inline(always)]
fn small(seconds: u64) -> Option<u32>
    ensures { result ≡ small seconds }
{
    if seconds < 4_294_967_296 {
        Some(seconds as u32)
    } else {
        None
    }
}

// The seconds from 1970 to the beginning of a day, if there is such a day.
fn midnight(year: u64, month: u64, day: u64) -> Option<u64>
    ensures value { result ≡ midnight year month day }
    ensures early { IfSome result (λ n. n < 2 ^ 40) }
{
    let date = Date {
        year,
        month,
        day,
        hour: 0,
        minute: 0,
        second: 0,
    };
    if is_date(date) {
        Some(seconds_of(date))
    } else {
        None
    }
}

// The same of a text that is a day, as `2024-05-01`.
#[inline(never)]
#[tactic(auto, unfolding(crate::specs::Times::day_start))]
fn day_start(text: &[u8]) -> Option<u64>
    requires { length text.now ≡ 10 }
    ensures value { result ≡ day_start text.now }
    ensures early { IfSome result (λ n. n < 2 ^ 40) }
{
    let year = year_in(text)?;
    let month = pair(text, 5)?;
    let day = pair(text, 8)?;
    midnight(year, month, day)
}

// The seconds from 1970 to a time of the day that begins after so many, if there is such a time and there are less than 2^32.
#[inline(always)]
fn on_clock(start: u64, hour: u64, minute: u64, second: u64) -> Option<u32>
    requires { start < 2 ^ 40 }
    ensures { result ≡ on_clock start hour minute second }
{
    if hour < 24 && minute < 60 && second < 60 {
        small(start + ((hour * 60 + minute) * 60 + second))
    } else {
        None
    }
}

// What a byte is as a digit, or 100 where it is none.
#[inline(always)]
fn digit_or_100(byte: u8) -> u8
    ensures { result ≡ digit_or_100 byte }
{
    DIGITS[byte as usize]
}

// The number that two digits are, or one from 100 on where a byte is no digit.
#[inline(always)]
#[tactic(auto, using(crate::proofs::TimeLemmas::two_or_more))]
fn two_digits(text: &[u8], from: usize) -> u64
    requires { from + 2 ≤ length text.now }
    ensures { below_100 result ≡ part text.now from (from + 2) }
{
    let tens = u64::from(digit_or_100(text[from]));
    let ones = u64::from(digit_or_100(text[from + 1]));
    tens * 10 + ones
}

// The same of the time in a text that is a moment.
#[inline(always)]
#[tactic(auto, using(crate::proofs::DayLemmas::by_clock))]
fn on_day(start: u64, text: &[u8]) -> Option<u32>
    requires early { start < 2 ^ 40 }
    requires length { length text.now ≡ 19 }
    ensures { result ≡ on_day start text.now }
{
    let hour = two_digits(text, 11);
    let minute = two_digits(text, 14);
    let second = two_digits(text, 17);
    on_clock(start, hour, minute, second)
}

// The first eight bytes of a text as one number.
#[inline(always)]
fn front(text: &[u8]) -> u64
    requires { 8 ≤ length text.now }
    ensures value { result ≡ from_le_bytes w64 (take 8 text.now) }
    ensures bytes { to_le_bytes w64 result ≡ take 8 text.now }
{
    u64::from_le_bytes([
        text[0], text[1], text[2], text[3], text[4], text[5], text[6], text[7],
    ])
}

// The two bytes behind them as one number.
#[inline(always)]
fn back(text: &[u8]) -> u16
    requires { 10 ≤ length text.now }
    ensures value { result ≡ from_le_bytes w16 (slice_range text.now 8 10) }
    ensures bytes { to_le_bytes w16 result ≡ slice_range text.now 8 10 }
{
    u16::from_le_bytes([text[8], text[9]])
}

// Whether a text is the same as a day.
#[inline(always)]
fn is_same_day(day: &[u8], text: &[u8]) -> bool
    requires { length day.now ≡ 10 }
    ensures { IsTrue result ↔ (day.now ≡ text.now) }
{
    if text.len() != 10 {
        return false;
    }
    front(day) == front(text) && back(day) == back(text)
}

/// The day of the moment that was read last.
#[derive(Clone, Copy)]
pub(crate) struct Day<'a> {
    // As `2024-05-01`, or empty before the first moment.
    text: &'a [u8],
    // The seconds from 1970 to its beginning.
    start: u64,
}

/// No moment was read.
pub(crate) fn no_day<'a>() -> Day<'a>
    ensures { IsDay result }
{
    Day {
        text: b"",
        start: 0,
    }
}

/// The same as `seconds_in`, quicker where the moment is of the day of the last one. It is the last one then.
#[inline(always)]
pub(crate) fn seconds_by<'a>(last: &mut Day<'a>, text: &'a [u8]) -> Option<u32>
    requires { IsDay last.old }
    ensures value { result ≡ seconds_in text.now }
    ensures last { IsDay last.new }
{
    if !has_marks(text) {
        return None;
    }
    let day = &text[..10];
    if !is_same_day(day, last.text) {
        let start = day_start(day)?;
        *last = Day { text: day, start };
    }
    on_day(last.start, text)
}

/// The seconds from 1970 to the moment that a text is, as `2024-05-01T12:34:56`, if there are less than 2^32.
pub fn seconds_in(text: &[u8]) -> Option<u32>
    ensures { result ≡ seconds_in text.now }
{
    let mut last = no_day();
    seconds_by(&mut last, text)
}
