// The seconds of a limit.
ghost use Rattle.std.specs.Prelude.{◌≡◌, ◌<◌, ◌==◌, ◌^◌, IfSome, length, position};
ghost use Rattle.tetri_logs.specs.Limits.{clock_from, clock_in, clock_seconds, has_clock_marks, is_unlimited, limit_in, minutes_in, seconds_from};

use crate::entry::Cause;
use crate::times::part;
use crate::words::is_text;
use tetri_io::digits_below;

// Whether the marks of `01:30:00` stand where they belong.
fn has_clock_marks(text: &[u8]) -> bool
    ensures { result ≡ has_clock_marks text.now }
{
    text.len() == 8 && text[2] == b':' && text[5] == b':'
}

// The seconds of so many days and a time of a day, if it is one.
fn seconds_from(days: u64, hours: u64, minutes: u64, seconds: u64) -> Option<u64>
    requires { days < 49000 }
    ensures value { result ≡ seconds_from days hours minutes seconds }
    ensures small { IfSome result (λ n. n < 2 ^ 32) }
{
    if hours < 24 && minutes < 60 && seconds < 60 {
        Some(((days * 24 + hours) * 60 + minutes) * 60 + seconds)
    } else {
        None
    }
}

#[tactic(auto, unfolding(crate::specs::Limits::clock_seconds))]
fn clock_seconds(days: u64, text: &[u8]) -> Option<u64>
    requires few { days < 49000 }
    requires length { length text.now ≡ 8 }
    ensures value { result ≡ clock_seconds days text.now }
    ensures small { IfSome result (λ n. n < 2 ^ 32) }
{
    let hours = part(text, 0, 2)?;
    let minutes = part(text, 3, 5)?;
    let seconds = part(text, 6, 8)?;
    seconds_from(days, hours, minutes, seconds)
}

fn clock_from(days: u64, text: &[u8]) -> Option<u64>
    requires { days < 49000 }
    ensures value { result ≡ clock_from days text.now }
    ensures small { IfSome result (λ n. n < 2 ^ 32) }
{
    if has_clock_marks(text) {
        clock_seconds(days, text)
    } else {
        None
    }
}

// Where the days end, if there are some.
fn dash_in(text: &[u8]) -> Option<usize>
    ensures value { result ≡ position (λ b. b == 45) text.now }
    ensures within { IfSome result (λ i. i < length text.now) }
{
    text.iter().position(|b| *b == b'-')
}

// The seconds of a time as `01:30:00`, or as `2-01:30:00` with days before it.
fn clock_in(text: &[u8]) -> Option<u64>
    ensures value { result ≡ clock_in text.now }
    ensures small { IfSome result (λ n. n < 2 ^ 32) }
{
    match dash_in(text) {
        Some(i) => {
            let days = digits_below(49_000, &text[..i])?;
            clock_from(days, &text[i + 1..])
        }
        None => clock_from(0, text),
    }
}

// The seconds of so many minutes.
#[inline(always)]
fn minutes_in(text: &[u8]) -> Option<u64>
    ensures value { result ≡ minutes_in text.now }
    ensures small { IfSome result (λ n. n < 2 ^ 32) }
{
    match digits_below(67_108_864, text) {
        Some(minutes) => Some(minutes * 60),
        None => None,
    }
}

// Whether there is no limit that is known.
#[inline(always)]
fn is_unlimited(text: &[u8]) -> bool
    ensures { result ≡ is_unlimited text.now }
{
    is_text(text, "UNLIMITED") || is_text(text, "Partition_Limit") || text.is_empty()
}

/// The seconds of a limit in a column, where it is known.
#[inline(always)]
pub(crate) fn limit_in(in_minutes: bool, column: usize, text: &[u8]) -> Result<Option<u32>, Cause>
    ensures { result ≡ limit_in in_minutes column text.now }
{
    if is_unlimited(text) {
        return Ok(None);
    }
    let seconds = if in_minutes {
        minutes_in(text)
    } else {
        clock_in(text)
    };
    match seconds {
        Some(seconds) => Ok(Some(seconds as u32)),
        None => Err(Cause::Unreadable(column)),
    }
}
