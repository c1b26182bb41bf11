// Times as the manager prints them, and seconds as slots.
ghost use Rattle.std.specs.Prelude.{◌<◌, ◌≤◌};

use std::alloc::{AllocError, Global};
use tetri_io::{digits_below, halves_at, parts_at};

const LIMIT: u64 = 4_294_967_296;

// The slots that a job or a closure lasts at most.
const MOST_SLOTS: u64 = 10_000;

/// Whether a column says this.
pub(crate) fn is_text(column: &[u8], text: &str) -> bool {
    column == text.as_bytes()
}

/// Whether a column says nothing.
pub(crate) fn is_nothing(column: &[u8]) -> bool {
    column.is_empty() || is_text(column, "(null)") || is_text(column, "N/A")
}

// The seconds of `h:mm:ss` or `m:ss`.
fn clock_in(alloc: Global, text: &[u8]) -> Result<Option<u64>, AllocError> {
    let parts = parts_at(alloc, b':', text)?;
    if parts.len() < 2 || 3 < parts.len() {
        return Ok(None);
    }
    let hours = if parts.len() == 3 {
        digits_below(1_000_000, parts[0])
    } else {
        Some(0)
    };
    let minutes = digits_below(1_000_000, parts[parts.len() - 2]);
    let seconds = digits_below(1_000_000, parts[parts.len() - 1]);
    match (hours, minutes, seconds) {
        (Some(hours), Some(minutes), Some(seconds)) => { Ok(Some(sum_of(hours, minutes, seconds))) }
        _ => Ok(None),
    }
}

fn sum_of(hours: u64, minutes: u64, seconds: u64) -> u64
    requires hours { hours < 1000000 }
    requires minutes { minutes < 1000000 }
    requires seconds { seconds < 1000000 }
    ensures { result < 5000000000 }
{
    hours * 3600 + minutes * 60 + seconds
}

// The same behind a number of days, as `d-hh:mm:ss`.
fn days_in(alloc: Global, days: &[u8], clock: &[u8]) -> Result<Option<u64>, AllocError> {
    match (digits_below(1_000_000, days), clock_in(alloc, clock)?) {
        (Some(days), Some(seconds)) => Ok(Some((days * 86_400).saturating_add(seconds))),
        _ => Ok(None),
    }
}

/// The seconds that a time is: 0 where it is past, and as many as can be where it has no end. Its only error is want of memory.
pub(crate) fn seconds_of(alloc: Global, text: &[u8]) -> Result<Option<u64>, AllocError> {
    if is_text(text, "UNLIMITED") || is_text(text, "NOT_SET") || is_text(text, "Partition_Limit") {
        return Ok(Some(LIMIT));
    }
    if is_text(text, "INVALID") || text.first() == Some(&b'-') {
        return Ok(Some(0));
    }
    match halves_at(b'-', text) {
        Some((days, clock)) => days_in(alloc, days, clock),
        None => clock_in(alloc, text),
    }
}

/// In how many slots so many seconds fit, 1 at least and 10,000 at most.
pub(crate) fn slots_of(seconds: u64, slot: u32) -> u32
    ensures some { 1 ≤ result }
    ensures few { result ≤ 10000 }
{
    let slot = u64::from(slot.max(1));
    let whole = seconds / slot;
    let slots = if seconds % slot == 0 {
        whole
    } else {
        whole.saturating_add(1)
    };
    slots.clamp(1, MOST_SLOTS) as u32
}
