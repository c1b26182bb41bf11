// Reservations, as `scontrol show reservation --oneliner` prints them.
use crate::asked::Asked;
use crate::cause::ReservationFate;
use crate::span::{is_nothing, is_text, slots_of};
use std::alloc::{AllocError, Global};
use tetri_io::parts_at;
use tetri_logs::seconds_in;

/// Hosts that are reserved from one slot to another.
#[derive(Clone, Copy)]
pub(crate) struct Reserved<'a> {
    pub(crate) hosts: &'a [u8],
    pub(crate) from: u32,
    pub(crate) to: u32,
}

// The last slot in which a trace may close a node.
const LAST: u32 = 30_000;

// What stands behind a key in the word that begins with it.
fn value_of<'a>(words: &[&'a [u8]], key: &str) -> Option<&'a [u8]> {
    for word in words {
        if key.len() <= word.len() && word.starts_with(key.as_bytes()) {
            return Some(&word[key.len()..]);
        }
    }
    None
}

// The slots between two seconds.
fn slots_between(asked: &Asked, now: u32, start: u32, end: u32) -> (u32, u32) {
    let from = start.saturating_sub(now) / asked.slot.max(1);
    let slots = slots_of(u64::from(end.saturating_sub(now)), asked.slot);
    (from, slots.saturating_sub(1).max(from))
}

/// What a line tells of a reservation, or what becomes of it.
pub(crate) fn reserved_of<'a>(
    alloc: Global,
    line: &'a [u8],
    asked: &Asked,
) -> Result<Result<Reserved<'a>, ReservationFate>, AllocError> {
    if line.is_empty() || is_text(line, "No reservations in the system") {
        return Ok(Err(ReservationFate::Blank));
    }
    let words = parts_at(alloc, b' ', line)?;
    let (Some(start), Some(end), Some(hosts)) = (
        value_of(&words, "StartTime="),
        value_of(&words, "EndTime="),
        value_of(&words, "Nodes="),
    ) else {
        return Ok(Err(ReservationFate::Unread));
    };
    let (Some(start), Some(end)) = (seconds_in(start), seconds_in(end)) else {
        return Ok(Err(ReservationFate::Unread));
    };
    let now = asked.now.unwrap_or(0);
    if is_nothing(hosts) || end <= now {
        return Ok(Err(ReservationFate::Idle));
    }
    let (from, to) = slots_between(asked, now, start, end);
    if LAST < to {
        return Ok(Err(ReservationFate::Idle));
    }
    Ok(Ok(Reserved { hosts, from, to }))
}
