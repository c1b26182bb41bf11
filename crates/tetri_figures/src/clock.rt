// How long a slot is.
ghost use Rattle.std.specs.Prelude.{◌≡◌, ◌*◌, ◌-◌, ◌<◌, ◌≤◌, ℕ, Some, None};

use crate::header::header_object;
use serde_json::Value;
use std::alloc::{AllocError, Global};
use tetri_io::Shelf;

// The seconds of ten minutes.
const TEN_MINUTES: u64 = 600;

/// How many slots of so many seconds ten minutes take, one at least; one where it is not known how long a slot is.
pub(crate) fn ten_minutes(slot_seconds: Option<u64>) -> u32
    ensures enough { (seconds : ℕ) → slot_seconds ≡ Some seconds → 0 < seconds → 600 ≤ result * seconds }
    ensures least { (seconds : ℕ) → slot_seconds ≡ Some seconds → 0 < seconds → (result - 1) * seconds < 600 }
    ensures unknown { slot_seconds ≡ None → result ≡ 1 }
{
    match slot_seconds {
        Some(0) | None => 1,
        Some(seconds) => TEN_MINUTES.div_ceil(seconds) as u32,
    }
}

/// How many seconds a slot has of a trace that a name holds and that was read before, where its header has a clock, `epoch` and
/// `slot_seconds`. None where it cannot be read again. Its only error is want of memory.
pub fn slot_seconds_of<S: Shelf>(
    alloc: Global,
    shelf: &mut S,
    trace: &str,
) -> Result<Option<u64>, AllocError> {
    let Some(header) = header_object(alloc, shelf, trace)? else {
        return Ok(None);
    };
    let epoch = header.get("epoch").and_then(Value::as_u64);
    let seconds = header.get("slot_seconds").and_then(Value::as_u64);
    Ok(if epoch.is_some() { seconds } else { None })
}
