// What a picture takes of the header of a trace that the trace itself does not keep.
use serde_json::Value;
use std::alloc::Global;
use tetri_io::{Line, Shelf, read_line_at};
use tetri_notice::object_in;
use tetri_svg::Clock;

// No line of a trace is longer.
const LINE_MOST: usize = 1_048_576;

// No trace is longer.
const TRACE_MOST: u64 = 67_108_864;

// Whether a line is blank.
fn is_blank(line: &[u8]) -> bool {
    line.iter()
        .all(|b| *b == b' ' || *b == b'\t' || *b == b'\r')
}

// The header's line, or nothing where no line is read.
fn header_line<S: Shelf>(alloc: Global, shelf: &mut S, trace: &str) -> Option<Vec<u8>> {
    let mut at = 0;
    for _ in 0..TRACE_MOST {
        if at >= TRACE_MOST {
            return None;
        }
        match read_line_at(alloc, shelf, trace, at, LINE_MOST) {
            Ok(Line::Text { bytes, next }) => {
                if !is_blank(&bytes) {
                    return Some(bytes);
                }
                at = next;
            }
            Ok(Line::End) => return None,
            Err(_) => return None,
        }
    }
    None
}

/// When the slots of a trace are that a name holds, where its header says so by `epoch` and `slot_seconds`.
pub fn clock_of<S: Shelf>(alloc: Global, shelf: &mut S, trace: &str) -> Option<Clock> {
    let line = header_line(alloc, shelf, trace)?;
    let Ok(header) = object_in(alloc, &line) else {
        return None;
    };
    let epoch = header.get("epoch").and_then(Value::as_u64)?;
    let slot_seconds = header.get("slot_seconds").and_then(Value::as_u64)?;
    Some(Clock {
        epoch,
        slot_seconds,
    })
}
