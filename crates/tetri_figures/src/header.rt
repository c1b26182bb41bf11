// The header of a trace, of which the trace itself keeps neither tags nor the clock.
use serde_json::Value;
use std::alloc::{AllocError, Global};
use tetri_io::{Line, LineFault, Shelf, read_line_at};
use tetri_notice::{Stop, object_in};

// No line of a trace is longer.
const LINE_MOST: usize = 1_048_576;

// No trace is longer.
const TRACE_MOST: u64 = 67_108_864;

// Whether a line is blank.
fn is_blank(line: &[u8]) -> bool {
    line.iter()
        .all(|b| *b == b' ' || *b == b'\t' || *b == b'\r')
}

// The header's line, or nothing where no line is read.
fn header_line<S: Shelf>(
    alloc: Global,
    shelf: &mut S,
    trace: &str,
) -> Result<Option<Vec<u8>>, AllocError> {
    let mut at = 0;
    for _ in 0..TRACE_MOST {
        if at >= TRACE_MOST {
            return Ok(None);
        }
        match read_line_at(alloc, shelf, trace, at, LINE_MOST) {
            Ok(Line::Text { bytes, next }) => {
                if !is_blank(&bytes) {
                    return Ok(Some(bytes));
                }
                at = next;
            }
            Ok(Line::End) => return Ok(None),
            Err(LineFault::NoMemory) => return Err(AllocError),
            Err(LineFault::Failed | LineFault::TooLong) => return Ok(None),
        }
    }
    Ok(None)
}

/// The header of a trace that a name holds and that was read before, or nothing where it cannot be read again. Its only error is want of
/// memory.
pub(crate) fn header_object<S: Shelf>(
    alloc: Global,
    shelf: &mut S,
    trace: &str,
) -> Result<Option<Value>, AllocError> {
    let Some(line) = header_line(alloc, shelf, trace)? else {
        return Ok(None);
    };
    match object_in(alloc, &line) {
        Ok(object) => Ok(Some(object)),
        Err(Stop::NoMemory) => Err(AllocError),
        Err(Stop::Because(_)) => Ok(None),
    }
}
