// Logs whose lines stand in another order.
use std::alloc::{AllocError, Global};
use tetri_tables::{Given, expand_text};

// The lines of a text, each ended: line `first`, counted from 0, then the line `step` further, and so on, where the first follows the last.
fn in_steps(alloc: Global, text: &str, first: usize, step: usize) -> Result<Vec<u8>, AllocError> {
    let mut lines = Vec::new(alloc);
    for line in text.lines() {
        lines.push(line)?;
    }
    let mut log = Vec::new(alloc);
    let mut place = first;
    for _ in 0..lines.len() {
        if let Some(line) = lines.get(place) {
            log.extend_from_slice(line.as_bytes())?;
            log.push(b'\n')?;
        }
        place = place.saturating_add(step);
        if lines.len() <= place {
            place = place.saturating_sub(lines.len());
        }
    }
    Ok(log)
}

/// Takes a log whose lines, with escapes, stand in an order as `64000 1`: line 64000 first, and each other line 1 further than the one before it.
pub fn take_in_order(
    alloc: Global,
    given: &mut Given,
    order: &str,
    body: &str,
) -> Result<(), AllocError> {
    let text = expand_text(alloc, body)?;
    let (first, step) = order.split_once(' ').unwrap_or((order, "1"));
    let first = first.parse::<usize>().unwrap_or(0);
    let step = step.parse::<usize>().unwrap_or(1);
    given.log = in_steps(alloc, text.as_str(), first, step)?;
    Ok(())
}
