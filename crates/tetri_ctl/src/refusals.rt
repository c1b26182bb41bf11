// How a call on a trace ended, and what is told of a trace that is refused.
use crate::named::Shelf;
use crate::said::{end, read_fault, shown};
use std::alloc::{AllocError, Global};
use tetri_lint::{Refusal, add_refusal, explain};
use tetri_run::Status;

fn text_of(alloc: Global, name: &str, refusal: &Refusal) -> Result<String, AllocError> {
    let mut text = String::new(alloc);
    add_refusal(&mut text, shown(name), refusal)?;
    Ok(text)
}

// Tells why a trace is refused, as far as memory lasts.
fn tell(rt: &HostRuntime, shelf: &mut Shelf<'_>, status: &Status, trace: &str) {
    let Status::BadTrace { line, why } = status else {
        return;
    };
    if let Ok(refusal) = explain(rt.alloc(), shelf, trace, *line, *why)
        && let Ok(text) = text_of(rt.alloc(), trace, &refusal)
    {
        let _told = rt.eprint(text.as_str());
    }
}

/// Says how a call on a trace and a report ended, which name was not read, and why a trace is refused, and gives the exit number.
pub fn end_of(
    rt: &HostRuntime,
    shelf: &mut Shelf<'_>,
    status: &Status,
    trace: &str,
    report: &str,
) -> u8 {
    if *status == Status::ReadFault
        && let Some(name) = shelf.failed()
    {
        return read_fault(rt, name);
    }
    let number = end(rt, status, trace, report);
    tell(rt, shelf, status, trace);
    number
}
