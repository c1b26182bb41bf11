// Traces and reports that a call names.
use crate::said::{BAD_INPUT, READ_FAULT, unread};
use tetri_pipes::PipeShelf;

/// The shelf of the program: its files, pipes and standard input.
pub type Shelf<'a> = PipeShelf<'a, HostRuntime>;

// The bytes of a trace at most, as `tetri` reads it.
const TRACE_MOST: u64 = 67_108_864;

// The bytes at most of a report that is kept in memory.
const REPORT_MOST: u64 = 2_147_483_648;

/// Makes a trace ready to be read. Where it cannot be, that is said, and the error is the exit number.
pub fn open_trace(rt: &HostRuntime, shelf: &mut Shelf<'_>, name: &str) -> Result<(), u8> {
    match shelf.open(name, TRACE_MOST) {
        Ok(()) => Ok(()),
        Err(why) => Err(unread(rt, name, &why, BAD_INPUT)),
    }
}

/// Makes a report ready to be read, as `open_trace` a trace.
pub fn open_report(rt: &HostRuntime, shelf: &mut Shelf<'_>, name: &str) -> Result<(), u8> {
    match shelf.open(name, REPORT_MOST) {
        Ok(()) => Ok(()),
        Err(why) => Err(unread(rt, name, &why, READ_FAULT)),
    }
}

/// Makes a trace and a report of it ready to be read, as `open_trace` the trace.
pub fn open_both(
    rt: &HostRuntime,
    shelf: &mut Shelf<'_>,
    trace: &str,
    report: &str,
) -> Result<(), u8> {
    open_trace(rt, shelf, trace)?;
    open_report(rt, shelf, report)
}
