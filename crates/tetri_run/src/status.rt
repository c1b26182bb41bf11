// How a call of the program ended.
use crate::why::Why;
use tetri_trace::TraceWhy;

/// How a call ended. `Done` where all was done and the input was read to its end, `Refused` exactly
/// where a report is not
/// accepted, at the line and for the test that fails first, `Usage` exactly where the words are no
/// form, `ReadFault` and
/// `WriteFault` only where a fault was counted, and `BadTrace` exactly where the trace is refused,
/// at that line. Only want of
/// memory may come at any time.
#[derive(Clone, Copy, Debug, PartialEq, Eq)]
pub enum Status {
    Done,
    Refused { line: u64, why: Why },
    Usage,
    ReadFault,
    WriteFault,
    BadTrace { line: u64, why: TraceWhy },
    NoMemory,
}
