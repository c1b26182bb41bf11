// Why a trace is not read.
use std::alloc::{AllocError, AllocFailed};
use tetri_parse::Fault;

/// A key of the header or of an event, or of what an event holds.
#[derive(Clone, Copy, Debug, PartialEq, Eq)]
pub enum Field {
    Nodes,
    Window,
    Budget,
    Until,
    Unit,
    Closures,
    At,
    Arrive,
    Cancel,
    Drain,
    Undrain,
    Fail,
    Late,
    Strl,
    Ask,
    K,
    Set,
    Dur,
    Value,
    Deadline,
    Prefer,
    PreferSet,
    PreferDur,
    Class,
    Elastic,
}

/// Why a line of a trace is faulty.
#[derive(Clone, Copy, Debug, PartialEq, Eq)]
pub enum TraceWhy {
    /// The line has more than 1,048,576 bytes.
    LineTooLong,
    /// The line or its line feed goes past the first 67,108,864 bytes.
    TraceTooLong,
    /// The line is not UTF-8, or no JSON value.
    NotJson,
    /// The value is no object.
    NotObject,
    /// The first object has no nodes, or there is no object.
    NoHeader,
    /// A required key is not there.
    MissingField(Field),
    /// A key holds no value that it may hold.
    BadField(Field),
    /// Not exactly one of the keys that name an event is there.
    UnknownEvent,
    /// The slot is below that of an earlier event.
    OutOfOrder,
    /// The slot is not below the number of cycles.
    PastEnd,
    /// Two nodes, or two jobs, have this name.
    NameTaken,
    /// No earlier line brings the job.
    NoSuchJob,
    /// No node has this name.
    NoSuchNode,
    /// The text of an expression, or of a set of an ask, has this fault behind so many bytes.
    BadStrl { offset: u64, fault: Fault },
    /// 100,000 jobs came before.
    TooManyJobs,
}

/// Why a trace is not read. Lines count from 1.
#[derive(Clone, Copy, Debug, PartialEq, Eq)]
pub enum TraceFault {
    Read,
    Bad { line: u64, why: TraceWhy },
    NoMemory,
}

/// Why a line is not taken.
#[derive(Clone, Copy, Debug, PartialEq, Eq)]
pub enum Stop {
    Because(TraceWhy),
    NoMemory,
}

impl From<AllocError> for Stop {
    ghost use Rattle.std.specs.Prelude.{◌≡◌};
    ghost use Rattle.tetri_notice.specs.declared.fault.Stop.TheVariants as stop;

    ghost from_gives = { λ _ e. e ≡ stop.NoMemory };

    fn from(_: AllocError) -> Self {
        Stop::NoMemory
    }
}

impl<T: Drop> From<AllocFailed<T>> for Stop {
    ghost use Rattle.std.specs.Prelude.{◌≡◌};
    ghost use Rattle.tetri_notice.specs.declared.fault.Stop.TheVariants as stop;

    ghost from_gives = { λ _ e. e ≡ stop.NoMemory };

    fn from(_: AllocFailed<T>) -> Self {
        Stop::NoMemory
    }
}
