//! Reads a trace: one JSON object a line, the header first and then the events.
#![tactic(auto)]

mod asked;
mod closures;
mod draft;
mod find;
mod happen;
mod header;
mod jobs;
mod lines;
mod read;
mod trace;

pub use find::job_of;
pub use jobs::Jobs;
pub use read::read_trace;
pub use tetri_notice::{Field, Header, TraceFault, TraceWhy};
pub use trace::{Event, Happening, Job, Trace, Work};
