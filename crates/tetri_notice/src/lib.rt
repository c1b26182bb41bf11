//! The object of a trace's line, read as a header or as a notice.
#![tactic(auto)]

mod asks;
mod closures;
mod event;
mod fault;
mod field;
mod header;
mod tokens;
mod words;
mod written;

pub use asks::{AskText, PreferText};
pub use closures::ClosureText;
pub use event::{Notice, WorkText, event_in};
pub use fault::{Field, Stop, TraceFault, TraceWhy};
pub use field::{object_in, read_name};
pub use header::{Header, HeaderText, header_in};
pub use written::written_event;
