//! An accounting log, line by line and whole: a line as a job, a comment, or the cause why it is left out, in the Standard Workload
//! Format or as `sacct` prints it with `--parsable2`; and the place of each job in a trace: its slots, its nodes and its ask.
#![tactic(auto)]

mod account;
mod ahead;
mod calendar;
mod comments;
mod early;
mod entry;
mod header;
mod job_name;
mod layout;
mod limits;
mod lines;
mod options;
mod origin;
mod placing;
mod reading;
mod sacct;
mod scale;
mod scan;
mod seats;
mod set_text;
mod swf;
mod tasks;
mod times;
mod walk;
mod words;

pub use account::Account;
pub use ahead::Ahead;
pub use comments::Fact;
pub use early::{Early, early_jobs};
pub use entry::{Cause, Entries, Entry, Format, LoggedJob, Reject, read_entries};
pub use header::Header;
pub use job_name::JobName;
pub use layout::{Layout, first_layout};
pub use lines::{log_lines, next_line};
pub use options::{OptionFault, Options, Settings, Worth, early_fault, settings_of};
pub use origin::{begun, begun_with, gap_of, is_in_run, may_begin};
pub use placing::{Placing, has_place, is_outside, place};
pub use reading::{Facts, Log, read_log, with_fact};
pub use scale::moment_of;
pub use set_text::SetText;
pub use times::seconds_in;
pub use walk::Walk;
