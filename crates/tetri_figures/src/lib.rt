//! Accounts of runs as text: rows of jobs, figures of a run, and figures of several runs beside one another, as tables, as
//! comma-separated values and as lines of JSON.
#![tactic(auto)]

mod bounds;
mod cells;
mod clock;
mod columns;
mod compare;
mod figures;
mod format;
mod groups;
mod header;
mod jobs;
mod stats;
mod sums;
mod tags;
mod wide;

pub use bounds::{Bounds, PricedSums};
pub use clock::slot_seconds_of;
pub use compare::{Compared, compare_text};
pub use format::Format;
pub use jobs::jobs_text;
pub use stats::{By, stats_text};
pub use tags::tags_of;
