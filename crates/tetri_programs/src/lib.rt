//! The integer program of a cycle of a run, as text with names for its columns and rows.
#![tactic(auto)]

mod cycle;
mod head;
mod instance;
mod names;
mod report;
mod text;
mod watching;

pub use cycle::export_cycle;
pub use instance::{Exported, export_instance};
pub use names::{Names, names_of};
pub use report::export_report;
pub use text::program_text;
pub use watching::Watching;
