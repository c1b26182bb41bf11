//! The jobs of an accounting log as a trace: what each asks for, when it arrives and is cancelled, and what is left out, by cause.
#![tactic(auto)]

mod confirming;
mod head;
mod importing;
mod intake;
mod kinds;
mod listed;
mod marks;
mod notes;
mod ordering;
mod partitions;
mod reading;
mod shelf;
mod taking;
mod telling;
mod text;
mod waiting;

pub use importing::{ImportFault, Imported, import};
pub use partitions::add_partition;
pub use telling::{counts_text, fault_text, reason_text, rejects_text};
