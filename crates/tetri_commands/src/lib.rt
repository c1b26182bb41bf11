//! What the commands beside `plan` and `check` write: cycles that are planned part by part, what cuts make of a cycle's bound, and answers
//! for the jobs of a trace's first slot.
#![tactic(auto)]

mod answer_lines;
mod answering;
mod by_parts;
mod cut_lines;
mod part_lines;
mod planning;
mod tightening;

pub use answering::admit_trace;
pub use by_parts::run_by_parts;
pub use tightening::tight_lines;
