//! Independent parts of an instance: groups of jobs that can share no node, so that each can be planned by itself.
#![tactic(auto)]

mod grouping;
mod joining;
mod labels;
mod laws;
mod parts;
mod restricting;
mod splitting;

pub use joining::join;
pub use laws::{bounds_of_parts_add, totals_of_parts_add};
pub use parts::Parts;
pub use splitting::split;
