//! What is to be said of a trace: why it is refused, in words that a person can act on, and else what is suspicious in it, each with its
//! line, its column and the known names that are nearest.
#![tactic(auto)]

mod around;
mod explaining;
mod expressions;
mod fault;
mod fields;
mod finding;
mod header_notes;
mod jobs;
mod keys;
mod linting;
mod near;
mod print;
mod rules;
mod scan;
mod shown;
mod told;
mod whole;
mod words;

pub use fault::LintFault;
pub use finding::{Finding, Kind, Level, Linted, Refusal, level_of};
pub use linting::{explain, lint};
pub use print::{add_finding, add_refusal};
pub use rules::{durs_past_deadline, is_more_than_set, rounds_to_zero};
pub use shown::Excerpt;
pub use told::Told;
