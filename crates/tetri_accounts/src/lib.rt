//! The account of a run as plain values: a row for each launch and one for each job without a launch, and a note for each cycle.
#![tactic(auto)]

mod account;
mod columns;
mod idle;
mod ledger;
mod own;
mod row;
mod slot;
mod text;

pub use account::{Account, account_policy, account_report};
pub use columns::{arrival_of, job_name, node_name, outcome_word, top_at, wait_of, worth_of};
pub use ledger::Ledger;
pub use row::{CycleNote, Departure, Outcome, Row};
pub use text::json_lines;
