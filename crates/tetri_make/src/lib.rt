//! Makes a trace from a number, as a first benchmark.
#![tactic(auto)]

mod drawing;
mod jobs;
mod making;
mod nodes;

pub use making::make;
