//! Integer programs as text that other solvers read: LP format and free MPS.
#![tactic(auto)]

mod entries;
mod format;
mod lines;
mod lp;
mod mps;
mod plain;

pub use format::{Format, add_program};
pub use lp::add_lp;
pub use mps::add_mps;
