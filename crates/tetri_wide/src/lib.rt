//! The integer program of an instance, of any width.
#![tactic(auto)]

mod flattening;
mod outline;
mod program;
mod supply;
mod terms;
mod usable;
mod walking;

pub use program::program_of;
