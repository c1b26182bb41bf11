//! Plans whose jobs start as soon as that costs nothing.
#![tactic(auto)]

mod board;
mod moving;
mod sooner;

pub use moving::moved_sooner;
pub use sooner::Sooner;
