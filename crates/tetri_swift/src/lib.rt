//! Branch and bound over integer programs by an engine that nothing is trusted of: each mark that
//! it proposes is tested by weighing, so that any engine gives a proper tree.
#![tactic(auto, using(crate::proofs::Signed::signed))]

mod anew;
mod columns;
mod dictionary;
mod engine;
mod goal;
mod lines;
mod losses;
mod nodes;
mod numbers;
mod proposing;
mod repair;
mod searching;
mod single;
mod swift;
mod tests;

pub use engine::{Anew, Engine, Proposal};
pub use searching::{search_by, swift_search};
pub use swift::Swift;
