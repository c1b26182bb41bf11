//! Two greedy advisors, which serve the jobs of an instance in turn, and the fit of one expression beside what is held.
#![tactic(auto)]

mod advisors;
mod fits;
mod fitted;
mod held;
mod order;
mod serving;

pub use advisors::{ByDeadline, ByWorth};
pub use fits::fit;
pub use fitted::Placements;
pub use held::HeldSlots;
