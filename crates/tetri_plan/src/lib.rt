//! The plan of one cycle: the best of what is carried over, what a panel of advisors gives, and
//! what a search by branch and bound finds, with the certificate of its bound.
#![tactic(auto)]

mod chooser;
mod cycle;
mod laws;
mod planning;

pub use chooser::Chooser;
pub use cycle::plan_cycle;
pub use laws::chosen_plans_are_one;
pub use planning::{Plan, choose};
