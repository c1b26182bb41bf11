//! Plans by a swift search: what a panel of advisors gives, branch and bound by an engine whose marks are tested, and a plan that prices
//! lead to.
#![tactic(auto)]

mod by_swift;
mod planning;
mod turns;

pub use by_swift::BySwift;
pub use planning::choose_by;
