//! The judge of one cycle: whether its plan is good and its bound is certified.
#![tactic(auto)]

mod certificate;
mod judging;
mod laws;
mod places;
mod seen;
mod tree_walk;
mod unordered;
mod verdict;
mod wasted;

pub use judging::{judge, judge_seen};
pub use laws::plans_have_one_verdict;
pub use places::place_of;
pub use seen::Seen;
pub use tree_walk::TreeWalk;
pub use verdict::Verdict;
pub use wasted::first_wasted;
