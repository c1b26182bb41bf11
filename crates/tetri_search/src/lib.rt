//! Branch and bound over integer programs: a tree of marks in preorder, each by the dual simplex
//! method over its region, up to a budget of nodes.
#![tactic(auto, using(crate::proofs::Signed::signed))]

mod branches;
mod duals;
mod laws;
mod marks;
mod searching;

pub use laws::{
    earned_by_place, earned_trees_are_one, earned_trees_are_proper, enough_leaves_no_rest,
    rests_spend_the_budget, whole_points_rise,
};
pub use searching::{Found, search};
