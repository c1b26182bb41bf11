//! What is claimed of one cycle's plan: definitions that the planner, the judge and the top call share, and what a certificate
//! says of every allotment.
#![tactic(auto)]

mod kinds;
mod laws;

pub use kinds::may_have_tree;
pub use laws::{
    bounds_are_of_proper_trees, certificates_bound, programs_earn_little, trees_have_one_answer,
};
