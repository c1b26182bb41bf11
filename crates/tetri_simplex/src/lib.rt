//! The dual simplex method over bounded variables and exact fractions, with Bland's rule.
#![tactic(auto, using(crate::proofs::Signed::signed))]

mod ends;
mod first_places;
mod laws;
mod outcome;
mod point;
mod run;
mod weights;

pub use laws::{ends_certify, relaxed_points};
pub use outcome::Outcome;
pub use run::{dual_run, dual_run_over, run_on};
pub use tetri_dictionary::{Candidate, Dictionary, Full, Mirrored, PivotFault, Sparse, Whole};
