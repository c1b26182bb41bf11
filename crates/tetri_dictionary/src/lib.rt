//! Dictionaries of the dual simplex method: the trait [`Dictionary`], and four of them, by fractions
//! and by whole numbers.
#![tactic(auto, using(crate::proofs::Signed::signed))]

mod choices;
mod dictionary;
mod fault;
mod first_rows;
mod fractions;
mod full;
mod holders;
mod lines;
mod merging;
mod mirrored;
mod mixed;
mod origins;
mod pairs;
mod pairs_entering;
mod pairs_numbers;
mod pairs_out;
mod pairs_pivot;
mod pairs_start;
mod rows;
mod short_ways;
mod sparse;
mod start;
mod start_lines;
mod whole;
mod whole_choices;
mod whole_start;

pub use choices::Candidate;
pub use dictionary::Dictionary;
pub use fault::PivotFault;
pub use fractions::negated;
pub use full::Full;
pub use mirrored::Mirrored;
pub use sparse::Sparse;
pub use whole::Whole;
