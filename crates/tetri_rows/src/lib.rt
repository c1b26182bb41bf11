//! Rows of a dictionary as whole numbers over one denominator, under a pivot. All numbers of a row
//! are below 2^31 in size, so that no number that a pivot forms leaves a word.
#![tactic(auto, using(crate::proofs::Signed::signed))]

mod laws;
mod rows;
mod scaling;
mod terms;
mod whole;

pub use laws::{small_entries, small_quotients};
pub use rows::{at, fractions, is_lesser_ratio, minus_ratio, negate, short, solve_for};
pub use terms::{Terms, put_in};
pub use whole::{common_denominator, numbers_over};
