//! Exact fractions whose numerators and denominators are whole numbers from
//! -(2^127 - 1) to 2^127 - 1, and the greatest common divisor and the least
//! common multiple of such numbers. Nothing here takes memory: an operation
//! that would form a number outside the range answers [`Past`].
#![tactic(auto, using(crate::proofs::Signed::signed))]

mod divisors;
mod fractions;
mod laws;
mod places;
mod range;

pub use divisors::{gcd, lcm};
pub use fractions::{Frac, Op, Past};
pub use laws::{
    difference_with_zero, product_with_one, product_with_zero, quotient_by_one, quotient_of_zero,
    same_value, sum_with_zero, value_has_parts, values_are_representable,
};
pub use places::{Kind, Place};
