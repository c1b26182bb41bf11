//! Integer programs over bounded columns, their points and regions, and the
//! weighed number, which bounds the objective of every point of a region by
//! weak duality.
#![tactic(auto, using(crate::proofs::Signed::signed))]

mod by_row;
mod columns;
mod laws;
mod points;
mod programs;
mod range;
mod weighing;

pub use by_row::weigh_over;
pub use columns::coefficient_of;
pub use laws::weighed_bounds_points;
pub use points::{first_unmet, holds_point, left_side};
pub use programs::{Program, Region, Row, Term, WeighFault, Weight};
pub use range::{add_product, product};
pub use weighing::{right_sum, weigh};
