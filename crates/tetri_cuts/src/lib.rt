//! Chvátal-Gomory cuts (Chvátal, Edmonds polytopes and a hierarchy of combinatorial problems, 1973;
//! Gomory, Outline of an algorithm for integer solutions to linear programs, 1958) of integer programs,
//! and the tightening of a program's bound by them.
#![tactic(auto, using(crate::proofs::Signed::signed))]

mod breaking;
mod copies;
mod cuts;
mod fault;
mod fitting;
mod sums;
mod tightening;

pub use breaking::breaks;
pub use cuts::cut;
pub use fault::CutFault;
pub use tightening::{Added, Root, Tight, tighten};
