//! From the counts of a point to nodes: every point of the program of an instance has a lawful
//! allotment that grants exactly its counts and is worth no less.
#![tactic(auto)]

mod assigning;
mod backs;
mod gathering;
mod held;
mod wants;

pub use assigning::assign;
