//! Prices that bound well, and a plan that they lead to: subgradient ascent over the Lagrangian
//! relaxation of the supply, greedy plans under prices, and ruin and recreate.
#![tactic(auto)]

mod ascent;
mod counting;
mod greedy;
mod laying;
mod lists;
mod market;
mod places;
mod placing;
mod plans;
mod pricing;
mod random;
mod repairing;
mod searching;
mod spans;
mod turns;

pub use searching::{Found, MOST_PAIRS, UNIT, search};
