//! The mathematics that the specifications of all crates share.
#![tactic(auto)]
