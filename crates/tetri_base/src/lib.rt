//! What several crates share and std lacks: a list type, words on lists, an order of lists, steps that may fail.
#![tactic(auto)]

mod items;

pub use items::Items;
