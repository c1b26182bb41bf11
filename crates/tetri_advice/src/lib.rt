//! Advisors, who may be asked for allotments, and the panel that asks them and tests what they suggest.
#![tactic(auto)]

mod advisor;
mod creed;
mod laws;
mod panel;
mod seated;
mod testing;

pub use advisor::Advisor;
pub use creed::Creed;
pub use laws::greedy_lists_are_lawful;
pub use panel::{Advice, Panel, PanelOf, Seatless};
