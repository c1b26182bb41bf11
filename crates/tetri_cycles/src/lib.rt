//! The cycles of a run, one a slot: the trait of planners and the loop over the slots, and the trait of what looks on at a check.
#![tactic(auto)]

mod cycles;
mod observer;
mod planner;
mod slot;
mod tally;

pub use cycles::run_cycles;
pub use observer::{Observer, SeenSlot, Unobserved};
pub use planner::{Planner, Ready, SlotTally};
pub use tally::{RunTally, summary_at};
