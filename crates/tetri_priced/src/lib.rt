//! The bound that prices give each cycle of an accepted report, and the lines that tell it.
#![tactic(auto)]

mod by_search;
mod cycle;
mod lines;
mod lowest;
mod noting;
mod pricer;
mod telling;
mod top;
mod wanted;

pub use by_search::BySearch;
pub use cycle::{PricedCycle, Printed, price_cycle, priced_by};
pub use lowest::NodePrice;
pub use noting::Noting;
pub use pricer::{Pricer, Quote, Unpriced};
pub use telling::priced_text;
pub use top::price_report;
pub use wanted::Wanted;
