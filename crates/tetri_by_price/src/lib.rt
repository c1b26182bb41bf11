//! Plans by prices: what a panel of advisors gives, and a plan that prices lead to.
#![tactic(auto)]

mod by_price;

pub use by_price::{ByPrice, add_priced};
