//! Prices of nodes by partition and slot, and the bound that they give: Lagrangian relaxation of the
//! supply.
#![tactic(auto)]

mod bound;
mod capacities;
mod filling;
mod laws;
mod leaves;
mod prices;
mod values;
mod walking;

pub use bound::priced_bound;
pub use capacities::{Capacities, capacities_of};
pub use laws::{prices_bound_every_lawful_total, zero_prices_bound_within_tops};
pub use prices::{Prices, are_prices};
