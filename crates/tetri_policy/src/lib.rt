//! Policies that decide without a search which waiting jobs start: first come first served, and backfill with one reservation.
#![tactic(auto)]

mod deciding;
mod laws;
mod observing;
mod policy;
mod starting;

pub use deciding::policy_grants;
pub use laws::policies_are_lawful;
pub use observing::observe_policy;
pub use policy::Policy;
