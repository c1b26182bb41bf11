//! Plans with a cost of delay.
#![tactic(auto)]

mod certified;
mod charge;
mod charging;
mod delayed;
mod density;
mod factors;
mod peak;
mod rest;
mod words;

pub use charge::{Charge, Density, charged_expr};
pub use charging::{Jobs, Rates, charged_instance};
pub use delayed::{Delay, DelaySettings, Delayed};
pub use density::density_of;
pub use words::density_in;
