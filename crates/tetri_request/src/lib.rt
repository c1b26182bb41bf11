//! Asks: jobs whose requests the scheduler makes itself, anew in each cycle.
#![tactic(auto)]

mod ask;
mod choices;
mod expiry;
mod laws;
mod offering;

pub use ask::{Ask, Class, Prefer};
pub use expiry::expired;
pub use laws::{
    expired_asks_earn_nothing, numbers_name_leaves, thrift_keeps_over_cycles,
    unexpired_asks_have_offers,
};
pub use offering::options;
