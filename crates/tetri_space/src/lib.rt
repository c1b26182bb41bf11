//! The instance of one cycle: what is free, and what the pending jobs ask for.
#![tactic(auto)]

mod clashes;
mod closure;
mod closures;
mod finding;
mod free_nodes;
mod front;
mod instance;
mod laws;
mod leaves;
mod masks;
mod nodes;
mod ordering;
mod partitions;
mod parts;
mod rules;
mod runs;
mod spans;
mod totals;
mod trimming;
mod words;

pub use closure::Closure;
pub use closures::Closures;
pub use free_nodes::{free, free_throughout};
pub use instance::{Instance, Offer};
pub use laws::{
    ordered_grants_are_worth_as_much, tops_bound_every_lawful_total,
    trimmed_grants_are_worth_as_much,
};
pub use leaves::leaf_of;
pub use masks::{hold, holds_some, slots_of};
pub use ordering::{comes_first, order_grants};
pub use partitions::{available, find_partitions};
pub use parts::Partitions;
pub use rules::{Rule, Unlawful, lawful};
pub use runs::{ascends_by_job, run_len};
pub use totals::{tops, total};
pub use trimming::trim_all;
