//! The queue of a resource manager as the trace of one cycle, and the launches of a report as its commands.
#![tactic(auto)]

mod arrays;
mod asked;
mod cause;
mod confirming;
mod constraint;
mod gathering;
mod line;
mod ordering;
mod queueing;
mod reserved;
mod shelf;
mod span;
mod telling;
mod text;

pub use asked::{Asked, AskedFault, QueueWorth};
pub use cause::{Cause, Fate, ReservationFate};
pub use gathering::{Cycle, TakenJob};
pub use ordering::{Launch, Launches, OrderFault, OrderForm, orders_text};
pub use queueing::{Queue, QueueFault, QueueTexts, queue_trace};
pub use telling::{counts_text, fate_word, fault_text};
