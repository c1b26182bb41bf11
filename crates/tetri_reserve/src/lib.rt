//! Reservations: which jobs of an instance can all be served together, with a proof of each answer.
#![tactic(auto)]

mod admitting;
mod answer;
mod book;
mod depths;
mod laws;

pub use admitting::admit;
pub use answer::{Answer, AnswerKind};
pub use book::Book;
pub use laws::{answers_are_true, totals_count_wanted_jobs};
