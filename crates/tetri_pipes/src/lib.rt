//! Names that cannot be sought, as pipes and standard input, read whole into memory.
#![tactic(auto)]

mod pipe_shelf;
mod whole;

pub use pipe_shelf::PipeShelf;
pub use whole::{Unread, read_whole};
