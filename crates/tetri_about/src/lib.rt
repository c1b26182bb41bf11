//! What the programs say of themselves: their version, and the help of `tetri`.
#![tactic(auto)]

mod itself;
mod texts;

pub use itself::{Itself, asked_of_itself};
pub use texts::{HELP, VERSION};
