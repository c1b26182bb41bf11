//! The text of expressions and of sets of nodes: read to its first fault, and printed.
#![tactic(auto)]

mod fault;
mod laws;
mod naming;
mod nodes;
mod number;
mod peak;
mod print;
mod printing;
mod read;
mod reader;
mod reading;
mod set_text;
mod settling;
mod syntax;
mod token;

pub use fault::{Fault, ParseFault};
pub use laws::{faults_ascend, grammar_fault_stays, reading_meets_the_first_fault};
pub use print::print_expr;
pub use read::{read_expr, read_set};
pub use reader::ClusterReader;
