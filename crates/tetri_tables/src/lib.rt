//! Tables of test cases: their texts, and what is found of them beside what is wanted.
#![tactic(auto)]

mod edits;
mod escapes;
mod fitness;
mod grants;
mod launches;
mod readings;
mod sections;
mod tallies;
mod texts;
mod trees;

pub use edits::{edited, replaced};
pub use escapes::{expand, expand_text};
pub use fitness::{are_of_columns, are_weights, is_fit};
pub use grants::{grants_in, grants_told, nodes_told};
pub use launches::{launch, plan_of};
pub use readings::answer;
pub use sections::{Given, sections_of};
pub use tallies::{Tally, halves};
pub use texts::{add_debug, debug_text, text_in, text_of};
pub use trees::{expr_told, tell_expr};
