//! Certificates of a plan's bound: the sum of the tops, or a tree of marks in preorder whose bound holds for every point of an
//! integer program; their text, and the mark of a plan.
#![tactic(auto, using(crate::proofs::Signed::signed))]

mod cells;
mod certificate;
mod faults;
mod laws;
mod lists;
mod marks;
mod nodes;
mod plan_mark;
mod points;
mod text;
mod text_words;
mod turns;
mod walk;
mod words;

pub use cells::{cells_of, frac_cells_of};
pub use certificate::{Certificate, print, print_onto};
pub use faults::{TreeFault, TreeWhy};
pub use laws::{
    faults_name_nodes, proper_trees_have_bounds, same_programs_answer_same, shape_is_of_trees,
    tree_bounds_points,
};
pub use lists::print_weights;
pub use marks::{Cell, FracCell, Licence, Mark};
pub use plan_mark::PlanMark;
pub use points::{objective_at, point_of};
pub use text::{MarkFault, marks_are_short_lines, marks_read_back, print_mark, read_mark};
pub use text_words::mark_of_words;
pub use turns::{Turn, turn_on};
pub use walk::{Walk, bound, count_nodes};
