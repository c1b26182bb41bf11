//! The text of a report.
#![tactic(auto)]

mod blocks;
mod cycle;
mod differences;
mod fault;
mod laws;
mod line;
mod lines;
mod print;
mod read;
mod send_fault;
mod stages;
mod strips;
mod summary;

pub use blocks::Blocks;
pub use cycle::{Cycle, Head, Summary};
pub use differences::{Expected, first_other_line_by_head, plan_place_behind};
pub use fault::ReportFault;
pub use laws::{
    certificates_are_told, printed_lines_are_short, printed_parts_are_short,
    printed_reports_read_back, strips_read_as_blocks,
};
pub use line::PlanLine;
pub use lines::name_of;
pub use print::{print_cycle, print_events, print_launches, print_plan};
pub use send_fault::SendFault;
pub use strips::{Strips, Told};
pub use summary::print_summary;
