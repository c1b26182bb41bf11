//! The top call: plans a trace and writes its report, checks a report against its trace, or sums up
//! the run of a made trace.
#![tactic(auto)]

mod accepted;
mod admit;
mod by_chooser;
mod by_panel;
mod check;
mod cycle_check;
mod ended;
mod halt;
mod laws;
mod load;
mod parts;
mod planner;
mod seen;
mod sight;
mod spoken;
mod status;
mod telling;
mod tight;
mod told;
mod top;
mod why;
mod words;

pub use admit::run_admit;
pub use by_chooser::{ByChooser, run_chosen};
pub use ended::{conclude, exit_number, status_of_words};
pub use laws::{
    pieces_of_runs_keep_their_nodes, planned_runs_are_one, reports_are_refused_once,
    searches_begin_within_the_value, states_of_runs_are_reached,
};
pub use load::run_load;
pub use parts::run_parts;
pub use seen::check_seen;
pub use spoken::say;
pub use status::Status;
pub use tight::run_tight;
pub use top::{run, run_check, run_plan, status_of};
pub use why::Why;
