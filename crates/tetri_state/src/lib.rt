//! The state of the cycles: what happens at the beginning of a cycle, what it plans for, and what it launches.
#![tactic(auto)]

mod beginning;
mod busy;
mod carrying;
mod events;
mod expiry;
mod happened;
mod launches;
mod launching;
mod laws;
mod pieces;
mod planning;
mod prepared;
mod state;
mod told;

pub use happened::{Happened, PieceId};
pub use launches::{Launch, Launched, find_launch, launch_of, starts_of};
pub use laws::{
    jobs_of_a_run_are_known, leaves_keep_their_numbers, no_two_running_pieces_share_a_node,
    nodes_of_running_pieces_are_taken, pending_asks_have_offers, running_pieces_run_on_unless_told,
};
pub use pieces::Piece;
pub use prepared::Prepared;
pub use state::State;
