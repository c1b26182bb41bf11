//! The integer program of an instance: its columns are the indicators of parts of expressions and the
//! counts of nodes by leaf and partition, and every lawful allotment has a point of it that is worth
//! no less.
#![tactic(auto)]

mod compiling;
mod flattening;
mod laws;
mod outline;
mod rooms;
mod sizes;
mod supply;
mod taking;
mod terms;
mod walking;

pub use compiling::{Compiled, Count, compile};
pub use laws::most_gain_bounds_points;
pub use sizes::size;
pub use taking::{Taken, counts_of};
