//! The picture of a report: checks the report, and draws its run as SVG.
#![tactic(auto)]

mod back;
mod bars;
mod colours;
mod framing;
mod front;
mod gathering;
mod header;
mod laws;
mod marks;
mod names;
mod pair;
mod pair_status;
mod picture;
mod shades;
mod sheet;
mod slot;
mod slots;
mod top;
mod view;
mod writing;

pub use header::clock_of;
pub use laws::{pairs_share_slots, pictures_tell_pieces, pieces_are_those_of_states};
pub use pair::chart_pair;
pub use pair_status::PairStatus;
pub use picture::{Chart, CycleMark, Span, Wait};
pub use sheet::draw_pair;
pub use top::chart;
pub use view::{Colours, View};
pub use writing::draw;
