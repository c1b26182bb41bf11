//! The elements of the picture of a schedule, as text: where they stand, and how they look.
#![tactic(auto)]

mod area;
mod back;
mod bar;
mod clock;
mod fate;
mod frame;
mod front;
mod labels;
mod marks;
mod plain;
mod shade;
mod sheet;
mod sizes;
mod strips;
mod style;

pub use area::{Area, add_area};
pub use back::{add_asked, add_cycle, add_scale, add_wait};
pub use bar::{Bar, add_bar};
pub use clock::Clock;
pub use fate::Fate;
pub use frame::Frame;
pub use front::{add_axis, add_heading, add_name, add_opening};
pub use shade::add_shade;
pub use sheet::{add_below, add_end, add_sheet};
pub use sizes::{last_of, stride_for};
pub use strips::{add_queue, add_strips_scale, add_use};
pub use style::{add_grey, add_key, add_legend, add_note, add_style};
