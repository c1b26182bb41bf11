// Panels of advisors: whole runs with them, and panels that are asked and taught cycle by cycle.
mod consulted;
mod repeat;
mod script;
mod scripted;
mod seats;
mod wrapped;

pub use seats::{Trial, is_seated, try_panel};
