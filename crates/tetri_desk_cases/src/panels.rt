// Seats on panels.
use std::alloc::AllocError;
use tetri_advice::{Advisor, Panel};

/// Seats an advisor. A panel without a free seat is told as want of memory.
pub fn seat(panel: &mut Panel, one: Box<dyn Advisor>) -> Result<(), AllocError> {
    match panel.seat(one) {
        Ok(()) => Ok(()),
        Err(_) => Err(AllocError),
    }
}
