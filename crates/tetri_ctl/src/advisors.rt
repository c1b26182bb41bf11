// The advisors that the program asks.
use std::alloc::AllocError;
use tetri_advice::{Advisor, Panel};

/// Seats an advisor. Its only error is want of memory for the seat.
pub fn seat(panel: &mut Panel, one: Box<dyn Advisor>) -> Result<(), AllocError> {
    match panel.seat(one) {
        Ok(()) => Ok(()),
        Err(_) => Err(AllocError),
    }
}
