// A density as a user writes it.
use crate::charge::Density;

// The density with one digit more; `None` where it gets too long.
fn with_digit(density: Density, digit: u8, is_decimal: bool) -> Option<Density> {
    let worth = density.worth.checked_mul(10)?;
    let node_slots = if is_decimal {
        density.node_slots.checked_mul(10)?
    } else {
        density.node_slots
    };
    Some(Density {
        worth: worth.checked_add(u64::from(digit))?,
        node_slots,
    })
}

/// The worth of a node for one slot in a text, a whole or a decimal number such as `2` or `0.25`.
/// `None` where it is no such number, or has more than some 19 digits.
pub fn density_in(text: &str) -> Option<Density> {
    let mut density = Density {
        worth: 0,
        node_slots: 1,
    };
    let mut digits = 0u32;
    let mut is_decimal = false;
    for byte in text.bytes() {
        match byte {
            b'0'..=b'9' => {
                density = with_digit(density, byte - b'0', is_decimal)?;
                digits = digits.saturating_add(1);
            }
            b'.' if digits > 0 && !is_decimal => is_decimal = true,
            _ => return None,
        }
    }
    if digits == 0 { None } else { Some(density) }
}
