// Cells of lines.
use std::alloc::{AllocError, Global};

/// What stands where there is nothing.
pub(crate) const NOTHING: &str = "-";

/// A text as a cell.
pub(crate) fn text_cell(alloc: Global, text: &str) -> Result<String, AllocError> {
    String::from_str(alloc, text)
}

/// A number as a cell.
pub(crate) fn number_cell(alloc: Global, number: u128) -> Result<String, AllocError> {
    format!(in alloc; "{number}")
}

/// Thousandths as a number with three places.
pub(crate) fn thousandths_cell(alloc: Global, number: u128) -> Result<String, AllocError> {
    let whole = number / 1000;
    let part = u64::try_from(number % 1000).unwrap_or(0);
    format!(in alloc; "{whole}.{part:03}")
}

/// A quotient, rounded down, 0 where there is nothing to divide by.
pub(crate) fn quotient(total: u128, count: u128) -> u128 {
    if count == 0 { 0 } else { total / count }
}

/// A mean in thousandths, rounded down; nothing where there is nothing to be counted.
pub(crate) fn mean_cell(alloc: Global, total: u128, count: u128) -> Result<String, AllocError> {
    if count == 0 {
        return text_cell(alloc, NOTHING);
    }
    thousandths_cell(alloc, quotient(total.saturating_mul(1000), count))
}

/// A number as a cell, or what stands for none.
pub(crate) fn maybe_cell(
    alloc: Global,
    number: Option<u64>,
    none: &str,
) -> Result<String, AllocError> {
    match number {
        Some(number) => number_cell(alloc, u128::from(number)),
        None => text_cell(alloc, none),
    }
}
