// Values as texts.
use std::alloc::{AllocError, Global};
use std::fmt::{Debug, Display};

/// The text of a value as it is printed.
pub fn text_of<T: Display>(alloc: Global, value: &T) -> Result<String, AllocError> {
    format!(in alloc; "{value}")
}

/// The text of a value as it is printed for debugging.
pub fn debug_text<T: Debug>(alloc: Global, value: &T) -> Result<String, AllocError> {
    format!(in alloc; "{value:?}")
}

/// Adds that text.
pub fn add_debug<T: Debug>(out: &mut String, value: &T) -> Result<(), AllocError> {
    write!(out, "{value:?}")
}

/// The text of bytes, or that they are none.
pub fn text_in(alloc: Global, bytes: &[u8]) -> Result<String, AllocError> {
    String::from_str(alloc, str::from_utf8(bytes).unwrap_or("not text"))
}
