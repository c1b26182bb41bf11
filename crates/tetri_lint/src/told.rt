// What is told of a refusal.
use crate::shown::Excerpt;
use std::alloc::Global;

/// What is told of a refusal besides its line and its cause.
#[derive(Drop)]
pub struct Told {
    /// The column, from 1.
    pub column: Option<u64>,
    /// What was found there.
    pub found: Option<String>,
    /// What was expected.
    pub expected: String,
    /// The known names that are nearest.
    pub near: Vec<String>,
    /// The text there, and a place in it.
    pub excerpt: Option<Excerpt>,
}

impl Told {
    /// Nothing.
    pub(crate) fn nothing(alloc: Global) -> Told {
        Told {
            column: None,
            found: None,
            expected: String::new(alloc),
            near: Vec::new(alloc),
            excerpt: None,
        }
    }
}
