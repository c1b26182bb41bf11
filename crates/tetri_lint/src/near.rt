// Known names that are near to one that is not known.
use std::alloc::{AllocError, Global};
use strsim::osa_distance;

const NAMES_MOST: usize = 3;

const EDITS_MOST: usize = 3;

#[derive(Drop)]
struct Near {
    edits: usize,
    name: String,
}

/// The names that are nearest to a word, at most three, the nearest first.
#[derive(Drop)]
pub(crate) struct Nearest<'w> {
    word: &'w str,
    names: Vec<Near>,
}

impl<'w> Nearest<'w> {
    /// No name was offered.
    pub(crate) fn new(alloc: Global, word: &'w str) -> Nearest<'w> {
        Nearest {
            word,
            names: Vec::new(alloc),
        }
    }

    // How many edits there may be.
    fn most(&self) -> usize {
        (self.word.len().saturating_add(2) / 4).min(EDITS_MOST)
    }

    // Whether a name stands here.
    fn has(&self, name: &str) -> bool {
        self.names.iter().any(|near| near.name.as_str() == name)
    }

    // The place of one more name with so many edits.
    fn place(&self, edits: usize) -> usize {
        for (i, near) in self.names.iter().enumerate() {
            if edits < near.edits {
                return i;
            }
        }
        self.names.len()
    }

    /// Keeps a name if it is near.
    pub(crate) fn offer(&mut self, alloc: Global, name: &str) -> Result<(), AllocError> {
        if name.len().abs_diff(self.word.len()) > self.most() {
            return Ok(());
        }
        let edits = osa_distance(alloc, self.word, name)?;
        if edits > self.most() || self.has(name) {
            return Ok(());
        }
        let place = self.place(edits);
        let name = String::from_str(alloc, name)?;
        if place < self.names.len() {
            self.names.insert(place, Near { edits, name })?;
        } else {
            self.names.push(Near { edits, name })?;
        }
        self.names.truncate(NAMES_MOST);
        Ok(())
    }

    /// The names.
    pub(crate) fn into_names(self, alloc: Global) -> Result<Vec<String>, AllocError> {
        let mut names = Vec::new(alloc);
        for near in self.names {
            names.push(near.name)?;
        }
        Ok(names)
    }
}

/// The names of a list that are nearest to a word.
pub(crate) fn nearest_of(
    alloc: Global,
    word: &str,
    names: &[&str],
) -> Result<Vec<String>, AllocError> {
    let mut nearest = Nearest::new(alloc, word);
    for name in names {
        nearest.offer(alloc, name)?;
    }
    nearest.into_names(alloc)
}
