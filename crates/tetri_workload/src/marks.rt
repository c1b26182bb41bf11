// Marks of names and of seconds, by which it is quickly known that one is not among some.
ghost use Rattle.std.specs.Prelude.{◌≡◌, ◌<◌, IfOk, ℕ, false, true};
ghost use Rattle.tetri_workload.specs.Marks.{is_marked, place_of_name, place_of_second};

use std::alloc::{AllocError, Global};

// As many places as there are for marks: ten for each job that a trace has at most.
const PLACES: usize = 1_048_576;

// As many places as share a word, in which each has a bit.
const PLACES_PER_WORD: usize = 64;

/// A mark at some of these places. Names, or seconds, may share a place.
#[derive(Drop)]
pub struct Marks {
    // Bits, and not a `bool` for each place, so that a processor's second cache holds them.
    marks: Vec<u64>,
}

/// The place of a name's mark.
pub(crate) fn place_of_name(name: &[u8]) -> usize
    ensures { result ≡ place_of_name name.now }
{
    let mut place = 0usize;
    for b in name {
        place = (place * 31 + usize::from(*b)) % PLACES;
    }
    place
}

/// The place of a second's mark.
#[inline(always)]
pub(crate) fn place_of_second(second: u32) -> usize
    ensures { result ≡ place_of_second second }
{
    second as usize % PLACES
}

impl Marks {
    /// No mark, at each place.
    pub(crate) fn new(alloc: Global) -> Result<Marks, AllocError>
        ensures { IfOk result (λ m. (place : ℕ) → place < 1048576 → is_marked m place ≡ false) }
    {
        Ok(Marks {
            marks: vec![in alloc; 0; PLACES / PLACES_PER_WORD]?,
        })
    }

    /// Whether a place is marked.
    #[inline(always)]
    pub(crate) fn has(&self, place: usize) -> bool
        ensures { result ≡ is_marked self.now place }
    {
        match self.marks.get(place / PLACES_PER_WORD) {
            Some(word) => *word >> (place % PLACES_PER_WORD) & 1 == 1,
            None => true,
        }
    }

    /// Marks a place.
    #[inline(always)]
    pub(crate) fn add(&mut self, place: usize)
        ensures own { is_marked self.new place ≡ true }
        ensures others { (other : ℕ) → is_marked self.old other ≡ true → is_marked self.new other ≡ true }
        ensures only { (other : ℕ) → (other ≡ place → ⊥) → is_marked self.new other ≡ true → is_marked self.old other ≡ true }
    {
        let word = place / PLACES_PER_WORD;
        if word < self.marks.len() {
            self.marks[word] |= 1 << (place % PLACES_PER_WORD);
        }
    }
}
