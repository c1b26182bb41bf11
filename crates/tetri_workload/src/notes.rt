// What is noted of the jobs that are taken, which answers most questions about them without a look at one of them.
ghost use Rattle.std.specs.Prelude.{◌≡◌, ◌&&◌, ◌||◌, ◌++◌, ◌∷◌, [], IfOk, List, max, nat_lt, not, true, ℕ};
ghost use Rattle.tetri_workload.specs.Marks.{is_marked, place_of_name};
ghost use Rattle.tetri_workload.specs.Notes.{AreNoted, again_name, has_colon};

use crate::marks::{Marks, place_of_name};
use std::alloc::{AllocError, Global};

/// What is noted of the jobs that are taken.
#[derive(Drop)]
pub struct Notes {
    // A mark for the name of each.
    marks: Marks,
    // None was submitted later.
    latest: u32,
    // Whether a colon stands in a name only where its job was submitted again.
    plain: bool,
}

// Whether a colon stands in a name.
fn has_colon(name: &[u8]) -> bool
    ensures { result ≡ has_colon name.now }
{
    name.contains(&b':')
}

impl Notes {
    /// Of no jobs.
    pub(crate) fn new(alloc: Global) -> Result<Notes, AllocError>
        ensures { IfOk result (λ n. AreNoted n [] []) }
    {
        Ok(Notes {
            marks: Marks::new(alloc)?,
            latest: 0,
            plain: true,
        })
    }

    /// Whether one may have this name. Where it says no, none has.
    #[inline(always)]
    pub(crate) fn may_have(&self, name: &[u8]) -> bool
        ensures { result ≡ is_marked self.now.marks (place_of_name name.now) }
    {
        self.marks.has(place_of_name(name))
    }

    /// Whether all were submitted before this second, and none has the name of a job that was submitted again then.
    #[inline(always)]
    pub(crate) fn are_before(&self, second: u32) -> bool
        ensures { result ≡ (self.now.plain && nat_lt self.now.latest second) }
    {
        self.plain && self.latest < second
    }

    /// With one more, which was submitted again if it is said so.
    pub(crate) fn add(&mut self, name: &[u8], submit: u32, again: bool)
        requires again { again ≡ true → (first : List ℕ) × (name.now ≡ again_name first submit) }
        ensures noted { (submits : List ℕ) → (names : List (List ℕ)) → AreNoted self.old submits names → AreNoted self.new (submits ++ submit ∷ []) (names ++ name.now ∷ []) }
        ensures latest { self.new.latest ≡ max self.old.latest submit }
        ensures plain { self.new.plain ≡ (self.old.plain && (again || not (has_colon name.now))) }
    {
        self.marks.add(place_of_name(name));
        self.latest = self.latest.max(submit);
        self.plain &= again | !has_colon(name);
    }
}
