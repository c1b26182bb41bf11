// The parts of an instance.
ghost use Rattle.std.specs.Prelude.{◌≡◌, ◌<◌, ◌^◌, [], All, length, slice_index_or};
ghost use Rattle.std.specs.List.Sorted.{IsStrictlyIncreasing};

use std::marker::Model;
use tetri_base::Items;

/// The independent parts of an instance: the jobs of each, ascending, by least job. No job of one part can share
/// a node with a job of another, and no part can be divided further.
#[derive(Drop)]
pub struct Parts {
    lists: Vec<Items<u32>>,
}

impl Model for Parts {
    ghost use Rattle.std.specs.Prelude.{List, ℕ, ◌<◌, ◌^◌, All, length};
    ghost use Rattle.std.specs.List.Sorted.{IsStrictlyIncreasing};

    ghost Value = { List (List ℕ) };

    ghost view = { λ p. p.lists.items };

    ghost invariant = { λ p. All IsStrictlyIncreasing p.lists.items × (length p.lists.items < 2 ^ 32) };
}

impl Parts {
    // These parts, without memory.
    pub(crate) fn of(lists: Vec<Items<u32>>) -> Parts
        requires ascending { All IsStrictlyIncreasing lists.items }
        requires few { length lists.items < 2 ^ 32 }
        ensures { result ≡ lists.items }
    {
        Parts { lists }
    }

    /// How many parts there are. Takes no memory.
    pub fn count(&self) -> u32
        ensures { result ≡ length self.now }
    {
        self.lists.len() as u32
    }

    /// The jobs of a part, ascending. Takes no memory.
    pub fn jobs_of(&self, part: u32) -> &[u32]
        requires { part < length self.now }
        ensures jobs { result.now ≡ slice_index_or self.now part [] }
        ensures ascending { IsStrictlyIncreasing result.now }
    {
        self.lists[part as usize].as_slice()
    }
}
