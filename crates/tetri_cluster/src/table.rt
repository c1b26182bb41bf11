// Names and their numbers.
ghost use Rattle.std.specs.Prelude.{◌≡◌, ◌<◌, ◌^◌, ◌++◌, ◌∷◌, [], true, not, slice_get, length, if◌then◌else◌, option_map, is_some, IfSome, IfOk, OnErr};
ghost use Rattle.tetri_cluster.specs.Names.{differ, is_among, number_of};

use indexmap::IndexSet;
use std::alloc::{AllocError, Global};
use std::marker::Model;

/// Different names, each with the number of its place in the order of their coming, from 0 on. A
/// look-up goes by an index.
#[derive(Drop)]
pub struct NameTable {
    names: IndexSet<Vec<u8>>,
    alloc: Global,
}

impl Model for NameTable {
    ghost use Rattle.std.specs.Prelude.{◌≡◌, List, ℕ, map, true};
    ghost use Rattle.tetri_cluster.specs.Names.{differ};

    ghost Value = { List (List ℕ) };

    ghost view = { λ t. map (λ v. v.items) t.names.keys };

    ghost invariant = { λ t. differ (map (λ v. v.items) t.names.keys) ≡ true };
}

impl NameTable {
    /// No names.
    pub fn new(alloc: Global) -> NameTable
        ensures { result ≡ [] }
    {
        NameTable {
            names: IndexSet::new(alloc),
            alloc,
        }
    }

    /// How many names there are.
    pub fn len(&self) -> usize
        ensures value { result ≡ length self.now }
        ensures small { result < 2 ^ 63 }
        ensures differ { differ self.now ≡ true }
    {
        self.names.len()
    }

    /// The number of a name. `None` exactly where it is not there.
    pub fn number(&self, name: &[u8]) -> Option<usize>
        ensures value { result ≡ number_of name.now self.now }
        ensures found { is_some result ≡ is_among name.now self.now }
        ensures within { IfSome result (λ number. number < length self.now) }
    {
        self.names.get_index_of(name)
    }

    /// The name with a number. `None` exactly where the number is not below the length.
    pub fn name(&self, number: usize) -> Option<&[u8]>
        ensures { option_map (λ s. s.now) result ≡ slice_get self.now number }
    {
        self.names.get_index(number).map(|name| name.as_slice())
    }

    /// Gives a new name the next number, and says whether it was new. Without memory the table
    /// stays as it was.
    pub fn add(&mut self, name: &[u8]) -> Result<bool, AllocError>
        ensures fresh { IfOk result (λ new. new ≡ not (is_among name.now self.old)) }
        ensures ok { IfOk result (λ new.
            self.new ≡ (if new then self.old ++ name.now ∷ [] else self.old)) }
        ensures err { OnErr result (self.new ≡ self.old) }
        ensures differ { differ self.new ≡ true }
    {
        let key = Vec::from_slice(self.alloc, name)?;
        Ok(self.names.insert(key)?)
    }
}
