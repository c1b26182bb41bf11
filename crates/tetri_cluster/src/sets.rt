// Sets of nodes.
ghost use Rattle.std.specs.Prelude.{◌≡◌, ◌<◌, ◌≤◌, ◌↔◌, [], Some, None, length, take, IsTrue, IfOk, OnErr, IsErrOf, Contains, slice_index_or};
ghost use Rattle.std.specs.List.Sorted.{IsStrictlyIncreasing};
ghost use Rattle.tetri_cluster.specs.Sets.{AreSets, set_added};

use crate::NodeSet;
use indexmap::IndexSet;
use std::alloc::{AllocFailed, Global};
use std::marker::Model;

const MAX_SETS: usize = 4096;

/// At most 4,096 different sets of nodes, each ascending. A set's number is its place, from 0 on,
/// and a look-up goes by an index.
#[derive(Drop)]
pub struct Sets {
    sets: IndexSet<NodeSet>,
}

/// Why a set is not added.
#[derive(Clone, Copy, Debug, PartialEq, Eq)]
pub enum SetsFault {
    /// It is new, and 4,096 are there.
    Full,
    /// There is no memory for it.
    NoMemory,
}

impl<T: Drop> From<AllocFailed<T>> for SetsFault {
    ghost use Rattle.std.specs.Prelude.{◌≡◌};
    ghost use Rattle.tetri_cluster.specs.declared.sets.SetsFault.TheVariants as fault;

    ghost from_gives = { λ _ e. e ≡ fault.NoMemory };

    fn from(_: AllocFailed<T>) -> Self {
        SetsFault::NoMemory
    }
}

impl Model for Sets {
    ghost use Rattle.std.specs.Prelude.{List, ℕ, ◌≤◌, length};
    ghost use Rattle.tetri_cluster.specs.Sets.{AreSets};

    ghost Value = { List (List ℕ) };

    ghost view = { λ s. s.sets.keys };

    ghost invariant = { λ s. AreSets s.sets.keys × (length s.sets.keys ≤ 4096) };
}

impl Sets {
    /// No sets.
    pub fn new(alloc: Global) -> Self
        ensures { result ≡ [] }
    {
        Sets {
            sets: IndexSet::new(alloc),
        }
    }

    /// The number of the set with exactly these nodes, a new one last. The other sets keep their
    /// numbers. `Full` exactly where it is new and 4,096 are there.
    pub fn find_or_add(&mut self, nodes: NodeSet) -> Result<u32, SetsFault>
        requires { IsStrictlyIncreasing nodes }
        ensures ok { IfOk result (λ set. set_added nodes self.old ≡ Some (set, self.new)) }
        ensures nodes { IfOk result (λ set. slice_index_or self.new set [] ≡ nodes) }
        ensures within { IfOk result (λ set. set < length self.new) }
        ensures full { IsErrOf result SetsFault.Full → set_added nodes self.old ≡ None }
        ensures err { OnErr result (self.new ≡ self.old) }
        ensures kept { take (length self.old) self.new ≡ self.old }
        ensures are_sets { AreSets self.new }
        ensures most { length self.new ≤ 4096 }
    {
        if self.sets.len() >= MAX_SETS {
            return match self.sets.get_index_of(&nodes) {
                Some(set) => Ok(set as u32),
                None => Err(SetsFault::Full),
            };
        }
        let (set, _) = self.sets.insert_full(nodes)?;
        Ok(set as u32)
    }

    /// How many sets there are.
    pub fn len(&self) -> u32
        ensures value { result ≡ length self.now }
        ensures most { result ≤ 4096 }
        ensures are_sets { AreSets self.now }
    {
        self.sets.len() as u32
    }

    /// The nodes of a set.
    pub fn nodes_of(&self, set: u32) -> &NodeSet
        requires { set < length self.now }
        ensures value { result.now ≡ slice_index_or self.now set [] }
        ensures ascending { IsStrictlyIncreasing result.now }
        ensures are_sets { AreSets self.now }
    {
        &self.sets.as_slice()[set as usize]
    }

    /// Whether a node is in a set.
    pub fn holds(&self, set: u32, node: u32) -> bool
        requires { set < length self.now }
        ensures { IsTrue result ↔ Contains (slice_index_or self.now set []) node }
    {
        self.nodes_of(set).as_slice().binary_search(&node).is_ok()
    }

    /// Keeps the first `len` sets with their numbers, and drops the others. It takes no memory.
    pub fn truncate(&mut self, len: u32)
        ensures value { self.new ≡ take len self.old }
        ensures are_sets { AreSets self.new }
    {
        self.sets.truncate(len as usize);
    }
}
