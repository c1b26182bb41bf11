// Lists of names and of nodes.
ghost use Rattle.std.specs.Prelude.{◌≡◌, ◌∷◌, [], ◌++◌, nat_eq, IfOk, OnOk, OnErr};
ghost use Rattle.std.proofs.Common.{rules};
ghost use Rattle.std.specs.Cmp.{partial_equiv_from_equiv};
ghost use Rattle.std.specs.Cmp.Lexicographic.{pointwise, nat_list_eq_equiv};
ghost use Rattle.std.specs.Cmp.Rules.{hashing};
ghost use Rattle.std.specs.Hash as fed;

use crate::Name;
use std::alloc::{AllocError, Global};
use std::hash::{Hash, Hasher};
use std::marker::Model;
use tetri_base::Items;

/// Names, in the order in which they were put.
pub type NameList = Items<Name>;

/// Node numbers, in the order in which they were put. Two sets of the same numbers in the same order are equal.
#[derive(Drop)]
pub struct NodeSet {
    nodes: Items<u32>,
}

impl Model for NodeSet {
    ghost use Rattle.std.specs.Prelude.{List, ℕ};

    ghost Value = { List ℕ };

    ghost view = { λ s. s.nodes };
}

impl NodeSet {
    /// The empty set, which takes no memory.
    pub fn new(alloc: Global) -> Self
        ensures { result ≡ [] }
    {
        NodeSet {
            nodes: Items::new(alloc),
        }
    }

    /// A copy of these nodes, in one piece.
    pub fn of_slice(alloc: Global, nodes: &[u32]) -> Result<NodeSet, AllocError>
        ensures { IfOk result (λ set. set ≡ nodes.now) }
    {
        Ok(NodeSet {
            nodes: Items::of(Vec::from_slice(alloc, nodes)?),
        })
    }

    /// Puts the node last.
    pub fn push(&mut self, item: u32) -> Result<(), AllocError>
        ensures ok { OnOk result (self.new ≡ self.old ++ item ∷ []) }
        ensures err { OnErr result (self.new ≡ self.old) }
    {
        self.nodes.push(item)
    }

    /// The nodes in order.
    pub fn as_slice(&self) -> &[u32]
        ensures { result.now ≡ self.now }
    {
        self.nodes.as_slice()
    }
}

impl PartialEq for NodeSet {
    ghost eq = { pointwise nat_eq };

    ghost laws = { partial_equiv_from_equiv nat_list_eq_equiv };

    fn eq(&self, other: &NodeSet) -> bool {
        self.as_slice() == other.as_slice()
    }
}

impl Eq for NodeSet {
    ghost laws = { nat_list_eq_equiv };
}

impl Hash for NodeSet {
    ghost hash_input = { fed.slice fed.u32 };

    ghost respects_eq = { Prim.search (hashing, rules) };

    fn hash<H: Hasher>(&self, state: &mut H) {
        self.as_slice().hash(state);
    }
}
