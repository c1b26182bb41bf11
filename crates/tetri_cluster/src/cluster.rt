// The nodes of a cluster.
ghost use Rattle.std.specs.Prelude.{◌≡◌, ◌<◌, ◌≤◌, ℕ, All, length, true, nat_eq, nat_lt, None, Some, IfOk, IfSome, IsErrOf};
ghost use Rattle.std.specs.List.{list_any};
ghost use Rattle.std.specs.List.Sorted.{IsNonDecreasing};
ghost use Rattle.tetri_cluster.specs.Names.{differ, is_among, number_of, first_repeated};

use crate::tags::tag_lists;
use crate::{Name, NameList, NameTable, NodeSet};
use std::alloc::{AllocError, Global};
use std::marker::Model;

const MAX_NODES: usize = 4096;

/// A node's name and its tags.
#[derive(Drop)]
pub struct NodeText {
    /// Its name, which no other node of a cluster has.
    pub name: Name,
    /// Its tags, in the order in which they were given.
    pub tags: NameList,
}

/// At most 4,096 nodes whose names differ. A node's number is its place, from 0 on.
#[derive(Drop)]
pub struct Cluster {
    nodes: Vec<NodeText>,
    names: NameTable,
    tags: NameTable,
    by_tag: Vec<NodeSet>,
}

impl Model for Cluster {
    ghost use Rattle.std.specs.Prelude.{List, ℕ, ◌≡◌, ◌≤◌, length, true};
    ghost use Rattle.tetri_cluster.specs.declared.cluster.NodeText.{NodeText};
    ghost use Rattle.tetri_cluster.specs.Cluster.{names_of};
    ghost use Rattle.tetri_cluster.specs.Names.{differ};
    ghost use Rattle.tetri_cluster.specs.Tags.{tag_list, tagged_from};

    ghost Value = { List NodeText };

    ghost view = { λ c. c.nodes.items };

    ghost invariant = { λ c. (c.names ≡ names_of c.nodes.items) × (length c.nodes.items ≤ 4096)
        × (differ (names_of c.nodes.items) ≡ true) × (length c.by_tag.items ≡ length c.tags)
        × ((tag : List ℕ) → tag_list c.tags c.by_tag.items tag ≡ tagged_from 0 tag c.nodes.items) };
}

/// Why nodes make no cluster.
#[derive(Clone, Copy, Debug, PartialEq, Eq)]
pub enum ClusterFault {
    /// There are this many, and so more than 4,096.
    TooManyNodes(usize),
    /// The node at this place has the name of an earlier one.
    NameTaken(usize),
    /// There is no memory for the index of the names.
    NoMemory,
}

impl From<AllocError> for ClusterFault {
    ghost use Rattle.std.specs.Prelude.{◌≡◌};
    ghost use Rattle.tetri_cluster.specs.declared.cluster.ClusterFault.TheVariants as fault;

    ghost from_gives = { λ _ e. e ≡ fault.NoMemory };

    fn from(_: AllocError) -> Self {
        ClusterFault::NoMemory
    }
}

impl Cluster {
    ghost use Rattle.tetri_cluster.specs.Cluster.{AnswersBuild, knows_tag, name_at, names_of, tags_at};

    /// The cluster of these nodes. `TooManyNodes` comes exactly above 4,096 of them, and else
    /// `NameTaken` exactly at the first repeated name.
    pub fn build(alloc: Global, nodes: Vec<NodeText>) -> Result<Cluster, ClusterFault>
        ensures { AnswersBuild nodes.items result }
    {
        if nodes.len() > MAX_NODES {
            return Err(ClusterFault::TooManyNodes(nodes.len()));
        }
        let names = Cluster::number_names(alloc, &nodes)?;
        let (tags, by_tag) = tag_lists(alloc, &nodes)?;
        Ok(Cluster {
            nodes,
            names,
            tags,
            by_tag,
        })
    }

    /// How many nodes there are. Their names differ.
    pub fn count(&self) -> u32
        ensures value { result ≡ length self.now }
        ensures most { result ≤ 4096 }
        ensures differ { differ (names_of self.now) ≡ true }
    {
        self.nodes.len() as u32
    }

    /// The node with a name. `None` exactly where no node has it. It is looked up by an index.
    pub fn node(&self, name: &[u8]) -> Option<u32>
        ensures value { result ≡ number_of name.now (names_of self.now) }
        ensures within { IfSome result (λ node. node < length self.now) }
    {
        let number = self.names.number(name)?;
        Some(number as u32)
    }

    /// The name of a node.
    pub fn name_of(&self, node: u32) -> &Name
        requires { node < length self.now }
        ensures { result.now ≡ name_at self.now node }
    {
        &self.nodes[node as usize].name
    }

    /// Whether a node has a tag.
    pub fn has_tag(&self, node: u32, tag: &[u8]) -> bool
        requires { node < length self.now }
        ensures { result ≡ is_among tag.now (tags_at self.now node) }
    {
        holds_name(&self.nodes[node as usize].tags, tag)
    }

    /// The nodes that have a tag, ascending, each perhaps more than once. They are looked up by an index.
    pub fn nodes_with(&self, tag: &[u8]) -> &[u32]
        ensures members { (node : ℕ) → list_any (nat_eq node) result.now ≡ is_among tag.now (tags_at self.now node) }
        ensures within { All (λ node. node < length self.now) result.now }
        ensures known { knows_tag self.now tag.now ≡ nat_lt 0 (length result.now) }
        ensures ascending { IsNonDecreasing result.now }
    {
        match self.tags.number(tag) {
            Some(number) => self.by_tag[number].as_slice(),
            None => &[],
        }
    }

    /// Whether some node has a tag.
    pub fn knows_tag(&self, tag: &[u8]) -> bool
        ensures { result ≡ knows_tag self.now tag.now }
    {
        !self.nodes_with(tag).is_empty()
    }

    // The names of the nodes, by number.
    fn number_names(alloc: Global, nodes: &[NodeText]) -> Result<NameTable, ClusterFault>
        ensures ok { IfOk result (λ names. (names ≡ names_of nodes.now)
            × (first_repeated (names_of nodes.now) ≡ None)) }
        ensures taken { (place : ℕ) → IsErrOf result (ClusterFault.NameTaken place)
            → first_repeated (names_of nodes.now) ≡ Some place }
        ensures counted { (count : ℕ) → ¬ IsErrOf result (ClusterFault.TooManyNodes count) }
    {
        let mut names = NameTable::new(alloc);
        for (place, node) in nodes.iter().enumerate() {
            if !names.add(node.name.bytes())? {
                return Err(ClusterFault::NameTaken(place));
            }
        }
        Ok(names)
    }
}

// Whether a name is in a list.
fn holds_name(names: &NameList, name: &[u8]) -> bool
    ensures { result ≡ is_among name.now names.now }
{
    names.as_slice().iter().any(|n| name == n.bytes())
}
